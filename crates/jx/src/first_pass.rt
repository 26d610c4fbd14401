// Long files, which are read for their verdict before they are kept in memory.
ghost use Rattle.std.specs.Prelude.{◌≤◌};

use crate::fault::Fault;
use crate::input::{fault_of_report, open_watched};
use crate::output::Output;
use jx_command::{Input, ShowProgress};
use jx_crew::{Crew, OpenGate};
use jx_ends::{End, Exit};
use jx_explain::exit_of_input;
use jx_task::Command;
use std::fs;
use std::sync::Wait;
use std::thread::Threads;

/// How long a file is at least that is read once for its verdict before it is kept in memory.
const LONG: u64 = 8 * 1024 * 1024;

/// Whether an input is a long file that can be read twice. A pipe can't, and is not opened to see that.
pub fn is_long_file(rt: &HostRuntime, input: Input<'_>) -> bool {
    match input {
        Input::Standard => false,
        Input::File(path) => match fs::metadata(rt, path) {
            Ok(found) => found.is_file() && found.len() >= LONG,
            Err(_) => false,
        },
    }
}

/// The exit by the verdict on an input. Nothing is written.
pub fn exit_of<R: Threads + Wait + Sync>(
    rt: &HostRuntime,
    threads: &R,
    input: Input<'_>,
    command: &Command,
    progress: ShowProgress,
) -> Result<Exit, Fault>
    requires { 1 ≤ command.now.piece }
{
    let crew = Crew {
        rt: threads,
        alloc: rt.alloc(),
        workers: command.workers,
        gate: &OpenGate,
    };
    let mut reader = open_watched(rt, input, progress)?;
    let mut writer = End::new(Output::of(rt));
    match exit_of_input(&crew, &mut reader, &mut writer, command) {
        Ok(exit) => Ok(exit),
        Err(fault) => Err(fault_of_report(rt, input, &reader, &writer, fault)),
    }
}
