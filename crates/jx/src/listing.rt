// Inputs that are refused, by their names alone.
ghost use Rattle.std.specs.Prelude.{◌≤◌};

use crate::fault::Fault;
use crate::first_pass::exit_of;
use crate::input::name_of;
use crate::output::write_out;
use jx_command::{Input, Inputs, ShowProgress, input_of};
use jx_ends::Exit;
use jx_files::Status;
use jx_task::Command;
use jx_words::shown_name;
use std::sync::Wait;
use std::thread::Threads;

/// Writes the name of an input that is refused, on a line of its own.
pub fn write_name(rt: &HostRuntime, input: Input<'_>) -> Result<(), Fault> {
    let mut line = shown_name(rt.alloc(), name_of(input))?;
    line.push(b'\n')?;
    write_out(rt, &line)
}

/// Writes the name of an input where it is refused.
fn list_one<R: Threads + Wait + Sync>(
    rt: &HostRuntime,
    threads: &R,
    input: Input<'_>,
    command: &Command,
    progress: ShowProgress,
) -> Result<Status, Fault>
    requires { 1 ≤ command.now.piece }
{
    let exit = exit_of(rt, threads, input, command, progress)?;
    match exit {
        Exit::Good => (),
        Exit::Bad => write_name(rt, input)?,
    }
    Ok(Status::of_exit(exit))
}

/// Lists each input that arguments name, in their order. One that cannot be read is reported, and the others go on.
fn list_words<R: Threads + Wait + Sync>(
    rt: &HostRuntime,
    threads: &R,
    words: &[&str],
    command: &Command,
    progress: ShowProgress,
) -> Result<Status, Fault>
    requires { 1 ≤ command.now.piece }
{
    let mut status = Status::Good;
    for word in words {
        let next = match list_one(rt, threads, input_of(*word), command, progress) {
            Ok(next) => next,
            Err(Fault::Told) => Status::Fault,
            Err(fault) => return Err(fault),
        };
        status = status.greatest(next);
    }
    Ok(status)
}

/// Lists the inputs that are refused.
pub fn list_refused<R: Threads + Wait + Sync>(
    rt: &HostRuntime,
    threads: &R,
    inputs: &Inputs<'_>,
    command: &Command,
    progress: ShowProgress,
) -> Result<Status, Fault>
    requires { 1 ≤ command.now.piece }
{
    match inputs {
        Inputs::One(input) => list_one(rt, threads, *input, command, progress),
        Inputs::Several(words) => list_words(rt, threads, words, command, progress),
    }
}
