// Reports on inputs.
ghost use Rattle.std.specs.Prelude.{◌≡◌, ◌≤◌, false};

use crate::fault::Fault;
use crate::input::{Desk, Reader, fault_of_report, open_watched};
use crate::output::{Output, fault_of_write};
use crate::shared_file::{report_on_file, share};
use jx_command::{Input, Inputs, ShowProgress};
use jx_crew::OpenGate;
use jx_ends::{End, ReportFault};
use jx_files::{Status, report_on_each};
use jx_parallel_report::is_shared;
use jx_report::report;
use jx_task::Command;
use std::sync::Wait;
use std::thread::Threads;

/// Reports on one input, as it is read from its start to its end.
fn report_from<R: Threads + Wait + Sync>(
    rt: &HostRuntime,
    threads: &R,
    input: Input<'_>,
    reader: Reader<'_>,
    command: &Command,
) -> Result<Status, Fault>
    requires unfailed { reader.failed ≡ false }
    requires piece { 1 ≤ command.now.piece }
{
    let mut reader = reader;
    let mut writer = End::new(Output::of(rt));
    match report(
        threads,
        rt.alloc(),
        &mut reader,
        &mut writer,
        command,
        &OpenGate,
    ) {
        Ok(exit) => Ok(Status::of_exit(exit)),
        Err(fault) => Err(fault_of_report(rt, input, &reader, &writer, fault)),
    }
}

/// Reports on one input: a regular file is read at offsets where several workers of the command read it.
fn report_on<R: Threads + Wait + Sync>(
    rt: &HostRuntime,
    threads: &R,
    input: Input<'_>,
    command: &Command,
    progress: ShowProgress,
) -> Result<Status, Fault>
    requires { 1 ≤ command.now.piece }
{
    let reader = open_watched(rt, input, progress)?;
    if !is_shared(command) {
        return report_from(rt, threads, input, reader, command);
    }
    match share(reader) {
        Ok(file) => report_on_file(rt, threads, input, &file, command),
        Err(reader) => report_from(rt, threads, input, reader, command),
    }
}

/// Reports on each of several inputs, after the word that names it.
fn report_on_words<R: Threads + Wait + Sync>(
    rt: &HostRuntime,
    threads: &R,
    words: &[&str],
    command: &Command,
    progress: ShowProgress,
) -> Result<Status, Fault>
    requires { 1 ≤ command.now.piece }
{
    let mut writer = End::new(Output::of(rt));
    match report_on_each(
        threads,
        rt.alloc(),
        &Desk { rt, progress },
        words,
        &mut writer,
        &mut End::new(rt.stderr()),
        command,
        &OpenGate,
    ) {
        Ok(status) => Ok(status),
        Err(ReportFault::Write) => Err(fault_of_write(&writer)),
        Err(fault) => Err(Fault::Report(fault)),
    }
}

/// Reports on one input, or on each of several after the word that names it.
pub fn report_on_inputs<R: Threads + Wait + Sync>(
    rt: &HostRuntime,
    threads: &R,
    inputs: &Inputs<'_>,
    command: &Command,
    progress: ShowProgress,
) -> Result<Status, Fault>
    requires { 1 ≤ command.now.piece }
{
    match inputs {
        Inputs::One(input) => report_on(rt, threads, *input, command, progress),
        Inputs::Several(words) => report_on_words(rt, threads, words, command, progress),
    }
}
