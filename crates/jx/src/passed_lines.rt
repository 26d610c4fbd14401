// Lines that pass through, and where the report on the others goes.
ghost use Rattle.std.specs.Prelude.{◌≡◌, false, IfOk};

use crate::arguments::is_marked;
use crate::fault::Fault;
use crate::input::{Reader, fault_of_report, told_of};
use crate::messages::tell_words;
use crate::output::{Output, Writer, fault_of_write};
use jx_command::{Input, PassOrder};
use jx_ends::{End, ReportFault, write_whole};
use jx_files::{FileFault, Reason, Status};
use jx_ndjson_report::{LinesTask, pass_lines};
use std::fs;
use std::fs::File;
use std::os::unix::fs::MetadataExt;

/// Whether two paths lead to one regular file.
fn is_one_file(rt: &HostRuntime, one: &str, other: &str) -> bool {
    match fs::metadata(rt, one) {
        Ok(one) => match fs::metadata(rt, other) {
            Ok(other) => one.is_file() && one.dev() == other.dev() && one.ino() == other.ino(),
            Err(_) => false,
        },
        Err(_) => false,
    }
}

/// Whether the input is the file of an output: each line that is written would be read as one more.
fn is_output(rt: &HostRuntime, input: Input<'_>, pass: PassOrder<'_>) -> bool {
    let path = match input {
        Input::Standard => "/dev/stdin",
        Input::File(path) => path,
    };
    let is_report = match pass.report {
        Some(report) => is_one_file(rt, path, report),
        None => false,
    };
    is_report || is_one_file(rt, path, "/dev/stdout")
}

/// The writer of the report: the end of FILE, which may be new, or standard error.
fn report_of(rt: &HostRuntime, pass: PassOrder<'_>) -> Result<Writer, Fault>
    ensures { IfOk result (λ report. report.failed ≡ false) }
{
    let Some(path) = pass.report else {
        return Ok(End::new(Output::of_errors(rt)));
    };
    if is_marked(path) {
        told_of(rt, Input::File(path), FileFault::Open(Reason::Invalid));
        return Err(Fault::ReportLost);
    }
    match File::options().create(true).append(true).open(rt, path) {
        Ok(file) => Ok(End::new(Output::of_file(file))),
        Err(error) => {
            told_of(rt, Input::File(path), FileFault::Open(Reason::of(&error)));
            Err(Fault::ReportLost)
        }
    }
}

/// The fault of what the report is written to. That of a file is reported; on standard error nothing more is.
fn fault_of_pass(rt: &HostRuntime, pass: PassOrder<'_>, report: &Writer) -> Result<Fault, Fault> {
    if let Some(path) = pass.report {
        let why = report.inner.why;
        let alloc = rt.alloc();
        let words = format!(in alloc; "write failed{why}\n")?;
        tell_words(rt, Input::File(path), words.as_str())?;
    }
    Ok(Fault::ReportLost)
}

/// Passes the accepted lines of an input, and reports the others.
pub fn pass_input(
    rt: &HostRuntime,
    input: Input<'_>,
    reader: &mut Reader<'_>,
    writer: &mut Writer,
    task: &LinesTask,
    pass: PassOrder<'_>,
) -> Result<Status, Fault>
    requires reader { reader.old.failed ≡ false }
    requires writer { writer.old.failed ≡ false }
{
    if is_output(rt, input, pass) {
        return Err(tell_words(rt, input, "the input is an output, too\n")?);
    }
    let mut report = report_of(rt, pass)?;
    match pass_lines(rt.alloc(), reader, writer, &mut report, task) {
        Ok(exit) => Ok(Status::of_exit(exit)),
        Err(ReportFault::Write) if report.failed => Err(fault_of_pass(rt, pass, &report)?),
        Err(fault) => Err(fault_of_report(rt, input, reader, writer, fault)),
    }
}

/// Ends the last line that was written, so that the next input begins a line of its own.
pub fn end_line(writer: &mut Writer) -> Result<(), Fault>
    requires writer { writer.old.failed ≡ false }
{
    if writer.inner.ends_line {
        return Ok(());
    }
    match write_whole(writer, b"\n") {
        Ok(()) => Ok(()),
        Err(_) => Err(fault_of_write(writer)),
    }
}
