// Regular files, which workers read at offsets, each for itself.
ghost use Rattle.std.specs.Prelude.{◌≡◌, ◌≤◌, All, false, IfErr};
ghost use Rattle.jx_index.specs.Pointers.{IsPointer};
ghost use Rattle.jx_line_values.specs.LineValues.{pointers_of};
ghost use Rattle.jx_parallel_report.specs.ReportsAt.{IsShared};

use crate::fault::Fault;
use crate::input::{Reader, file_in, told_of};
use crate::messages::{Messages, messages_on};
use crate::output::{Output, Writer, fault_of_write};
use jx_cmd_index::report_index_at;
use jx_command::{Input, SaveOrder};
use jx_crew::Workers;
use jx_drive_at::ReportAtFault;
use jx_ends::{End, ReportFault};
use jx_files::{FileFault, Reason, Status};
use jx_line_values::{LineValuesTask, report_line_values_at};
use jx_ndjson_report::LinesTask;
use jx_parallel::{CheckFault, SharedAt};
use jx_parallel_report::{report_at, report_lines_at};
use jx_task::Command;
use std::fs::File;
use std::os::unix::fs::FileExt;
use std::sync::Wait;
use std::thread::Threads;

/// A regular file that is open.
#[derive(Drop)]
pub struct SharedFile {
    file: File,
}

impl SharedAt for SharedFile {
    ghost use Rattle.std.specs.Prelude.{None, ⊤};

    type Fault = Reason;

    // Nothing is known of the bytes of a file, nor of why the system does not read them.
    ghost content = { λ _. None };

    ghost may_fail = { λ _ _. ⊤ };

    fn read_at(&self, buf: &mut [u8], offset: usize) -> Result<usize, Reason> {
        match self.file.read_at(buf, offset as u64) {
            Ok(count) => Ok(count),
            Err(error) => Err(Reason::of(&error)),
        }
    }
}

/// The file that a reader reads from, where it is a regular file that nobody watches; else the reader.
pub fn share<'r>(reader: Reader<'r>) -> Result<SharedFile, Reader<'r>>
    ensures { IfErr result (λ back. back ≡ reader.entry) }
{
    match file_in(reader) {
        Ok(file) => Ok(SharedFile { file }),
        Err(reader) => Err(reader),
    }
}

/// The fault of a report on a file.
fn fault_of(
    rt: &HostRuntime,
    input: Input<'_>,
    writer: &Writer,
    fault: ReportAtFault<Reason>,
) -> Fault {
    match fault {
        ReportAtFault::Read(reason) => told_of(rt, input, FileFault::Read(reason)),
        ReportAtFault::Memory => Fault::Report(ReportFault::Memory),
        ReportAtFault::Write => fault_of_write(writer),
    }
}

/// Reports on a file by several workers.
pub fn report_on_file<R: Threads + Wait + Sync>(
    rt: &HostRuntime,
    threads: &R,
    input: Input<'_>,
    file: &SharedFile,
    command: &Command,
) -> Result<Status, Fault>
    requires piece { 1 ≤ command.now.piece }
    requires shared { IsShared command.now }
{
    let mut writer = End::new(Output::of(rt));
    match report_at(threads, rt.alloc(), file, &mut writer, command) {
        Ok(exit) => Ok(Status::of_exit(exit)),
        Err(fault) => Err(fault_of(rt, input, &writer, fault)),
    }
}

/// Reports on the lines of a file by several workers.
pub fn report_on_lines<R: Threads + Wait + Sync>(
    rt: &HostRuntime,
    threads: &R,
    input: Input<'_>,
    file: &SharedFile,
    writer: &mut Writer,
    task: &LinesTask,
    workers: Workers,
    piece: usize,
) -> Result<Status, Fault>
    requires writer { writer.old.failed ≡ false }
    requires piece { 1 ≤ piece }
{
    match report_lines_at(threads, rt.alloc(), file, writer, task, workers, piece) {
        Ok(exit) => Ok(Status::of_exit(exit)),
        Err(fault) => Err(fault_of(rt, input, writer, fault)),
    }
}

/// Writes the values of each line of a file by several workers.
pub fn write_values_of_lines<R: Threads + Wait + Sync>(
    rt: &HostRuntime,
    threads: &R,
    input: Input<'_>,
    file: &SharedFile,
    writer: &mut Writer,
    errors: &mut End<Messages>,
    task: &LineValuesTask,
    workers: Workers,
    piece: usize,
) -> Result<Status, Fault>
    requires pointers { All IsPointer (pointers_of task.now) }
    requires writer { writer.old.failed ≡ false }
    requires piece { 1 ≤ piece }
{
    match report_line_values_at(
        threads,
        rt.alloc(),
        file,
        writer,
        errors,
        task,
        workers,
        piece,
    ) {
        Ok(exit) => Ok(Status::of_exit(exit)),
        Err(fault) => Err(fault_of(rt, input, writer, fault)),
    }
}

/// Writes the index of a file by the workers of an order.
pub fn save_of_file<R: Threads + Wait + Sync>(
    rt: &HostRuntime,
    threads: &R,
    order: &SaveOrder<'_>,
    file: &SharedFile,
) -> Result<Status, Fault> {
    let mut writer = End::new(Output::of(rt));
    let mut errors = messages_on(rt, order.input)?;
    match report_index_at(
        threads,
        rt.alloc(),
        file,
        &mut writer,
        &mut errors,
        &order.settings,
        order.chunk,
        order.has_names,
        order.workers,
    ) {
        Ok(Ok(exit)) => Ok(Status::of_exit(exit)),
        Ok(Err(ReportFault::Write)) => Err(fault_of_write(&writer)),
        Ok(Err(fault)) => Err(Fault::Report(fault)),
        Err(CheckFault::Read(reason)) => { Err(told_of(rt, order.input, FileFault::Read(reason))) }
        Err(CheckFault::Memory) => Err(Fault::Report(ReportFault::Memory)),
    }
}
