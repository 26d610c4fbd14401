// Values of each line of an input.
ghost use Rattle.std.specs.Prelude.{◌≡◌, ◌≤◌, All, OnOk, false, true};
ghost use Rattle.std.specs.Io.KnownBytes.{Appends};
ghost use Rattle.jx_index.specs.Pointers.{IsPointer};
ghost use Rattle.jx_line_values.specs.LineValues.{header, pointers_of};

use crate::fault::Fault;
use crate::input::{Reader, fault_of_report, open};
use crate::messages::{Messages, messages_on, shown_word};
use crate::output::{Output, Writer};
use crate::shared_file::{share, write_values_of_lines};
use jx_command::{ByLine, Input, TableForm, TableOrder};
use jx_crew::Workers;
use jx_ends::{End, ReportFault, Sink};
use jx_files::Status;
use jx_line_values::{LineValuesTask, RowForm, first_misspelt, report_line_values, write_header};
use jx_task::ValuesTask;
use std::alloc::Global;
use std::sync::Wait;
use std::thread::Threads;

/// Writes the pointers as the first row, if there is one.
fn write_first_row<W: Sink>(
    alloc: Global,
    writer: &mut W,
    task: &LineValuesTask,
    has_header: bool,
) -> Result<(), ReportFault>
    requires { W.has_failed writer.old ≡ false }
    ensures written { has_header ≡ true → OnOk result (Appends (W.contents writer.old) (W.contents writer.new) (header task.now)) }
    ensures none { has_header ≡ false → writer.new ≡ writer.old }
    ensures going { OnOk result (W.has_failed writer.new ≡ false) }
{
    if has_header {
        write_header(alloc, writer, task)
    } else {
        Ok(())
    }
}

/// Writes the values of each line of an input, as it is read from its start to its end.
fn write_from(
    rt: &HostRuntime,
    input: Input<'_>,
    reader: Reader<'_>,
    writer: &mut Writer,
    errors: &mut End<Messages>,
    task: &LineValuesTask,
) -> Result<Status, Fault>
    requires pointers { All IsPointer (pointers_of task.now) }
    requires reader { reader.failed ≡ false }
    requires writer { writer.old.failed ≡ false }
{
    let mut reader = reader;
    match report_line_values(rt.alloc(), &mut reader, writer, errors, task) {
        Ok(exit) => Ok(Status::of_exit(exit)),
        Err(fault) => Err(fault_of_report(rt, input, &reader, writer, fault)),
    }
}

/// Writes the values of each line of an input: a regular file is read at offsets where there are several workers.
fn write_rows<R: Threads + Wait + Sync>(
    rt: &HostRuntime,
    threads: &R,
    input: Input<'_>,
    reader: Reader<'_>,
    writer: &mut Writer,
    task: &LineValuesTask,
    workers: Workers,
    piece: usize,
) -> Result<Status, Fault>
    requires pointers { All IsPointer (pointers_of task.now) }
    requires reader { reader.failed ≡ false }
    requires writer { writer.old.failed ≡ false }
    requires piece { 1 ≤ piece }
{
    let mut errors = messages_on(rt, input)?;
    if workers.count() == 1 {
        return write_from(rt, input, reader, writer, &mut errors, task);
    }
    match share(reader) {
        Ok(file) => write_values_of_lines(
            rt,
            threads,
            input,
            &file,
            writer,
            &mut errors,
            task,
            workers,
            piece,
        ),
        Err(reader) => write_from(rt, input, reader, writer, &mut errors, task),
    }
}

/// Writes the values that pointers lead to in each line of an input, after the pointers themselves if they are a header.
fn write_line_values<R: Threads + Wait + Sync>(
    rt: &HostRuntime,
    threads: &R,
    input: Input<'_>,
    task: &LineValuesTask,
    has_header: bool,
    workers: Workers,
    piece: usize,
) -> Result<Status, Fault>
    requires pointers { All IsPointer (pointers_of task.now) }
    requires piece { 1 ≤ piece }
{
    let reader = open(rt, input)?;
    let mut writer = End::new(Output::of(rt));
    if let Err(fault) = write_first_row(rt.alloc(), &mut writer, task, has_header) {
        return Err(fault_of_report(rt, input, &reader, &writer, fault));
    }
    write_rows(
        rt,
        threads,
        input,
        reader,
        &mut writer,
        task,
        workers,
        piece,
    )
}

/// How the values of a line stand in a row.
fn form_of(table: Option<TableOrder<'_>>) -> RowForm {
    match table {
        None => RowForm::Json,
        Some(table) => match table.form {
            TableForm::Tsv => RowForm::Tsv,
            TableForm::Csv => RowForm::Csv,
        },
    }
}

/// The text that is written where there is no value.
pub fn none_of<'a>(table: Option<TableOrder<'a>>) -> &'a str {
    match table {
        None => "",
        Some(table) => table.none,
    }
}

/// Whether the first row is of pointers.
fn has_header(table: Option<TableOrder<'_>>) -> bool {
    match table {
        None => false,
        Some(table) => table.has_header,
    }
}

/// Writes the values that a task asks for of each line of an input, or reports which of its pointers is not one.
pub fn write_line_values_of<R: Threads + Wait + Sync>(
    rt: &HostRuntime,
    threads: &R,
    input: Input<'_>,
    task: ValuesTask,
    by_line: ByLine<'_>,
) -> Result<Status, Fault>
    requires { 1 ≤ task.piece }
{
    let workers = task.workers;
    let piece = task.piece;
    let task = LineValuesTask {
        pointers: task.pointers,
        settings: task.settings,
        skips_blank: by_line.skips_blanks,
        form: form_of(by_line.table),
        none: String::from_str(rt.alloc(), none_of(by_line.table))?,
    };
    match first_misspelt(&task.pointers) {
        None => write_line_values(
            rt,
            threads,
            input,
            &task,
            has_header(by_line.table),
            workers,
            piece,
        ),
        Some(misspelt) => Err(Fault::Misspelt(shown_word(rt, misspelt.word)?, misspelt.fault)),
    }
}
