// Values whose bytes are written.
ghost use Rattle.std.specs.Prelude.{◌≤◌};

use crate::fault::Fault;
use crate::input::{fault_of_report, open};
use crate::line_values::write_line_values_of;
use crate::lines::text_of;
use crate::messages::messages_on;
use crate::misplaced::refuse_misplaced;
use crate::output::Output;
use crate::values_by_index::write_values_by_index;
use jx_command::{Input, ValuesOrder};
use jx_crew::OpenGate;
use jx_ends::End;
use jx_files::Status;
use jx_task::ValuesTask;
use jx_values::{Form, report_values};
use std::sync::Wait;
use std::thread::Threads;

/// Reads an input, and writes the values that a task asks for.
fn write_values<R: Threads + Wait + Sync>(
    rt: &HostRuntime,
    threads: &R,
    input: Input<'_>,
    task: &ValuesTask,
    form: Form,
) -> Result<Status, Fault>
    requires { 1 ≤ task.now.piece }
{
    let mut reader = open(rt, input)?;
    let mut writer = End::new(Output::of(rt));
    let mut errors = messages_on(rt, input)?;
    match report_values(
        threads,
        rt.alloc(),
        &mut reader,
        &mut writer,
        &mut errors,
        task,
        form,
        &OpenGate,
    ) {
        Ok(exit) => Ok(Status::of_exit(exit)),
        Err(fault) => Err(fault_of_report(rt, input, &reader, &writer, fault)),
    }
}

/// Reads what an order names, and writes the values that it asks for.
pub fn write_values_of<R: Threads + Wait + Sync>(
    rt: &HostRuntime,
    threads: &R,
    order: ValuesOrder<'_>,
) -> Result<Status, Fault>
    requires { 1 ≤ order.task.piece }
{
    let ValuesOrder {
        mut task,
        input,
        pointers,
        index,
        is_compact,
        is_raw,
        by_line,
    } = order;
    refuse_misplaced(rt, &task.pointers)?;
    if let Some(path) = pointers {
        let lines = text_of(rt, path)?;
        task.add_pointers(rt.alloc(), lines.as_str())?;
    }
    if let Some(by_line) = by_line {
        return write_line_values_of(rt, threads, input, task, by_line);
    }
    let form = Form { is_compact, is_raw };
    match (index, input) {
        (Some(index), Input::File(path)) => {
            write_values_by_index(rt, index, path, &task.pointers, form)
        }
        // The words have a file beside an index.
        (Some(_), Input::Standard) => Ok(Status::Fault),
        (None, input) => write_values(rt, threads, input, &task, form),
    }
}
