// The elements of a container, each on a line, or how many there are.
ghost use Rattle.std.specs.Prelude.{◌≡◌, false};
ghost use Rattle.jx_index.specs.Pointers.{IsPointer};

use crate::fault::Fault;
use crate::input::{fault_of_report, open_watched};
use crate::messages::{messages_on, shown_word};
use crate::misplaced::refuse_path;
use crate::output::Output;
use jx_command::{EachForm, EachOrder};
use jx_crew::{Crew, OpenGate};
use jx_each::LineContent;
use jx_ends::{End, Exit, ReportFault, Sink, Source};
use jx_files::Status;
use jx_index::Pointer;
use jx_values::{report_count, report_elements, report_name_texts};
use std::sync::Wait;
use std::thread::Threads;

/// Reads what an order names by its workers, and writes or counts the elements of the container that it asks for, or reports that
/// its pointer is not one.
pub fn write_elements_of<R: Threads + Wait + Sync>(
    rt: &HostRuntime,
    threads: &R,
    order: &EachOrder<'_>,
) -> Result<Status, Fault> {
    refuse_path(rt, order.input, order.pointer)?;
    match Pointer::read(order.pointer) {
        Ok(_) => write_elements(rt, threads, order),
        Err(fault) => Err(Fault::Pointer(shown_word(rt, order.pointer)?, fault)),
    }
}

/// Calls the report on elements, or on how many there are, that an order asks for.
fn report<R: Threads + Wait + Sync, S: Source, W: Sink, E: Sink>(
    crew: &Crew<'_, R, OpenGate>,
    reader: &mut S,
    writer: &mut W,
    errors: &mut E,
    order: &EachOrder<'_>,
) -> Result<Exit, ReportFault>
    requires pointer { IsPointer order.now.pointer.now }
    requires reader { S.has_failed reader.old ≡ false }
    requires writer { W.has_failed writer.old ≡ false }
{
    let settings = &order.settings;
    let content = match order.form {
        EachForm::Values => LineContent::Alone,
        EachForm::Members => LineContent::Named,
        EachForm::Names => LineContent::NameAlone,
        EachForm::NameTexts => {
            return report_name_texts(
                crew,
                reader,
                writer,
                errors,
                settings,
                order.pointer,
                order.piece,
            );
        }
        EachForm::Count => {
            return report_count(
                crew,
                reader,
                writer,
                errors,
                settings,
                order.pointer,
                order.piece,
            );
        }
    };
    report_elements(
        crew,
        reader,
        writer,
        errors,
        settings,
        content,
        order.pointer,
        order.piece,
    )
}

/// The same, where the pointer is one.
fn write_elements<R: Threads + Wait + Sync>(
    rt: &HostRuntime,
    threads: &R,
    order: &EachOrder<'_>,
) -> Result<Status, Fault>
    requires { IsPointer order.now.pointer.now }
{
    let crew = Crew {
        rt: threads,
        alloc: rt.alloc(),
        workers: order.workers,
        gate: &OpenGate,
    };
    let mut reader = open_watched(rt, order.input, order.progress)?;
    let mut writer = End::new(Output::of(rt));
    let mut errors = messages_on(rt, order.input)?;
    match report(&crew, &mut reader, &mut writer, &mut errors, order) {
        Ok(exit) => Ok(Status::of_exit(exit)),
        Err(fault) => Err(fault_of_report(rt, order.input, &reader, &writer, fault)),
    }
}
