// Work on the parts of a text.
ghost use Rattle.std.specs.Prelude.{◌≡◌, false};

use crate::fault::Fault;
use crate::input::{Reader, fault_of_report, open};
use crate::messages::tell_words;
use crate::output::{Output, Writer};
use jx_command::{PartsOrder, PartsStep};
use jx_ends::{End, Exit};
use jx_files::Status;
use jx_parts::{PartsFault, report_joined, report_part, report_whole};
use std::io::IsTerminal;

/// Does the step of an order between its ends. A run that is written is good.
fn work_between(
    rt: &HostRuntime,
    order: &PartsOrder<'_>,
    reader: &mut Reader,
    writer: &mut Writer,
) -> Result<Exit, PartsFault>
    requires reader { reader.old.failed ≡ false }
    requires writer { writer.old.failed ≡ false }
{
    let alloc = rt.alloc();
    let depth = order.depth;
    match order.step {
        PartsStep::Part { from } => {
            report_part(alloc, reader, writer, from, depth)?;
            Ok(Exit::Good)
        }
        PartsStep::Join => {
            report_joined(alloc, reader, writer, depth)?;
            Ok(Exit::Good)
        }
        PartsStep::Whole { from, to, quiet } => {
            report_whole(alloc, reader, writer, depth, from, to, quiet)
        }
    }
}

/// Whether a step writes a run, which is not valid JSON.
fn writes_run(step: PartsStep) -> bool {
    match step {
        PartsStep::Part { .. } | PartsStep::Join => true,
        PartsStep::Whole { .. } => false,
    }
}

/// Reads what an order names, and writes what it asks for. A run is not written to a terminal.
pub fn work_on_parts(rt: &HostRuntime, order: &PartsOrder<'_>) -> Result<Status, Fault> {
    if writes_run(order.step) && rt.stdout().is_terminal() {
        return Err(Fault::Terminal);
    }
    let mut reader = open(rt, order.input)?;
    let mut writer = End::new(Output::of(rt));
    match work_between(rt, order, &mut reader, &mut writer) {
        Ok(exit) => Ok(Status::of_exit(exit)),
        Err(PartsFault::Report(fault)) => {
            Err(fault_of_report(rt, order.input, &reader, &writer, fault))
        }
        Err(fault) => {
            let alloc = rt.alloc();
            let words = format!(in alloc; "{fault}\n")?;
            Err(tell_words(rt, order.input, words.as_str())?)
        }
    }
}
