// Lines and elements are reported while an input is read.
ghost use Rattle.std.specs.Prelude.{◌≡◌, ◌≢◌, ◌<◌, ◌≤◌, ◌↔◌, ◌++◌, ℕ, List, true, false, IfErr, IfOk, IsErrOf, OnOk};
ghost use Rattle.jx_drive.specs.Reports.{DueOrWhole, ReportsAll, WroteDue, WroteInPart, WroteLines};
ghost use Rattle.jx_ndjson_report.specs.Elements.{ElementsOutput, IsDue as IsDueOfElements};
ghost use Rattle.jx_ndjson_report.specs.Output.{IsDue, LinesOutput};
ghost use Rattle.jx_ndjson_report.specs.inside.ElementTeller.{HasTaken as HasTakenElements};
ghost use Rattle.jx_ndjson_report.specs.inside.LineTeller.{HasTaken};

use crate::element_teller::ElementTeller;
use crate::line_teller::LineTeller;
use crate::task::{ElementsTask, LinesTask};
use jx_crew::{Crew, Gate};
use jx_drive::{report_by, take_by_steps};
use jx_ends::{Exit, ReportFault, Sink, Source};
use std::alloc::AllocError;
use std::sync::Wait;
use std::thread::Threads;

/// How many bytes are read at a time, at most. So few lines wait at once, also where each one is reported.
pub(crate) const STEP: usize = 64 * 1024;

/// The same where several workers share them.
const SHARED_STEP: usize = 2 * 1024 * 1024;

/// How many bytes are read at a time, at most, for a crew.
fn room_for<R, G>(crew: &Crew<'_, R, G>) -> usize
    ensures { 0 < result }
{
    if crew.workers.count() > 1 {
        SHARED_STEP
    } else {
        STEP
    }
}

/// Reads JSON Lines to the end of input. For each line that is not valid JSON it writes its number, its span and its
/// verdict, before the next read may wait, and at the end how many lines are valid and how many are not. The status is
/// good where none is reported.
///
/// Several workers share what one read gives, where that is a MiB or more or the gate is asked: each takes chunks of so
/// many bytes and what is left of a line then. The gate is asked after each step of a worker and may stop it; the
/// calling thread reads what is left, the line that goes on, and all that is shorter. For every number of workers,
/// every chunk and every gate the output is the same.
///
/// A written line is never taken back. One batch and no line is kept; the names of the settings are ignored.
pub fn report_lines<R: Threads + Wait + Sync, S: Source, W: Sink, G: Gate + Sync>(
    crew: &Crew<'_, R, G>,
    reader: &mut S,
    writer: &mut W,
    task: &LinesTask,
    piece: usize,
) -> Result<Exit, ReportFault>
    requires piece { 1 ≤ piece }
    requires reader { S.has_failed reader.old ≡ false }
    requires writer { W.has_failed writer.old ≡ false }
    // All that the reader had was read, and its whole output was written.
    ensures ok { IfOk result (λ exit. ReportsAll (LinesOutput task.now) (S.remaining reader.old) (S.remaining reader.new) (W.contents writer.old) (W.contents writer.new) exit) }
    ensures read { IsErrOf result ReportFault.Read ↔ (S.has_failed reader.new ≡ true) }
    ensures write { IsErrOf result ReportFault.Write ↔ (W.has_failed writer.new ≡ true) }
    // After a read fault what is due of the bytes read was written, after a refusal of memory whole lines of that, and after a
    // write fault a beginning of it.
    ensures due { IsErrOf result ReportFault.Read → WroteDue (IsDue task.now) (S.remaining reader.old) (S.remaining reader.new) (W.contents writer.old) (W.contents writer.new) }
    ensures lines { IsErrOf result ReportFault.Memory → WroteLines (IsDue task.now) (S.remaining reader.old) (S.remaining reader.new) (W.contents writer.old) (W.contents writer.new) }
    ensures beginning { IsErrOf result ReportFault.Write → WroteInPart (DueOrWhole (IsDue task.now) (LinesOutput task.now)) (S.remaining reader.old) (S.remaining reader.new) (W.contents writer.old) (W.contents writer.new) }
    ensures uncut { IfErr result (λ fault. fault ≢ ReportFault.Pieces) }
{
    let mut lines = LineTeller::new(crew.alloc, task);
    let take = |lines: &mut LineTeller, slice: &[u8]| -> Result<(), AllocError>
        ensures { OnOk result ((bytes given : List ℕ) → HasTaken task.entry.now bytes given lines.old → HasTaken task.entry.now (bytes ++ slice.now) given lines.new) }
    { lines.take(crew, task, slice, piece) };
    report_by(
        crew.alloc,
        reader,
        writer,
        &mut (),
        task,
        &mut lines,
        room_for(crew),
        &take,
    )
}

/// Reads a JSON text sequence (RFC 7464) to the end of input. It writes the line of each element as soon as the record
/// separator after it is read, before the next read may wait, and that of the last one at the end. The status is good
/// where each is accepted.
///
/// The calling thread reads, whoever is in the crew. A written line is never taken back. One batch and no element is
/// kept; the names of the settings are ignored.
pub fn report_sequence<R: Threads + Wait + Sync, S: Source, W: Sink, G: Gate + Sync>(
    crew: &Crew<'_, R, G>,
    reader: &mut S,
    writer: &mut W,
    task: &ElementsTask,
) -> Result<Exit, ReportFault>
    requires reader { S.has_failed reader.old ≡ false }
    requires writer { W.has_failed writer.old ≡ false }
    // All that the reader had was read, and its whole output was written.
    ensures ok { IfOk result (λ exit. ReportsAll (ElementsOutput task.now) (S.remaining reader.old) (S.remaining reader.new) (W.contents writer.old) (W.contents writer.new) exit) }
    ensures read { IsErrOf result ReportFault.Read ↔ (S.has_failed reader.new ≡ true) }
    ensures write { IsErrOf result ReportFault.Write ↔ (W.has_failed writer.new ≡ true) }
    // After a read fault what is due of the bytes read was written, after a refusal of memory whole lines of that, and after a
    // write fault a beginning of it.
    ensures due { IsErrOf result ReportFault.Read → WroteDue (IsDueOfElements task.now) (S.remaining reader.old) (S.remaining reader.new) (W.contents writer.old) (W.contents writer.new) }
    ensures lines { IsErrOf result ReportFault.Memory → WroteLines (IsDueOfElements task.now) (S.remaining reader.old) (S.remaining reader.new) (W.contents writer.old) (W.contents writer.new) }
    ensures beginning { IsErrOf result ReportFault.Write → WroteInPart (DueOrWhole (IsDueOfElements task.now) (ElementsOutput task.now)) (S.remaining reader.old) (S.remaining reader.new) (W.contents writer.old) (W.contents writer.new) }
    ensures uncut { IfErr result (λ fault. fault ≢ ReportFault.Pieces) }
{
    let mut elements = ElementTeller::new(crew.alloc, task);
    let take = |elements: &mut ElementTeller, slice: &[u8]| -> Result<(), AllocError>
        ensures { OnOk result ((bytes given : List ℕ) → HasTakenElements task.entry.now bytes given elements.old → HasTakenElements task.entry.now (bytes ++ slice.now) given elements.new) }
    { take_by_steps(elements, task, slice) };
    report_by(
        crew.alloc,
        reader,
        writer,
        &mut (),
        task,
        &mut elements,
        STEP,
        &take,
    )
}
