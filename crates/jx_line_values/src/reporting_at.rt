// Reports on the values of lines of an input that workers read at offsets.
ghost use Rattle.std.specs.Prelude.{◌≡◌, ◌≢◌, ◌≤◌, ◌↔◌, All, false, true, IfErr, IfOk, IsErrOf};
ghost use Rattle.std.specs.Thread.{IsSend, IsSync};
ghost use Rattle.jx_index.specs.Pointers.{IsPointer};
ghost use Rattle.jx_drive_at.specs.ReportsAt.{FailsBy, ReportsAllAt, WroteDueAt, WroteInPartAt};
ghost use Rattle.jx_line_values.specs.LineValues.{pointers_of};
ghost use Rattle.jx_line_values.specs.Reports.{ToldBegun, ToldDue, ToldOutput};

use crate::rows_rule::RowsRule;
use crate::task::LineValuesTask;
use crate::values_teller::ValuesTeller;
use jx_crew::Workers;
use jx_drive_at::{ReportAtFault, report_by_rounds, step_of};
use jx_ends::{Exit, Sink};
use jx_parallel::SharedAt;
use std::alloc::Global;
use std::sync::Wait;
use std::thread::Threads;

/// Reads JSON Lines at offsets by workers to their end, and writes a row for each line and the messages, as
/// `report_line_values` does.
///
/// Workers and the calling thread go on in rounds, as `report_by_rounds` does, by chunks as `step_of` says. A worker makes the rows
/// of the lines between the first and the last line feed of a chunk. A line that has a message it keeps, and the calling thread
/// reads such a line, since a message names the line's number. Of a chunk in which more than one line in a KiB has a message,
/// or whose rows are much longer than its lines, nothing is kept: the calling thread reads it.
///
/// The output of a round is written, and then the messages, and never taken back. The names of the settings are ignored.
pub fn report_line_values_at<F: SharedAt + Sync, W: Sink, E: Sink + Send, R: Threads + Wait + Sync>(
    rt: &R,
    alloc: Global,
    file: &F,
    writer: &mut W,
    errors: &mut E,
    task: &LineValuesTask,
    workers: Workers,
    piece: usize,
) -> Result<Exit, ReportAtFault<F::Fault>>
    requires pointers { All IsPointer (pointers_of task.now) }
    requires writer { W.has_failed writer.old ≡ false }
    requires piece { 1 ≤ piece }
    // The whole output for the content was written and told.
    ensures ok { IfOk result (λ exit. ReportsAllAt (ToldOutput task.now (E.has_failed errors.new) (E.contents errors.old) (E.contents errors.new)) (F.content file.now) (W.contents writer.old) (W.contents writer.new) exit) }
    // A read fault has a reason that a read of the content may give.
    ensures read { IfErr result (FailsBy (F.may_fail file.now)) }
    ensures write { IsErrOf result ReportAtFault.Write ↔ (W.has_failed writer.new ≡ true) }
    // After any other fault what is due of a beginning of the content was written and told, and after a write fault a beginning of it.
    ensures due { IfErr result (λ fault. fault ≢ ReportAtFault.Write → WroteDueAt (ToldDue task.now (E.has_failed errors.new) (E.contents errors.old) (E.contents errors.new)) (F.content file.now) (W.contents writer.old) (W.contents writer.new)) }
    ensures beginning { IsErrOf result ReportAtFault.Write → WroteInPartAt (ToldBegun task.now (E.has_failed errors.new) (E.contents errors.old) (E.contents errors.new)) (F.content file.now) (W.contents writer.old) (W.contents writer.new) }
{
    let Ok(rule) = RowsRule::new(alloc, task) else {
        return Err(ReportAtFault::Memory);
    };
    let Ok(mut teller) = ValuesTeller::new(alloc, task) else {
        return Err(ReportAtFault::Memory);
    };
    let step = step_of(piece);
    report_by_rounds(
        rt,
        alloc,
        file,
        workers,
        step,
        &rule,
        writer,
        errors,
        task,
        &mut teller,
    )
}
