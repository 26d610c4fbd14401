// The values of lines are written while an input is read.
ghost use Rattle.std.specs.Prelude.{◌≡◌, ◌≢◌, ◌↔◌, ◌++◌, All, Bool, List, Option, ℕ, true, false, IfErr, IfOk, IsErrOf, OnOk};
ghost use Rattle.jx_drive.specs.Reports.{ReportsAll, WroteDue, WroteInPart, WroteLines};
ghost use Rattle.jx_index.specs.Pointers.{IsPointer};
ghost use Rattle.jx_line_values.specs.declared.task.LineValuesTask.{LineValuesTask};
ghost use Rattle.jx_line_values.specs.LineValues.{pointers_of};
ghost use Rattle.jx_line_values.specs.Reports.{ToldBegun, ToldDue, ToldOutput};
ghost use Rattle.jx_line_values.specs.inside.ValuesTeller.{HasTold};

use crate::task::LineValuesTask;
use crate::values_teller::ValuesTeller;
use jx_drive::report_by;
use jx_ends::{Exit, ReportFault, Sink, Source};
use std::alloc::{AllocError, Global};

/// How many bytes are read at a time, at most. So few values wait at once.
const STEP: usize = 64 * 1024;

/// Reads JSON Lines to the end of input, and writes a row for each line: the cells of the values that the pointers lead to in
/// its text (RFC 6901), in their order, by the form of the task. So row i of the output answers line i of the input. The word
/// of the task stands where a value is not there, and in each cell of a line that is no JSON text.
///
/// For each value that is not there, and each string that lacks a text that the form asks for, it reports
/// `line N: POINTER: ANSWER`, and of a line that is not valid JSON `line N: VERDICT`, with the line's number from 1. Offsets in
/// verdicts count from the line's first byte. A line of white space alone is reported as `blank`, or skipped in silence; a last
/// line that no line feed ends, and whose end shows only in what follows, as `may be cut`. The status is good where nothing is
/// reported.
///
/// The output for a batch is written, and then the messages, before the next read may wait, and never taken back. One batch and one
/// line are kept in memory. The names of the settings are ignored: objects may repeat them. Where a message cannot be written, no more are,
/// and the status is the same.
pub fn report_line_values<S: Source, W: Sink, E: Sink>(
    alloc: Global,
    reader: &mut S,
    writer: &mut W,
    errors: &mut E,
    task: &LineValuesTask,
) -> Result<Exit, ReportFault>
    requires pointers { All IsPointer (pointers_of task.now) }
    requires reader { S.has_failed reader.old ≡ false }
    requires writer { W.has_failed writer.old ≡ false }
    // All that the reader had was read, and its whole output was written and told.
    ensures ok { IfOk result (λ exit. ReportsAll (ToldOutput task.now (E.has_failed errors.new) (E.contents errors.old) (E.contents errors.new)) (S.remaining reader.old) (S.remaining reader.new) (W.contents writer.old) (W.contents writer.new) exit) }
    ensures read { IsErrOf result ReportFault.Read ↔ (S.has_failed reader.new ≡ true) }
    ensures write { IsErrOf result ReportFault.Write ↔ (W.has_failed writer.new ≡ true) }
    // After a read fault what is due of the bytes read was written and told, after a refusal of memory whole lines of that, and
    // after a write fault a beginning of it.
    ensures due { IsErrOf result ReportFault.Read → WroteDue (ToldDue task.now (E.has_failed errors.new) (E.contents errors.old) (E.contents errors.new)) (S.remaining reader.old) (S.remaining reader.new) (W.contents writer.old) (W.contents writer.new) }
    ensures lines { IsErrOf result ReportFault.Memory → WroteLines (ToldDue task.now (E.has_failed errors.new) (E.contents errors.old) (E.contents errors.new)) (S.remaining reader.old) (S.remaining reader.new) (W.contents writer.old) (W.contents writer.new) }
    ensures beginning { IsErrOf result ReportFault.Write → WroteInPart (ToldBegun task.now (E.has_failed errors.new) (E.contents errors.old) (E.contents errors.new)) (S.remaining reader.old) (S.remaining reader.new) (W.contents writer.old) (W.contents writer.new) }
    ensures uncut { IfErr result (λ fault. fault ≢ ReportFault.Pieces) }
{
    let mut teller = ValuesTeller::new(alloc, task)?;
    let take = |teller: &mut ValuesTeller<'_>, slice: &[u8]| -> Result<(), AllocError>
        ensures { OnOk result ((task : LineValuesTask) (is_lost : Bool) (told retold : Option (List ℕ)) (bytes given : List ℕ) → HasTold task is_lost told retold bytes given teller.old
            → HasTold task is_lost told retold (bytes ++ slice.now) given teller.new) }
    { teller.take(slice) };
    report_by(
        alloc,
        reader,
        writer,
        errors,
        task,
        &mut teller,
        STEP,
        &take,
    )
}
