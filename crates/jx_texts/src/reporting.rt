// The report on the texts of a stream.
ghost use Rattle.std.specs.Prelude.{◌≡◌, ◌≢◌, ◌↔◌, ◌++◌, ℕ, List, false, true, IfErr, IfOk, IsErrOf, OnOk};
ghost use Rattle.jx_drive.specs.Reports.{DueOrWhole, ReportsAll, WroteDue, WroteInPart, WroteLines};
ghost use Rattle.jx_texts.specs.Output.{IsDue, TextsOutput};
ghost use Rattle.jx_texts.specs.inside.TextTeller.{HasTaken};

use crate::task::TextsTask;
use crate::teller::TextTeller;
use jx_drive::{report_by, take_by_steps};
use jx_ends::{Exit, ReportFault, Sink, Source};
use std::alloc::{AllocError, Global};

/// How many bytes are read at a time.
const STEP: usize = 65536;

/// Reads JSON texts that stand one behind another (RFC 8259) to the end of input. It writes the line of each as soon as it
/// has ended, before the next read may wait, and that of the last one at the end. The status is good where each is accepted.
///
/// A text with a fault is the last one. A written line is never taken back. One read is kept at a time.
pub fn report_texts<S: Source, W: Sink>(
    alloc: Global,
    reader: &mut S,
    writer: &mut W,
    task: &TextsTask,
) -> Result<Exit, ReportFault>
    requires reader { S.has_failed reader.old ≡ false }
    requires writer { W.has_failed writer.old ≡ false }
    // All that the reader had was read, and its whole output was written.
    ensures ok { IfOk result (λ exit. ReportsAll (TextsOutput task.now) (S.remaining reader.old) (S.remaining reader.new) (W.contents writer.old) (W.contents writer.new) exit) }
    ensures read { IsErrOf result ReportFault.Read ↔ (S.has_failed reader.new ≡ true) }
    ensures write { IsErrOf result ReportFault.Write ↔ (W.has_failed writer.new ≡ true) }
    // After a read fault what is due of the bytes read was written, after a refusal of memory whole lines of that, and after a
    // write fault a beginning of it.
    ensures due { IsErrOf result ReportFault.Read → WroteDue (IsDue task.now) (S.remaining reader.old) (S.remaining reader.new) (W.contents writer.old) (W.contents writer.new) }
    ensures lines { IsErrOf result ReportFault.Memory → WroteLines (IsDue task.now) (S.remaining reader.old) (S.remaining reader.new) (W.contents writer.old) (W.contents writer.new) }
    ensures beginning { IsErrOf result ReportFault.Write → WroteInPart (DueOrWhole (IsDue task.now) (TextsOutput task.now)) (S.remaining reader.old) (S.remaining reader.new) (W.contents writer.old) (W.contents writer.new) }
    ensures uncut { IfErr result (λ fault. fault ≢ ReportFault.Pieces) }
{
    let mut texts = TextTeller::new(alloc, task);
    let take = |texts: &mut TextTeller, slice: &[u8]| -> Result<(), AllocError>
        ensures { OnOk result ((bytes given : List ℕ) → HasTaken task.entry.now bytes given texts.old → HasTaken task.entry.now (bytes ++ slice.now) given texts.new) }
    { take_by_steps(texts, task, slice) };
    report_by(
        alloc,
        reader,
        writer,
        &mut (),
        task,
        &mut texts,
        STEP,
        &take,
    )
}
