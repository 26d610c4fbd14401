// Writes the output that is due while an input is read.
ghost use Rattle.std.specs.Prelude.{◌≡◌, ◌≢◌, ◌<◌, ◌↔◌, ◌++◌, ℕ, List, [], true, false, length, IfErr, IfOk, IsErrOf, OnErr, OnOk};
ghost use Rattle.jx_drive.specs.Reports.{ReportsAll, WroteDue, WroteInPart, WroteLines};
ghost use Rattle.jx_drive.specs.inside.Steps.{IsAllWritten, WritesOn, WritesPart};

use crate::reporter::Reporter;
use jx_ends::{Exit, ReportFault, Sink, Source, write_whole};
use std::alloc::{AllocError, Global};

/// Takes a batch after what was read, and writes the output and the messages that are due then.
fn write_due<B, T: Reporter<B>, W: Sink, F: Fn(&mut T, &[u8]) -> Result<(), AllocError>>(
    writer: &mut W,
    beside: &mut B,
    task: &T::Task,
    reporter: &mut T,
    batch: &[u8],
    take: &F,
) -> Result<(), ReportFault>
    requires callable { F.IsAlwaysCallable take.now }
    requires takes { (was now : B) (bytes given : List ℕ) (old left : _) (slice : _) (taken : _) → F.post take.now old slice taken left → T.has_taken task.now was now bytes given old.now
        → OnOk taken (T.has_taken task.now was now (bytes ++ slice.now) given left.now) }
    requires writer { W.has_failed writer.old ≡ false }
    ensures ok { OnOk result ((was : B) → WritesOn (T.has_taken task.now was beside.old) (T.has_taken task.now was beside.new) T.ready T.told (W.contents writer.old) (W.contents writer.new) batch.now reporter.old reporter.new) }
    ensures going { OnOk result (W.has_failed writer.new ≡ false) }
    ensures write { IsErrOf result ReportFault.Write ↔ (W.has_failed writer.new ≡ true) }
    ensures beginning { IsErrOf result ReportFault.Write → (was : B) → WritesPart (T.has_taken task.now was beside.old) (T.is_begun task.now was beside.old) (W.contents writer.old) (W.contents writer.new) batch.now reporter.old }
    ensures unwritten { IfErr result (λ fault. fault ≢ ReportFault.Write → writer.new ≡ writer.old) }
    ensures untold { OnErr result (beside.new ≡ beside.old) }
    ensures unread { IfErr result (λ fault. fault ≢ ReportFault.Read) }
    ensures uncut { IfErr result (λ fault. fault ≢ ReportFault.Pieces) }
{
    T::what_waits_is_due();
    take(reporter, batch)?;
    write_whole(writer, reporter.ready())?;
    reporter.clear(beside);
    Ok(())
}

/// Reads to the end of input, and writes output and messages as they are due: what a read gives is taken before the next
/// one, which may wait.
fn write_all_due<
    B,
    T: Reporter<B>,
    S: Source,
    W: Sink,
    F: Fn(&mut T, &[u8]) -> Result<(), AllocError>,
>(
    reader: &mut S,
    writer: &mut W,
    beside: &mut B,
    task: &T::Task,
    reporter: &mut T,
    buffer: &mut [u8],
    take: &F,
) -> Result<(), ReportFault>
    requires callable { F.IsAlwaysCallable take.now }
    requires takes { (was now : B) (bytes given : List ℕ) (old left : _) (slice : _) (taken : _) → F.post take.now old slice taken left → T.has_taken task.now was now bytes given old.now
        → OnOk taken (T.has_taken task.now was now (bytes ++ slice.now) given left.now) }
    requires reader { S.has_failed reader.old ≡ false }
    requires writer { W.has_failed writer.old ≡ false }
    requires room { 0 < length buffer.old }
    requires taken { T.has_taken task.now beside.old beside.old [] [] reporter.old }
    requires ready { T.ready reporter.old ≡ [] }
    requires told { T.told reporter.old ≡ [] }
    ensures ok { OnOk result (IsAllWritten (T.has_taken task.now beside.old beside.new) T.ready T.told (S.remaining reader.old) (S.remaining reader.new) (W.contents writer.old) (W.contents writer.new) reporter.new) }
    ensures going { OnOk result ((S.has_failed reader.new ≡ false) × (W.has_failed writer.new ≡ false)) }
    ensures read { IsErrOf result ReportFault.Read ↔ (S.has_failed reader.new ≡ true) }
    ensures write { IsErrOf result ReportFault.Write ↔ (W.has_failed writer.new ≡ true) }
    ensures due { IsErrOf result ReportFault.Read → WroteDue (T.is_due task.now beside.old beside.new) (S.remaining reader.old) (S.remaining reader.new) (W.contents writer.old) (W.contents writer.new) }
    ensures lines { IsErrOf result ReportFault.Memory → WroteLines (T.is_due task.now beside.old beside.new) (S.remaining reader.old) (S.remaining reader.new) (W.contents writer.old) (W.contents writer.new) }
    ensures beginning { IsErrOf result ReportFault.Write → WroteInPart (T.is_begun task.now beside.old beside.new) (S.remaining reader.old) (S.remaining reader.new) (W.contents writer.old) (W.contents writer.new) }
    ensures uncut { IfErr result (λ fault. fault ≢ ReportFault.Pieces) }
{
    T::what_waits_is_due();
    for _ in 0..u64::MAX {
        match reader.read(buffer) {
            Ok(0) => return Ok(()),
            Ok(count) => write_due(writer, beside, task, reporter, &buffer[..count], take)?,
            Err(_) => return Err(ReportFault::Read),
        }
    }
    Err(ReportFault::Memory)
}

/// Reads to the end of input, and writes the report of a reporter that has taken no byte: what is due of each read before
/// the next one, and then the messages. At most so many bytes are read at a time, and as many are kept. `take` has the
/// reporter take a slice after all bytes that it has taken, and fails only when out of memory.
///
/// Bytes that were written are never taken back.
pub fn report_by<
    B,
    T: Reporter<B>,
    S: Source,
    W: Sink,
    F: Fn(&mut T, &[u8]) -> Result<(), AllocError>,
>(
    alloc: Global,
    reader: &mut S,
    writer: &mut W,
    beside: &mut B,
    task: &T::Task,
    reporter: &mut T,
    room: usize,
    take: &F,
) -> Result<Exit, ReportFault>
    requires callable { F.IsAlwaysCallable take.now }
    // A call that takes a slice says when it has.
    requires takes { (was now : B) (bytes given : List ℕ) (old left : _) (slice : _) (taken : _) → F.post take.now old slice taken left → T.has_taken task.now was now bytes given old.now
        → OnOk taken (T.has_taken task.now was now (bytes ++ slice.now) given left.now) }
    requires room { 0 < room }
    requires reader { S.has_failed reader.old ≡ false }
    requires writer { W.has_failed writer.old ≡ false }
    requires taken { T.has_taken task.now beside.old beside.old [] [] reporter.old }
    requires ready { T.ready reporter.old ≡ [] }
    requires told { T.told reporter.old ≡ [] }
    // All that the reader had was read, and its whole output was written.
    ensures ok { IfOk result (λ exit. ReportsAll (T.is_output task.now beside.old beside.new) (S.remaining reader.old) (S.remaining reader.new) (W.contents writer.old) (W.contents writer.new) exit) }
    ensures read { IsErrOf result ReportFault.Read ↔ (S.has_failed reader.new ≡ true) }
    ensures write { IsErrOf result ReportFault.Write ↔ (W.has_failed writer.new ≡ true) }
    // After a read fault what is due of the bytes read was written, after a refusal of memory that of a beginning of them, and
    // after a write fault a beginning of it.
    ensures due { IsErrOf result ReportFault.Read → WroteDue (T.is_due task.now beside.old beside.new) (S.remaining reader.old) (S.remaining reader.new) (W.contents writer.old) (W.contents writer.new) }
    ensures lines { IsErrOf result ReportFault.Memory → WroteLines (T.is_due task.now beside.old beside.new) (S.remaining reader.old) (S.remaining reader.new) (W.contents writer.old) (W.contents writer.new) }
    ensures beginning { IsErrOf result ReportFault.Write → WroteInPart (T.is_begun task.now beside.old beside.new) (S.remaining reader.old) (S.remaining reader.new) (W.contents writer.old) (W.contents writer.new) }
    ensures uncut { IfErr result (λ fault. fault ≢ ReportFault.Pieces) }
{
    T::what_waits_is_due();
    let mut buffer: Vec<u8> = vec![in alloc; 0; room]?;
    write_all_due(reader, writer, beside, task, reporter, &mut buffer, take)?;
    let exit = reporter.finish(task)?;
    write_whole(writer, reporter.ready())?;
    reporter.clear(beside);
    Ok(exit)
}
