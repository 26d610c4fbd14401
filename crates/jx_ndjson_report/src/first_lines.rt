// The first lines that are bad are reported while an input is read, and then no more of it is read.
ghost use Rattle.std.specs.Prelude.{◌≡◌, ◌≢◌, ◌+◌, ◌<◌, ◌≤◌, ◌^◌, ◌↔◌, ◌++◌, ℕ, List, [], true, false, length, take, IfErr, IfOk, IsErrOf, OnOk};
ghost use Rattle.jx_drive.specs.Reports.{DueOrWhole, WroteDue, WroteInPart, WroteLines};
ghost use Rattle.jx_drive.specs.inside.Steps.{WritesPart};
ghost use Rattle.jx_ndjson_report.specs.First.{IsDueBelow, IsDueOfMost, IsFirstDue, OutputBelow, ReportsFirst};
ghost use Rattle.jx_ndjson_report.specs.inside.FirstSteps.{HasTakenBelow, HasTakenMost, IsAllFirstWritten, WritesFirst};
ghost use Rattle.jx_ndjson_report.specs.inside.LineTeller.{HasTaken};

use crate::line_teller::LineTeller;
use crate::reporting::STEP;
use crate::task::LinesTask;
use jx_drive::Reporter;
use jx_ends::{Exit, ReportFault, Sink, Source, write_whole};
use jx_ndjson::ended_lines_of_a_reader;
use std::alloc::{AllocError, Global};

/// Takes a slice up to and with the line feed behind the last one of so many bad lines, or all of it. Answers how many
/// bytes those are.
fn take_first(
    teller: &mut LineTeller,
    task: &LinesTask,
    most: usize,
    slice: &[u8],
) -> Result<usize, AllocError>
    requires fits { teller.old.lines.reader.start + teller.old.lines.reader.count + length slice.now < 2 ^ 64 }
    requires few { teller.old.bad ≤ most }
    ensures within { IfOk result (λ taken. taken ≤ length slice.now) }
    ensures taken { IfOk result (λ taken. (bytes given : List ℕ) → HasTaken task.now bytes given teller.old → HasTaken task.now (bytes ++ take taken slice.now) given teller.new) }
    ensures few { OnOk result (teller.new.bad ≤ most) }
    ensures all { IfOk result (λ taken. teller.new.bad < most → taken ≡ length slice.now) }
{
    let mut at = 0;
    while at < slice.len() && teller.bad() < most {
        at += teller.take_step(task, &slice[at..])?;
    }
    Ok(at)
}

/// Takes a batch after what was read, and writes what is due then. Answers whether so many lines are bad. It is also out
/// of memory where the last byte has no offset.
fn write_first<W: Sink>(
    writer: &mut W,
    task: &LinesTask,
    most: usize,
    teller: &mut LineTeller,
    batch: &[u8],
) -> Result<bool, ReportFault>
    requires writer { W.has_failed writer.old ≡ false }
    requires few { teller.old.bad < most }
    ensures below { IfOk result (λ is_full. is_full ≡ false → WritesFirst (HasTakenBelow task.now most) (HasTakenBelow task.now most) (W.contents writer.old) (W.contents writer.new) batch.now teller.old teller.new) }
    ensures full { IfOk result (λ is_full. is_full ≡ true → WritesFirst (HasTakenBelow task.now most) (HasTakenMost task.now most) (W.contents writer.old) (W.contents writer.new) batch.now teller.old teller.new) }
    ensures few { IfOk result (λ is_full. is_full ≡ false → teller.new.bad < most) }
    ensures going { OnOk result (W.has_failed writer.new ≡ false) }
    ensures write { IsErrOf result ReportFault.Write ↔ (W.has_failed writer.new ≡ true) }
    ensures beginning { IsErrOf result ReportFault.Write → WritesPart (HasTakenBelow task.now most) (DueOrWhole (IsFirstDue task.now most) (OutputBelow task.now most)) (W.contents writer.old) (W.contents writer.new) batch.now teller.old }
    ensures unwritten { IfErr result (λ fault. fault ≢ ReportFault.Write → writer.new ≡ writer.old) }
    ensures unread { IfErr result (λ fault. fault ≢ ReportFault.Read) }
    ensures uncut { IfErr result (λ fault. fault ≢ ReportFault.Pieces) }
{
    ended_lines_of_a_reader();
    if batch.len() > usize::MAX - teller.end() {
        return Err(ReportFault::Memory);
    }
    take_first(teller, task, most, batch)?;
    write_whole(writer, teller.ready())?;
    teller.clear();
    if teller.bad() < most {
        return Ok(false);
    }
    Ok(true)
}

/// Reads to the end of input, or until so many lines are bad, and writes what is due: what a read gives is taken before
/// the next one, which may wait. Answers whether so many are bad.
fn write_first_due<S: Source, W: Sink>(
    reader: &mut S,
    writer: &mut W,
    task: &LinesTask,
    most: usize,
    teller: &mut LineTeller,
    buffer: &mut [u8],
) -> Result<bool, ReportFault>
    requires reader { S.has_failed reader.old ≡ false }
    requires writer { W.has_failed writer.old ≡ false }
    requires room { 0 < length buffer.old }
    requires few { teller.old.bad < most }
    requires taken { HasTaken task.now [] [] teller.old }
    requires ready { teller.old.ready ≡ [] }
    ensures ended { IfOk result (λ is_full. is_full ≡ false → IsAllFirstWritten task.now most (S.remaining reader.old) (S.remaining reader.new) (W.contents writer.old) (W.contents writer.new) teller.new) }
    ensures full { IfOk result (λ is_full. is_full ≡ true → WroteDue (IsDueOfMost task.now most) (S.remaining reader.old) (S.remaining reader.new) (W.contents writer.old) (W.contents writer.new)) }
    ensures going { OnOk result ((S.has_failed reader.new ≡ false) × (W.has_failed writer.new ≡ false)) }
    ensures read { IsErrOf result ReportFault.Read ↔ (S.has_failed reader.new ≡ true) }
    ensures write { IsErrOf result ReportFault.Write ↔ (W.has_failed writer.new ≡ true) }
    ensures due { IsErrOf result ReportFault.Read → WroteDue (IsDueBelow task.now most) (S.remaining reader.old) (S.remaining reader.new) (W.contents writer.old) (W.contents writer.new) }
    ensures lines { IsErrOf result ReportFault.Memory → WroteLines (IsDueBelow task.now most) (S.remaining reader.old) (S.remaining reader.new) (W.contents writer.old) (W.contents writer.new) }
    ensures beginning { IsErrOf result ReportFault.Write → WroteInPart (DueOrWhole (IsFirstDue task.now most) (OutputBelow task.now most)) (S.remaining reader.old) (S.remaining reader.new) (W.contents writer.old) (W.contents writer.new) }
    ensures uncut { IfErr result (λ fault. fault ≢ ReportFault.Pieces) }
{
    ended_lines_of_a_reader();
    for _ in 0..u64::MAX {
        match reader.read(buffer) {
            Ok(0) => return Ok(false),
            Ok(count) => {
                if write_first(writer, task, most, teller, &buffer[..count])? {
                    return Ok(true);
                }
            }
            Err(_) => return Err(ReportFault::Read),
        }
    }
    Err(ReportFault::Memory)
}

/// Reads JSON Lines, and writes the report of `report_lines` until that has a line for so many that are not valid JSON. Then
/// it reads no more batches and writes no total, and the status is bad. Where a line feed ends fewer of them, it reads to the
/// end of input and writes the whole report.
///
/// What one read gives is reported before the next one, which may wait. The calling thread reads. A written line is never
/// taken back. One batch and no line is kept; the names of the settings are ignored.
pub fn report_first_lines<S: Source, W: Sink>(
    alloc: Global,
    reader: &mut S,
    writer: &mut W,
    task: &LinesTask,
    most: usize,
) -> Result<Exit, ReportFault>
    requires most { 1 ≤ most }
    requires reader { S.has_failed reader.old ≡ false }
    requires writer { W.has_failed writer.old ≡ false }
    // The whole report was written, or that on the first bad lines.
    ensures ok { IfOk result (λ exit. ReportsFirst task.now most (S.remaining reader.old) (S.remaining reader.new) (W.contents writer.old) (W.contents writer.new) exit) }
    ensures read { IsErrOf result ReportFault.Read ↔ (S.has_failed reader.new ≡ true) }
    ensures write { IsErrOf result ReportFault.Write ↔ (W.has_failed writer.new ≡ true) }
    // After a read fault what is due of the bytes read was written, after a refusal of memory whole lines of that, and after a
    // write fault a beginning of it.
    ensures due { IsErrOf result ReportFault.Read → WroteDue (IsDueBelow task.now most) (S.remaining reader.old) (S.remaining reader.new) (W.contents writer.old) (W.contents writer.new) }
    ensures lines { IsErrOf result ReportFault.Memory → WroteLines (IsDueBelow task.now most) (S.remaining reader.old) (S.remaining reader.new) (W.contents writer.old) (W.contents writer.new) }
    ensures beginning { IsErrOf result ReportFault.Write → WroteInPart (DueOrWhole (IsFirstDue task.now most) (OutputBelow task.now most)) (S.remaining reader.old) (S.remaining reader.new) (W.contents writer.old) (W.contents writer.new) }
    ensures uncut { IfErr result (λ fault. fault ≢ ReportFault.Pieces) }
{
    ended_lines_of_a_reader();
    let mut teller = LineTeller::new(alloc, task);
    let mut buffer: Vec<u8> = vec![in alloc; 0; STEP]?;
    if write_first_due(reader, writer, task, most, &mut teller, &mut buffer)? {
        return Ok(Exit::Bad);
    }
    let exit = teller.finish(task)?;
    write_whole(writer, teller.ready())?;
    Ok(exit)
}
