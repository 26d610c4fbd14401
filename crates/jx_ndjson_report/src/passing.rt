// Accepted lines pass through while an input is read, beside a report on the others.
ghost use Rattle.std.specs.Prelude.{◌≡◌, ◌≢◌, ◌<◌, ◌↔◌, ◌||◌, [], true, false, is_err, length, IfErr, IfOk, IsErrOf, OnErr, OnOk};
ghost use Rattle.std.specs.Io.KnownBytes.{Appends};
ghost use Rattle.jx_ndjson_report.specs.PassReports.{AppendsInPart, PassedDue, PassedInPart, PassedLines, PassesAll};
ghost use Rattle.jx_ndjson_report.specs.inside.LinePasser.{HasPassed};
ghost use Rattle.jx_ndjson_report.specs.inside.PassSteps.{IsAllPassed, PassesOn, PassesPart};

use crate::line_passer::LinePasser;
use crate::reporting::STEP;
use crate::task::LinesTask;
use jx_ends::{Exit, ReportFault, Sink, Source, write_whole};
use jx_ndjson::ended_lines_of_a_reader;
use std::alloc::Global;

/// Writes what passes, and then the report on what does not.
fn write_both<W: Sink, E: Sink>(
    writer: &mut W,
    report: &mut E,
    passed: &[u8],
    told: &[u8],
) -> Result<(), ReportFault>
    requires writer { W.has_failed writer.old ≡ false }
    requires report { E.has_failed report.old ≡ false }
    ensures passed { OnOk result (Appends (W.contents writer.old) (W.contents writer.new) passed.now) }
    ensures told { OnOk result (Appends (E.contents report.old) (E.contents report.new) told.now) }
    ensures part { OnErr result (AppendsInPart (W.contents writer.old) (W.contents writer.new) (E.contents report.old) (E.contents report.new) passed.now told.now) }
    ensures fault { IfErr result (λ fault. fault ≡ ReportFault.Write) }
    ensures going { OnOk result ((W.has_failed writer.new ≡ false) × (E.has_failed report.new ≡ false)) }
    ensures failed { (W.has_failed writer.new || E.has_failed report.new) ≡ is_err result }
{
    write_whole(writer, passed)?;
    write_whole(report, told)
}

/// Takes a batch after what was read, and writes what is due then. It is also out of memory where the last byte has no
/// offset.
fn write_due<W: Sink, E: Sink>(
    writer: &mut W,
    report: &mut E,
    task: &LinesTask,
    passer: &mut LinePasser,
    batch: &[u8],
) -> Result<(), ReportFault>
    requires writer { W.has_failed writer.old ≡ false }
    requires report { E.has_failed report.old ≡ false }
    ensures ok { OnOk result (PassesOn task.now (W.contents writer.old) (W.contents writer.new) (E.contents report.old) (E.contents report.new) batch.now passer.old passer.new) }
    ensures going { OnOk result ((W.has_failed writer.new ≡ false) × (E.has_failed report.new ≡ false)) }
    ensures write { IsErrOf result ReportFault.Write ↔ ((W.has_failed writer.new || E.has_failed report.new) ≡ true) }
    ensures beginning { IsErrOf result ReportFault.Write → PassesPart task.now (W.contents writer.old) (W.contents writer.new) (E.contents report.old) (E.contents report.new) batch.now passer.old }
    ensures unwritten { IfErr result (λ fault. fault ≢ ReportFault.Write → writer.new ≡ writer.old) }
    ensures untold { IfErr result (λ fault. fault ≢ ReportFault.Write → report.new ≡ report.old) }
    ensures unread { IfErr result (λ fault. fault ≢ ReportFault.Read) }
    ensures uncut { IfErr result (λ fault. fault ≢ ReportFault.Pieces) }
{
    ended_lines_of_a_reader();
    if batch.len() > usize::MAX - passer.end() {
        return Err(ReportFault::Memory);
    }
    passer.feed(task, batch)?;
    write_both(writer, report, passer.ready(), passer.told())?;
    passer.clear();
    Ok(())
}

/// Reads to the end of input, and writes what is due: what a read gives is taken before the next one, which may wait.
fn write_all_due<S: Source, W: Sink, E: Sink>(
    reader: &mut S,
    writer: &mut W,
    report: &mut E,
    task: &LinesTask,
    passer: &mut LinePasser,
    buffer: &mut [u8],
) -> Result<(), ReportFault>
    requires reader { S.has_failed reader.old ≡ false }
    requires writer { W.has_failed writer.old ≡ false }
    requires report { E.has_failed report.old ≡ false }
    requires room { 0 < length buffer.old }
    requires taken { HasPassed task.now [] [] [] passer.old }
    requires ready { passer.old.ready ≡ [] }
    requires told { passer.old.teller.ready ≡ [] }
    ensures ok { OnOk result (IsAllPassed task.now (S.remaining reader.old) (S.remaining reader.new) (W.contents writer.old) (W.contents writer.new) (E.contents report.old) (E.contents report.new) passer.new) }
    ensures going { OnOk result ((S.has_failed reader.new ≡ false) × (W.has_failed writer.new ≡ false) × (E.has_failed report.new ≡ false)) }
    ensures read { IsErrOf result ReportFault.Read ↔ (S.has_failed reader.new ≡ true) }
    ensures write { IsErrOf result ReportFault.Write ↔ ((W.has_failed writer.new || E.has_failed report.new) ≡ true) }
    ensures due { IsErrOf result ReportFault.Read → PassedDue task.now (S.remaining reader.old) (S.remaining reader.new) (W.contents writer.old) (W.contents writer.new) (E.contents report.old) (E.contents report.new) }
    ensures lines { IsErrOf result ReportFault.Memory → PassedLines task.now (S.remaining reader.old) (S.remaining reader.new) (W.contents writer.old) (W.contents writer.new) (E.contents report.old) (E.contents report.new) }
    ensures beginning { IsErrOf result ReportFault.Write → PassedInPart task.now (S.remaining reader.old) (S.remaining reader.new) (W.contents writer.old) (W.contents writer.new) (E.contents report.old) (E.contents report.new) }
    ensures uncut { IfErr result (λ fault. fault ≢ ReportFault.Pieces) }
{
    ended_lines_of_a_reader();
    for _ in 0..u64::MAX {
        match reader.read(buffer) {
            Ok(0) => return Ok(()),
            Ok(count) => write_due(writer, report, task, passer, &buffer[..count])?,
            Err(_) => return Err(ReportFault::Read),
        }
    }
    Err(ReportFault::Memory)
}

/// Reads JSON Lines to the end of input, and writes each line that is valid JSON as it stands there, with the line feed that
/// ends it. To the report it writes, for each other line, its number, its span and its verdict, and at the end how many lines
/// are valid and how many are not. The status is good where none is reported.
///
/// Both are written once a read gave the end of the line, before the next read may wait. The lines of one read are
/// written first. One read and one line are kept in memory. The calling thread reads. The names of the settings are ignored.
///
/// A last line without a line feed passes without one, unless its value may have been cut. An empty line never passes, nor
/// does a byte order mark in front that is ignored.
pub fn pass_lines<S: Source, W: Sink, E: Sink>(
    alloc: Global,
    reader: &mut S,
    writer: &mut W,
    report: &mut E,
    task: &LinesTask,
) -> Result<Exit, ReportFault>
    requires reader { S.has_failed reader.old ≡ false }
    requires writer { W.has_failed writer.old ≡ false }
    requires report { E.has_failed report.old ≡ false }
    // All that the reader had was read; all that passes of it was written, and the whole report.
    ensures ok { IfOk result (λ exit. PassesAll task.now (S.remaining reader.old) (S.remaining reader.new) (W.contents writer.old) (W.contents writer.new) (E.contents report.old) (E.contents report.new) exit) }
    ensures read { IsErrOf result ReportFault.Read ↔ (S.has_failed reader.new ≡ true) }
    ensures write { IsErrOf result ReportFault.Write ↔ ((W.has_failed writer.new || E.has_failed report.new) ≡ true) }
    // After a read fault what is due of the bytes read was written, after a refusal of memory that of whole lines, and after
    // a write fault a beginning of it.
    ensures due { IsErrOf result ReportFault.Read → PassedDue task.now (S.remaining reader.old) (S.remaining reader.new) (W.contents writer.old) (W.contents writer.new) (E.contents report.old) (E.contents report.new) }
    ensures lines { IsErrOf result ReportFault.Memory → PassedLines task.now (S.remaining reader.old) (S.remaining reader.new) (W.contents writer.old) (W.contents writer.new) (E.contents report.old) (E.contents report.new) }
    ensures beginning { IsErrOf result ReportFault.Write → PassedInPart task.now (S.remaining reader.old) (S.remaining reader.new) (W.contents writer.old) (W.contents writer.new) (E.contents report.old) (E.contents report.new) }
    ensures uncut { IfErr result (λ fault. fault ≢ ReportFault.Pieces) }
{
    ended_lines_of_a_reader();
    let mut passer = LinePasser::new(alloc, task);
    let mut buffer: Vec<u8> = vec![in alloc; 0; STEP]?;
    write_all_due(reader, writer, report, task, &mut passer, &mut buffer)?;
    let exit = passer.finish(task)?;
    write_both(writer, report, passer.ready(), passer.told())?;
    Ok(exit)
}
