// The report on JSON Lines of which workers judge parts.
ghost use Rattle.std.specs.Prelude.{◌≡◌, ◌≢◌, ◌<◌, ◌≤◌, ◌↔◌, ◌+◌, [], List, ℕ, Option, true, false, length, IfErr, IfOk, IsErrOf, OnOk};
ghost use Rattle.std.specs.Thread.{IsSend, IsSync};
ghost use Rattle.jx_ndjson_report.specs.Output.{bad_lines};
ghost use Rattle.jx_parallel.specs.declared.part_reader.PartRule.{PartRule};
ghost use Rattle.jx_parallel.specs.Offsets.{EndsBefore};
ghost use Rattle.jx_parallel_report.specs.LinesAt.{ReportsLines, WroteLines, WroteLinesInPart};
ghost use Rattle.jx_drive_at.specs.ReportsAt.{FailsBy};
ghost use Rattle.jx_parallel_report.specs.inside.Lines.{AfterFault, IsTold};

use crate::lines_reader::{Asked, LinesReader};
use crate::lines_words::{told_at_end, words_of};
use jx_crew::Workers;
use jx_drive_at::{ReportAtFault, step_of};
use jx_ends::{Exit, Sink, write_whole};
use jx_ndjson::ended_lines_of_a_reader;
use jx_ndjson_report::LinesTask;
use jx_parallel::{CheckFault, PartReader, PartRule, SharedAt, read_round};
use std::alloc::Global;
use std::marker::Brand;
use std::sync::Wait;
use std::thread::Threads;

/// How many chunks each worker has in the first round, in the mean. A round has twice as many as the one before.
const FIRST: usize = 4;

/// How many chunks a round has at most. Their lines that are not valid JSON are kept at once.
const MOST: usize = 64;

/// The number of chunks of the next round.
fn next_count(count: usize, is_full: bool) -> usize
    requires { count ≤ 64 }
    ensures { result ≤ 64 }
{
    if is_full {
        count / 2 + 1
    } else {
        count.saturating_mul(2).min(MOST)
    }
}

/// Writes the lines that wait, and lets them go.
fn write_waiting<K: Asked, W: Sink, E>(
    alloc: Global,
    writer: &mut W,
    task: &LinesTask,
    reader: &mut LinesReader<K>,
) -> Result<(), ReportAtFault<E>>
    requires writer { W.has_failed writer.old ≡ false }
    requires settings { K.settings ≡ task.now.settings }
    requires told { K.told ≡ bad_lines task.now }
    ensures told { OnOk result ((rule : PartRule) (known written : Option (List ℕ)) → IsTold K.settings K.told rule known written (W.contents writer.old) reader.old.tally
        → IsTold K.settings K.told rule known written (W.contents writer.new) reader.new.tally) }
    ensures none_wait { OnOk result (reader.new.tally.waiting ≡ []) }
    ensures lines { OnOk result (reader.new.tally.lines ≡ reader.old.tally.lines) }
    ensures going { OnOk result (W.has_failed writer.new ≡ false) }
    ensures write { IsErrOf result ReportAtFault.Write ↔ (W.has_failed writer.new ≡ true) }
    ensures fault { IfErr result (λ fault. (rule : PartRule) (known written : Option (List ℕ)) → WroteLines task.now known written (W.contents writer.old)
        → IsTold K.settings K.told rule known written (W.contents writer.old) reader.old.tally → AfterFault task.now known (λ _. ⊥) written (W.contents writer.new) fault) }
{
    ended_lines_of_a_reader();
    let words = words_of(alloc, task, reader.waiting())?;
    match write_whole(writer, &words) {
        Err(_) => Err(ReportAtFault::Write),
        Ok(()) => {
            reader.clear_waiting();
            Ok(())
        }
    }
}

/// Writes the lines that wait where a read failed for a reason, and answers the fault.
fn stop<K: Asked, W: Sink, E: Drop>(
    alloc: Global,
    writer: &mut W,
    task: &LinesTask,
    reader: &mut LinesReader<K>,
    reason: E,
) -> ReportAtFault<E>
    requires writer { W.has_failed writer.old ≡ false }
    requires settings { K.settings ≡ task.now.settings }
    requires told { K.told ≡ bad_lines task.now }
    ensures write { (result ≡ ReportAtFault.Write) ↔ (W.has_failed writer.new ≡ true) }
    ensures fault { (rule : PartRule) (known written : Option (List ℕ)) → WroteLines task.now known written (W.contents writer.old)
        → IsTold K.settings K.told rule known written (W.contents writer.old) reader.old.tally → AfterFault task.now known (λ why. why ≡ reason) written (W.contents writer.new) result }
{
    ended_lines_of_a_reader();
    match write_waiting(alloc, writer, task, reader) {
        Ok(()) => ReportAtFault::Read(reason),
        Err(fault) => fault,
    }
}

/// Lets the reader go on by a round of at most so many chunks, and writes the lines that wait then. Answers whether more bytes
/// follow, and sets how many chunks the next round has. After a read fault it writes the lines before it.
fn tell_round<F: SharedAt + Sync, K: Asked + Send, W: Sink, R: Threads + Wait + Sync>(
    rt: &R,
    alloc: Global,
    file: &F,
    workers: Workers,
    buffer: &mut [u8],
    count: &mut usize,
    rule: &PartRule,
    writer: &mut W,
    task: &LinesTask,
    reader: &mut LinesReader<K>,
) -> Result<bool, ReportAtFault<F::Fault>>
    requires room { 0 < length buffer.old }
    requires round { count.old ≤ 64 }
    requires writer { W.has_failed writer.old ≡ false }
    requires settings { K.settings ≡ task.now.settings }
    requires told { K.told ≡ bad_lines task.now }
    requires none_wait { reader.old.tally.waiting ≡ [] }
    ensures length { length buffer.new ≡ length buffer.old }
    ensures round { count.new ≤ 64 }
    ensures told { OnOk result ((written : Option (List ℕ)) → IsTold K.settings K.told rule.now (F.content file.now) written (W.contents writer.old) reader.old.tally
        → IsTold K.settings K.told rule.now (F.content file.now) written (W.contents writer.new) reader.new.tally) }
    ensures none_wait { OnOk result (reader.new.tally.waiting ≡ []) }
    ensures end { IfOk result (λ more. more ≡ false → EndsBefore (F.content file.now) (reader.new.tally.lines.reader.start + reader.new.tally.lines.reader.count)) }
    ensures going { OnOk result (W.has_failed writer.new ≡ false) }
    ensures write { IsErrOf result ReportAtFault.Write ↔ (W.has_failed writer.new ≡ true) }
    ensures fault { IfErr result (λ fault. (written : Option (List ℕ)) → IsTold K.settings K.told rule.now (F.content file.now) written (W.contents writer.old) reader.old.tally
        → AfterFault task.now (F.content file.now) (F.may_fail file.now) written (W.contents writer.new) fault) }
{
    ended_lines_of_a_reader();
    match read_round(rt, alloc, file, workers, buffer, *count, rule, reader) {
        Ok(more) => {
            *count = next_count(*count, reader.is_full());
            write_waiting(alloc, writer, task, reader)?;
            Ok(more)
        }
        Err(CheckFault::Memory) => Err(ReportAtFault::Memory),
        Err(CheckFault::Read(reason)) => Err(stop(alloc, writer, task, reader, reason)),
    }
}

/// Lets the reader read to the end, by rounds, and writes what is due after each.
fn tell_rounds<F: SharedAt + Sync, K: Asked + Send, W: Sink, R: Threads + Wait + Sync>(
    rt: &R,
    alloc: Global,
    file: &F,
    workers: Workers,
    buffer: &mut [u8],
    rule: &PartRule,
    writer: &mut W,
    task: &LinesTask,
    reader: &mut LinesReader<K>,
) -> Result<(), ReportAtFault<F::Fault>>
    requires room { 0 < length buffer.old }
    requires writer { W.has_failed writer.old ≡ false }
    requires settings { K.settings ≡ task.now.settings }
    requires told { K.told ≡ bad_lines task.now }
    requires none_wait { reader.old.tally.waiting ≡ [] }
    requires begun { IsTold K.settings K.told rule.now (F.content file.now) (W.contents writer.old) (W.contents writer.old) reader.old.tally }
    ensures told { OnOk result (IsTold K.settings K.told rule.now (F.content file.now) (W.contents writer.old) (W.contents writer.new) reader.new.tally) }
    ensures none_wait { OnOk result (reader.new.tally.waiting ≡ []) }
    ensures end { OnOk result (EndsBefore (F.content file.now) (reader.new.tally.lines.reader.start + reader.new.tally.lines.reader.count)) }
    ensures going { OnOk result (W.has_failed writer.new ≡ false) }
    ensures write { IsErrOf result ReportAtFault.Write ↔ (W.has_failed writer.new ≡ true) }
    ensures fault { IfErr result (AfterFault task.now (F.content file.now) (F.may_fail file.now) (W.contents writer.old) (W.contents writer.new)) }
{
    let mut count = FIRST.saturating_mul(workers.count() as usize).min(MOST);
    for _ in rt.forever() {
        let more = tell_round(
            rt, alloc, file, workers, buffer, &mut count, rule, writer, task, reader,
        )?;
        if !more {
            return Ok(());
        }
    }
    unreachable!()
}

/// Writes the end of the output, where the content ends, and answers the exit.
fn write_end<K: Asked, W: Sink, E>(
    alloc: Global,
    writer: &mut W,
    task: &LinesTask,
    reader: &LinesReader<K>,
) -> Result<Exit, ReportAtFault<E>>
    requires writer { W.has_failed writer.old ≡ false }
    requires settings { K.settings ≡ task.now.settings }
    requires told { K.told ≡ bad_lines task.now }
    requires none_wait { reader.now.tally.waiting ≡ [] }
    ensures ok { IfOk result (λ exit. (rule : PartRule) (known written : Option (List ℕ)) → IsTold K.settings K.told rule known written (W.contents writer.old) reader.now.tally
        → EndsBefore known (reader.now.tally.lines.reader.start + reader.now.tally.lines.reader.count) → ReportsLines task.now known written (W.contents writer.new) exit) }
    ensures write { IsErrOf result ReportAtFault.Write ↔ (W.has_failed writer.new ≡ true) }
    ensures fault { IfErr result (λ fault. (rule : PartRule) (known written : Option (List ℕ)) → IsTold K.settings K.told rule known written (W.contents writer.old) reader.now.tally
        → EndsBefore known (reader.now.tally.lines.reader.start + reader.now.tally.lines.reader.count) → AfterFault task.now known (λ _. ⊥) written (W.contents writer.new) fault) }
{
    ended_lines_of_a_reader();
    let end = reader.told_at_end();
    let told = told_at_end(alloc, task, &end)?;
    match write_whole(writer, &told.words) {
        Ok(()) => Ok(told.exit),
        Err(_) => Err(ReportAtFault::Write),
    }
}

/// Reports as `report_lines_at` does, by the telling that `K` names.
fn report_lines_of<F: SharedAt + Sync, K: Asked + Send, W: Sink, R: Threads + Wait + Sync>(
    rt: &R,
    alloc: Global,
    file: &F,
    writer: &mut W,
    task: &LinesTask,
    workers: Workers,
    piece: usize,
) -> Result<Exit, ReportAtFault<F::Fault>>
    requires writer { W.has_failed writer.old ≡ false }
    requires piece { 1 ≤ piece }
    requires settings { K.settings ≡ task.now.settings }
    requires told { K.told ≡ bad_lines task.now }
    ensures ok { IfOk result (λ exit. ReportsLines task.now (F.content file.now) (W.contents writer.old) (W.contents writer.new) exit) }
    ensures write { IsErrOf result ReportAtFault.Write ↔ (W.has_failed writer.new ≡ true) }
    ensures fault { IfErr result (AfterFault task.now (F.content file.now) (F.may_fail file.now) (W.contents writer.old) (W.contents writer.new)) }
{
    ended_lines_of_a_reader();
    let rule = PartRule {
        depth: task.settings.depth,
        is_quiet: task.is_quiet,
    };
    let mut reader = LinesReader::<K>::new(alloc, &rule, &task.settings);
    let mut buffer = Vec::new(alloc);
    if buffer.resize(step_of(piece), 0u8).is_err() {
        return Err(ReportAtFault::Memory);
    }
    let slice = buffer.as_mut_slice();
    tell_rounds(
        rt,
        alloc,
        file,
        workers,
        slice,
        &rule,
        writer,
        task,
        &mut reader,
    )?;
    write_end(alloc, writer, task, &reader)
}

/// Reads JSON Lines at offsets by workers to their end, and reports the lines that are not valid JSON, and the total, as
/// `report_lines` does.
///
/// Workers and the calling thread go on in rounds. Each worker takes chunks of as many bytes as `report_at` reads at a time, reads
/// each at its offset, and judges the lines between its first and its last line feed. Then the calling thread takes these in order,
/// reads the bytes between them, and writes what is due. The first round has four chunks for each worker, and each other
/// twice as many as the one before, at most 64.
///
/// Of a chunk in which more than one line in 64 bytes is not valid JSON, no line is kept: the calling thread reads it.
/// A written line is never taken back. The names of the settings are ignored.
pub fn report_lines_at<F: SharedAt + Sync, W: Sink, R: Threads + Wait + Sync>(
    rt: &R,
    alloc: Global,
    file: &F,
    writer: &mut W,
    task: &LinesTask,
    workers: Workers,
    piece: usize,
) -> Result<Exit, ReportAtFault<F::Fault>>
    requires writer { W.has_failed writer.old ≡ false }
    requires piece { 1 ≤ piece }
    // The whole output for the content was written.
    ensures ok { IfOk result (λ exit. ReportsLines task.now (F.content file.now) (W.contents writer.old) (W.contents writer.new) exit) }
    // A read fault has a reason that a read of the content may give.
    ensures read { IfErr result (FailsBy (F.may_fail file.now)) }
    ensures write { IsErrOf result ReportAtFault.Write ↔ (W.has_failed writer.new ≡ true) }
    // After any other fault what is due of a beginning of the content was written.
    ensures due { IfErr result (λ fault. fault ≢ ReportAtFault.Write → WroteLines task.now (F.content file.now) (W.contents writer.old) (W.contents writer.new)) }
    // After a write fault a beginning of that, or of the whole output, was written.
    ensures beginning { IsErrOf result ReportAtFault.Write → WroteLinesInPart task.now (F.content file.now) (W.contents writer.old) (W.contents writer.new) }
{
    report_lines_of::<F, Brand, W, R>(rt, alloc, file, writer, task, workers, piece)
}
