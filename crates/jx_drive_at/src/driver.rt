// Writes the output that is due while workers judge parts of an input.
ghost use Rattle.std.specs.Prelude.{◌≡◌, ◌≢◌, ◌≤◌, ◌↔◌, ◌++◌, ℕ, List, Option, [], true, false, is_err, IfErr, IfOk, IsErrOf, OnErr, OnOk};
ghost use Rattle.std.specs.Io.KnownBytes.{Appends};
ghost use Rattle.std.specs.Thread.{IsSend, IsSync};
ghost use Rattle.jx_ends.specs.Ends.{AppendsBeginning};
ghost use Rattle.jx_drive_at.specs.ReportsAt.{FailsBy, ReadsOn, ReportsAllAt, WroteDueAt, WroteInPartAt};
ghost use Rattle.jx_drive_at.specs.inside.Rounds.{AfterFault, IsWrittenAt};

use crate::report_at_fault::ReportAtFault;
use crate::rounds::Rounds;
use jx_crew::Workers;
use jx_drive::Reporter;
use jx_ends::{Exit, ReportFault, Sink, write_whole};
use jx_parallel::{CheckFault, PartReader, SharedAt};
use std::alloc::Global;
use std::sync::Wait;
use std::thread::Threads;

/// Writes what waits, and then the messages, and lets both go.
fn write_waiting<B, T: Reporter<B>, W: Sink>(
    writer: &mut W,
    beside: &mut B,
    reporter: &mut T,
) -> Result<(), ReportFault>
    requires { W.has_failed writer.old ≡ false }
    ensures ok { OnOk result (Appends (W.contents writer.old) (W.contents writer.new) (T.ready reporter.old)) }
    ensures taken { OnOk result ((task : T.Task) (was : B) (bytes given : List ℕ) → T.has_taken task was beside.old bytes given reporter.old → T.has_taken task was beside.new bytes (given ++ T.ready reporter.old) reporter.new) }
    ensures ready { OnOk result (T.ready reporter.new ≡ []) }
    ensures told { OnOk result (T.told reporter.new ≡ []) }
    ensures err { OnErr result (AppendsBeginning (W.contents writer.old) (W.contents writer.new) (T.ready reporter.old)) }
    ensures untold { OnErr result (beside.new ≡ beside.old) }
    ensures failed { W.has_failed writer.new ≡ is_err result }
{
    match write_whole(writer, reporter.ready()) {
        Err(fault) => Err(fault),
        Ok(()) => {
            reporter.clear(beside);
            Ok(())
        }
    }
}

/// Lets the reporter go on by the next round, and writes what waits then. Answers whether more bytes follow. After a read fault it
/// writes what is due of the bytes before it.
fn report_round<
    B,
    F: SharedAt + Sync,
    T: Reporter<B> + PartReader + Send,
    W: Sink,
    R: Threads + Wait + Sync,
>(
    rounds: &mut Rounds<'_, R>,
    file: &F,
    rule: &T::Rule,
    writer: &mut W,
    beside: &mut B,
    task: &T::Task,
    reporter: &mut T,
) -> Result<bool, ReportAtFault<F::Fault>>
    requires reads { (was now : B) (bytes given : List ℕ) (old : T) → T.has_taken task.now was now bytes given old → ReadsOn (T.has_read rule.now) (λ xs. T.has_taken task.now was now xs given) bytes old }
    requires writer { W.has_failed writer.old ≡ false }
    ensures ok { IfOk result (λ more. (was : B) (written : Option (List ℕ)) → IsWrittenAt (T.has_taken task.now was beside.old) T.ready T.told (F.content file.now) true written (W.contents writer.old) reporter.old
        → IsWrittenAt (T.has_taken task.now was beside.new) T.ready T.told (F.content file.now) more written (W.contents writer.new) reporter.new) }
    ensures going { OnOk result (W.has_failed writer.new ≡ false) }
    ensures write { IsErrOf result ReportAtFault.Write ↔ (W.has_failed writer.new ≡ true) }
    ensures fault { IfErr result (λ fault. (was : B) (written : Option (List ℕ)) → IsWrittenAt (T.has_taken task.now was beside.old) T.ready T.told (F.content file.now) true written (W.contents writer.old) reporter.old
        → AfterFault (T.is_due task.now was beside.new) (T.is_begun task.now was beside.new) (F.content file.now) (F.may_fail file.now) written (W.contents writer.new) fault) }
{
    T::what_waits_is_due();
    match rounds.read(file, rule, reporter) {
        Ok(more) => {
            let _end = reporter.end();
            match write_waiting(writer, beside, reporter) {
                Ok(()) => Ok(more),
                Err(_) => Err(ReportAtFault::Write),
            }
        }
        Err(CheckFault::Memory) => Err(ReportAtFault::Memory),
        Err(CheckFault::Read(reason)) => match write_waiting(writer, beside, reporter) {
            Ok(()) => Err(ReportAtFault::Read(reason)),
            Err(_) => Err(ReportAtFault::Write),
        },
    }
}

/// Lets the reporter read to the end, by rounds, and writes what is due after each.
fn report_rounds<
    B,
    F: SharedAt + Sync,
    T: Reporter<B> + PartReader + Send,
    W: Sink,
    R: Threads + Wait + Sync,
>(
    rt: &R,
    rounds: &mut Rounds<'_, R>,
    file: &F,
    rule: &T::Rule,
    writer: &mut W,
    beside: &mut B,
    task: &T::Task,
    reporter: &mut T,
) -> Result<(), ReportAtFault<F::Fault>>
    requires reads { (was now : B) (bytes given : List ℕ) (old : T) → T.has_taken task.now was now bytes given old → ReadsOn (T.has_read rule.now) (λ xs. T.has_taken task.now was now xs given) bytes old }
    requires writer { W.has_failed writer.old ≡ false }
    requires begun { IsWrittenAt (T.has_taken task.now beside.old beside.old) T.ready T.told (F.content file.now) true (W.contents writer.old) (W.contents writer.old) reporter.old }
    ensures ok { OnOk result (IsWrittenAt (T.has_taken task.now beside.old beside.new) T.ready T.told (F.content file.now) false (W.contents writer.old) (W.contents writer.new) reporter.new) }
    ensures going { OnOk result (W.has_failed writer.new ≡ false) }
    ensures write { IsErrOf result ReportAtFault.Write ↔ (W.has_failed writer.new ≡ true) }
    ensures fault { IfErr result (AfterFault (T.is_due task.now beside.old beside.new) (T.is_begun task.now beside.old beside.new) (F.content file.now) (F.may_fail file.now) (W.contents writer.old) (W.contents writer.new)) }
{
    for _ in rt.forever() {
        match report_round(rounds, file, rule, writer, beside, task, reporter) {
            Ok(true) => {}
            Ok(false) => return Ok(()),
            Err(fault) => return Err(fault),
        }
    }
    unreachable!()
}

/// Writes the end of the output and the messages, where the content ends, and answers the exit.
fn write_end<B, T: Reporter<B>, W: Sink, E>(
    writer: &mut W,
    beside: &mut B,
    task: &T::Task,
    reporter: &mut T,
) -> Result<Exit, ReportAtFault<E>>
    requires { W.has_failed writer.old ≡ false }
    ensures ok { IfOk result (λ exit. (was : B) (known written : Option (List ℕ)) → IsWrittenAt (T.has_taken task.now was beside.old) T.ready T.told known false written (W.contents writer.old) reporter.old
        → ReportsAllAt (T.is_output task.now was beside.new) known written (W.contents writer.new) exit) }
    ensures write { IsErrOf result ReportAtFault.Write ↔ (W.has_failed writer.new ≡ true) }
    ensures fault { IfErr result (λ fault. (was : B) (known written : Option (List ℕ)) → IsWrittenAt (T.has_taken task.now was beside.old) T.ready T.told known false written (W.contents writer.old) reporter.old
        → AfterFault (T.is_due task.now was beside.new) (T.is_begun task.now was beside.new) known (λ _. ⊥) written (W.contents writer.new) fault) }
{
    T::what_waits_is_due();
    let Ok(exit) = reporter.finish(task) else {
        return Err(ReportAtFault::Memory);
    };
    match write_whole(writer, reporter.ready()) {
        Err(_) => Err(ReportAtFault::Write),
        Ok(()) => {
            reporter.clear(beside);
            Ok(exit)
        }
    }
}

/// Reports as `report_by_rounds` does.
fn report_of<
    B,
    F: SharedAt + Sync,
    T: Reporter<B> + PartReader + Send,
    W: Sink,
    R: Threads + Wait + Sync,
>(
    rt: &R,
    alloc: Global,
    file: &F,
    workers: Workers,
    step: usize,
    rule: &T::Rule,
    writer: &mut W,
    beside: &mut B,
    task: &T::Task,
    reporter: &mut T,
) -> Result<Exit, ReportAtFault<F::Fault>>
    requires reads { (was now : B) (bytes given : List ℕ) (old : T) → T.has_taken task.now was now bytes given old → ReadsOn (T.has_read rule.now) (λ xs. T.has_taken task.now was now xs given) bytes old }
    requires step { 1 ≤ step }
    requires writer { W.has_failed writer.old ≡ false }
    requires taken { T.has_taken task.now beside.old beside.old [] [] reporter.old }
    requires ready { T.ready reporter.old ≡ [] }
    requires told { T.told reporter.old ≡ [] }
    ensures ok { IfOk result (λ exit. ReportsAllAt (T.is_output task.now beside.old beside.new) (F.content file.now) (W.contents writer.old) (W.contents writer.new) exit) }
    ensures write { IsErrOf result ReportAtFault.Write ↔ (W.has_failed writer.new ≡ true) }
    ensures fault { IfErr result (AfterFault (T.is_due task.now beside.old beside.new) (T.is_begun task.now beside.old beside.new) (F.content file.now) (F.may_fail file.now) (W.contents writer.old) (W.contents writer.new)) }
{
    T::what_waits_is_due();
    let Ok(mut rounds) = Rounds::new(rt, alloc, workers, step) else {
        return Err(ReportAtFault::Memory);
    };
    match report_rounds(rt, &mut rounds, file, rule, writer, beside, task, reporter) {
        Ok(()) => write_end(writer, beside, task, reporter),
        Err(fault) => Err(fault),
    }
}

/// Reads bytes at offsets by workers to their end, and writes the report of a reporter that has taken no byte.
///
/// Workers and the calling thread go on in rounds. Each worker takes chunks of so many bytes, reads each at its offset, and
/// judges what it can of it by the rule. Then the reporter takes these parts in order, and reads the bytes between them, and what
/// is due is written, and then the messages. The first round has four chunks for each worker, and each other twice as many as
/// the one before, at most 64; fewer after one that the reporter ended since it was full.
///
/// Bytes that were written are never taken back.
pub fn report_by_rounds<
    B,
    F: SharedAt + Sync,
    T: Reporter<B> + PartReader + Send,
    W: Sink,
    R: Threads + Wait + Sync,
>(
    rt: &R,
    alloc: Global,
    file: &F,
    workers: Workers,
    step: usize,
    rule: &T::Rule,
    writer: &mut W,
    beside: &mut B,
    task: &T::Task,
    reporter: &mut T,
) -> Result<Exit, ReportAtFault<F::Fault>>
    // The reporter takes for this task all that it reads by this rule.
    requires reads { (was now : B) (bytes given : List ℕ) (old : T) → T.has_taken task.now was now bytes given old → ReadsOn (T.has_read rule.now) (λ xs. T.has_taken task.now was now xs given) bytes old }
    requires step { 1 ≤ step }
    requires writer { W.has_failed writer.old ≡ false }
    requires taken { T.has_taken task.now beside.old beside.old [] [] reporter.old }
    requires ready { T.ready reporter.old ≡ [] }
    requires told { T.told reporter.old ≡ [] }
    // For every number of workers, size of chunks and order of steps, the whole output for the content was written.
    ensures ok { IfOk result (λ exit. ReportsAllAt (T.is_output task.now beside.old beside.new) (F.content file.now) (W.contents writer.old) (W.contents writer.new) exit) }
    // A read fault has a reason that a read of the content may give.
    ensures read { IfErr result (FailsBy (F.may_fail file.now)) }
    ensures write { IsErrOf result ReportAtFault.Write ↔ (W.has_failed writer.new ≡ true) }
    // After any other fault what is due of a beginning of the content was written, and after a write fault a beginning of an output.
    ensures due { IfErr result (λ fault. fault ≢ ReportAtFault.Write → WroteDueAt (T.is_due task.now beside.old beside.new) (F.content file.now) (W.contents writer.old) (W.contents writer.new)) }
    ensures beginning { IsErrOf result ReportAtFault.Write → WroteInPartAt (T.is_begun task.now beside.old beside.new) (F.content file.now) (W.contents writer.old) (W.contents writer.new) }
{
    report_of(
        rt, alloc, file, workers, step, rule, writer, beside, task, reporter,
    )
}
