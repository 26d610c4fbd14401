ghost use Rattle.std.specs.Prelude.{◌≡◌, ◌≢◌, ◌≤◌, ◌↔◌, ℕ, List, true, false, IfOk, IfErr, IsErrOf};
ghost use Rattle.std.specs.Io.KnownBytes.{Appends};
ghost use Rattle.std.specs.Thread.{IsSend, IsSync};
ghost use Rattle.jx_ends.specs.Ends.{AppendsBeginning};
ghost use Rattle.jx_run.specs.declared.texts.settings.NameRule.TheVariants.{Any};
ghost use Rattle.jx_task.specs.declared.task.Task.TheVariants.{Check};
ghost use Rattle.jx_words.specs.Verdicts.{ByVerdict, SaysAccepted, shown_output};
ghost use Rattle.jx_drive_at.specs.ReportsAt.{FailsBy};
ghost use Rattle.jx_parallel_report.specs.ReportsAt.{IsShared, ReportsAt, ReportsAtInPart};

use crate::elements_report::report_elements;
use jx_answer::verdict_without_a_rule_on_names;
use jx_drive_at::{ReportAtFault, step_of};
use jx_ends::{Exit, ReportFault, Sink};
use jx_parallel::{CheckFault, SharedAt, check_at};
use jx_run::{FrontMark, NameRule, Verdict};
use jx_task::{Command, Task};
use jx_words::write_verdict;
use std::alloc::Global;
use std::sync::Wait;
use std::thread::Threads;

/// Whether `report_at` answers a command by several workers: objects may have any names, and it asks for the verdict on a text,
/// or for those on the elements of a sequence before which no byte order mark is ignored.
pub fn is_shared(command: &Command) -> bool
    ensures { result ≡ true → IsShared command.now }
{
    match (&command.task, command.settings.names, command.settings.mark) {
        (Task::Check, NameRule::Any, _) => command.workers.count() > 1,
        (Task::Seq, NameRule::Any, FrontMark::Refused) => command.workers.count() > 1,
        _ => false,
    }
}

/// Writes the line of a verdict, or nothing where it is quiet, and answers the exit.
fn show<W: Sink, E>(
    alloc: Global,
    writer: &mut W,
    verdict: Verdict,
    quiet: bool,
) -> Result<Exit, ReportAtFault<E>>
    requires { W.has_failed writer.old ≡ false }
    ensures ok { IfOk result (λ exit. (output : List ℕ) × (ByVerdict SaysAccepted verdict output exit
        × Appends (W.contents writer.old) (W.contents writer.new) (shown_output quiet output))) }
    ensures write { IsErrOf result ReportAtFault.Write ↔ (W.has_failed writer.new ≡ true) }
    ensures beginning { IsErrOf result ReportAtFault.Write → (exit : Exit) × ((output : List ℕ) × (ByVerdict SaysAccepted verdict output exit
        × AppendsBeginning (W.contents writer.old) (W.contents writer.new) (shown_output quiet output))) }
    ensures unwritten { IfErr result (λ fault. fault ≢ ReportAtFault.Write → writer.new ≡ writer.old) }
    ensures unread { IfErr result (FailsBy (λ _. ⊥)) }
{
    match write_verdict(alloc, writer, verdict, quiet) {
        Ok(exit) => Ok(exit),
        Err(ReportFault::Write) => Err(ReportAtFault::Write),
        Err(_) => Err(ReportAtFault::Memory),
    }
}

/// Reports the verdict on a text.
fn report_verdict<F: SharedAt + Sync, W: Sink, R: Threads + Wait + Sync>(
    rt: &R,
    alloc: Global,
    file: &F,
    writer: &mut W,
    command: &Command,
) -> Result<Exit, ReportAtFault<F::Fault>>
    requires writer { W.has_failed writer.old ≡ false }
    requires piece { 1 ≤ command.now.piece }
    requires task { command.now.task ≡ Check }
    requires names { command.now.settings.names ≡ Any }
    ensures ok { IfOk result (λ exit. ReportsAt command.now (F.content file.now) (W.contents writer.old) (W.contents writer.new) exit) }
    ensures read { IfErr result (FailsBy (F.may_fail file.now)) }
    ensures write { IsErrOf result ReportAtFault.Write ↔ (W.has_failed writer.new ≡ true) }
    ensures unwritten { IfErr result (λ fault. fault ≢ ReportAtFault.Write → writer.new ≡ writer.old) }
    ensures beginning { IsErrOf result ReportAtFault.Write → ReportsAtInPart command.now (F.content file.now) (W.contents writer.old) (W.contents writer.new) }
{
    verdict_without_a_rule_on_names();
    let step = step_of(command.piece);
    match check_at(rt, alloc, file, command.workers, step, &command.settings) {
        Ok(verdict) => show(alloc, writer, verdict, command.quiet),
        Err(CheckFault::Memory) => Err(ReportAtFault::Memory),
        Err(CheckFault::Read(reason)) => Err(ReportAtFault::Read(reason)),
    }
}

/// Reads bytes by the command's workers, each at offsets of its own, to their end or to a fault of the text, and then writes
/// what `report` writes for them. A quiet command writes nothing, and its exit is the same.
///
/// Each worker reads as many bytes at a time as a chunk of the command has, at most 8 MiB, and 256 KiB where a chunk has
/// 65,536 bytes as by default. For the verdict on a text the calling thread reads the first four times as many alone, and
/// starts no thread where the bytes end there. After a fault of the text the rest may stay unread. Of a sequence each worker
/// judges the elements between the first and the last record separator that it read; all lines of the output are kept until the
/// end. It waits for the workers.
pub fn report_at<F: SharedAt + Sync, W: Sink, R: Threads + Wait + Sync>(
    rt: &R,
    alloc: Global,
    file: &F,
    writer: &mut W,
    command: &Command,
) -> Result<Exit, ReportAtFault<F::Fault>>
    requires writer { W.has_failed writer.old ≡ false }
    requires piece { 1 ≤ command.now.piece }
    requires shared { IsShared command.now }
    // The whole output for the content was written.
    ensures ok { IfOk result (λ exit. ReportsAt command.now (F.content file.now) (W.contents writer.old) (W.contents writer.new) exit) }
    // A read fault has a reason that a read of the content may give.
    ensures read { IfErr result (FailsBy (F.may_fail file.now)) }
    ensures write { IsErrOf result ReportAtFault.Write ↔ (W.has_failed writer.new ≡ true) }
    // After any other fault the writer is as it was.
    ensures unwritten { IfErr result (λ fault. fault ≢ ReportAtFault.Write → writer.new ≡ writer.old) }
    // After a write fault a beginning of the output for the content was written.
    ensures beginning { IsErrOf result ReportAtFault.Write → ReportsAtInPart command.now (F.content file.now) (W.contents writer.old) (W.contents writer.new) }
{
    match &command.task {
        Task::Check => report_verdict(rt, alloc, file, writer, command),
        Task::Seq => report_elements(rt, alloc, file, writer, command),
        Task::Index | Task::At(_) => unreachable!(),
    }
}
