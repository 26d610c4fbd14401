// The report on a text sequence of which workers judge parts.
ghost use Rattle.std.specs.Prelude.{◌≡◌, ◌≢◌, ◌≤◌, ◌↔◌, List, ℕ, true, false, IfOk, IfErr, IsErrOf};
ghost use Rattle.std.specs.Io.KnownBytes.{Appends};
ghost use Rattle.std.specs.Thread.{IsSend, IsSync};
ghost use Rattle.jx_ends.specs.Ends.{AppendsBeginning};
ghost use Rattle.jx_run.specs.declared.texts.settings.FrontMark.TheVariants.{Refused};
ghost use Rattle.jx_run.specs.declared.texts.settings.NameRule.TheVariants.{Any};
ghost use Rattle.jx_task.specs.declared.task.Task.TheVariants.{Seq};
ghost use Rattle.jx_parallel.specs.Faults.{ReadFailsBy};
ghost use Rattle.jx_parallel.specs.Offsets.{IsContent};
ghost use Rattle.jx_drive_at.specs.ReportsAt.{FailsBy};
ghost use Rattle.jx_parallel_report.specs.ReportsAt.{ReportsAt, ReportsAtInPart};
ghost use Rattle.jx_parallel_report.specs.inside.Elements.{AreAllTold};

use crate::elements_part::ToldElements;
use crate::elements_reader::ElementsReader;
use jx_drive_at::{ReportAtFault, step_of};
use jx_ends::{Exit, Sink, write_whole};
use jx_parallel::{CheckFault, PartRule, SharedAt, read_by_parts};
use jx_task::Command;
use std::alloc::Global;
use std::sync::Wait;
use std::thread::Threads;

/// The lines of all elements of a sequence, which the command's workers read.
fn told_at<F: SharedAt + Sync, R: Threads + Wait + Sync>(
    rt: &R,
    alloc: Global,
    file: &F,
    command: &Command,
    rule: &PartRule,
) -> Result<ToldElements, CheckFault<F::Fault>>
    requires piece { 1 ≤ command.now.piece }
    ensures ok { IfOk result (λ told. (text : List ℕ) × IsContent (F.content file.now) text × AreAllTold rule.now text told) }
    ensures fault { IfErr result (ReadFailsBy (F.may_fail file.now)) }
{
    let mut reader = ElementsReader::new(alloc, rule);
    let piece = step_of(command.piece);
    read_by_parts(rt, alloc, file, command.workers, piece, rule, &mut reader)?;
    let told = reader.into_told(rule)?;
    Ok(told)
}

/// Writes the lines, and answers the exit.
fn show_told<W: Sink, E>(writer: &mut W, told: ToldElements) -> Result<Exit, ReportAtFault<E>>
    requires { W.has_failed writer.old ≡ false }
    ensures ok { IfOk result (λ exit. (exit ≡ told.exit) × Appends (W.contents writer.old) (W.contents writer.new) told.words.items) }
    ensures write { IsErrOf result ReportAtFault.Write ↔ (W.has_failed writer.new ≡ true) }
    ensures beginning { IsErrOf result ReportAtFault.Write → AppendsBeginning (W.contents writer.old) (W.contents writer.new) told.words.items }
    ensures unwritten { IfErr result (λ fault. fault ≢ ReportAtFault.Write → writer.new ≡ writer.old) }
    ensures unread { IfErr result (FailsBy (λ _. ⊥)) }
{
    match write_whole(writer, &told.words) {
        Ok(()) => Ok(told.exit),
        Err(_) => Err(ReportAtFault::Write),
    }
}

/// Reports on the elements of a sequence whose objects may have any names, and before which no byte order mark is ignored.
pub(crate) fn report_elements<F: SharedAt + Sync, W: Sink, R: Threads + Wait + Sync>(
    rt: &R,
    alloc: Global,
    file: &F,
    writer: &mut W,
    command: &Command,
) -> Result<Exit, ReportAtFault<F::Fault>>
    requires writer { W.has_failed writer.old ≡ false }
    requires piece { 1 ≤ command.now.piece }
    requires task { command.now.task ≡ Seq }
    requires names { command.now.settings.names ≡ Any }
    requires mark { command.now.settings.mark ≡ Refused }
    ensures ok { IfOk result (λ exit. ReportsAt command.now (F.content file.now) (W.contents writer.old) (W.contents writer.new) exit) }
    ensures read { IfErr result (FailsBy (F.may_fail file.now)) }
    ensures write { IsErrOf result ReportAtFault.Write ↔ (W.has_failed writer.new ≡ true) }
    ensures unwritten { IfErr result (λ fault. fault ≢ ReportAtFault.Write → writer.new ≡ writer.old) }
    ensures beginning { IsErrOf result ReportAtFault.Write → ReportsAtInPart command.now (F.content file.now) (W.contents writer.old) (W.contents writer.new) }
{
    let rule = PartRule {
        depth: command.settings.depth,
        is_quiet: command.quiet,
    };
    match told_at(rt, alloc, file, command, &rule) {
        Ok(told) => show_told(writer, told),
        Err(CheckFault::Memory) => Err(ReportAtFault::Memory),
        Err(CheckFault::Read(reason)) => Err(ReportAtFault::Read(reason)),
    }
}
