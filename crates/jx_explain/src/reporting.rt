// A text that is read to its end and explained.
ghost use Rattle.std.specs.Prelude.{◌≡◌, ◌≢◌, ◌≤◌, ◌↔◌, length, false, true, IfOk, IfErr, IsErrOf};
ghost use Rattle.jx_run.specs.declared.texts.settings.NameRule.TheVariants.{Any};
ghost use Rattle.jx_run.specs.Settings.{JudgedBy};
ghost use Rattle.jx_index.specs.ByNames.{IsVerdictBy};
ghost use Rattle.jx_report.specs.Reports.{HasTooManyPieces};
ghost use Rattle.jx_explain.specs.Explained.{Explains, exit_by};

use crate::explain::{Form, explained};
use jx_answer::{Balance, read_batch, verdict_of_text, verdict_without_a_rule_on_names};
use jx_claim::Cutting;
use jx_crew::{Crew, Gate};
use jx_ends::{Exit, ReportFault, Sink, Source, read_to_end, write_whole};
use jx_run::{NameRule, Reader, Settings, Verdict};
use jx_task::Command;
use std::alloc::AllocError;
use std::sync::Wait;
use std::thread::Threads;

/// How many bytes of a text the crew reads at a time.
const BATCH: usize = 8 * 1024 * 1024;

/// The verdict on a text whatever names its objects have. The crew reads it batch by batch.
fn verdict_whatever_names<R: Threads + Wait + Sync, G: Gate + Sync>(
    crew: &Crew<'_, R, G>,
    text: &[u8],
    settings: &Settings,
    piece: usize,
) -> Result<Verdict, AllocError>
    requires { 1 ≤ piece }
    ensures { IfOk result (JudgedBy settings.now 0 text.now) }
{
    let mut reader = Reader::new(crew.alloc, settings, 0);
    let mut balance = Balance::new(crew.workers);
    let mut done = 0;
    while done < text.len() {
        let end = done + BATCH.min(text.len() - done);
        read_batch(crew, &mut reader, &mut balance, &text[done..end], piece)?;
        done = end;
    }
    Ok(reader.verdict())
}

/// The verdict on a text by settings.
fn verdict_on<R: Threads + Wait + Sync, G: Gate + Sync>(
    crew: &Crew<'_, R, G>,
    text: &[u8],
    cutting: &Cutting,
    settings: &Settings,
    piece: usize,
) -> Result<Verdict, AllocError>
    requires cutting { cutting.now.len ≡ length text.now }
    requires front { cutting.now.front ≡ 0 }
    requires piece { 1 ≤ piece }
    ensures { IfOk result (IsVerdictBy settings.now text.now) }
{
    verdict_without_a_rule_on_names();
    match settings.names {
        NameRule::Any => verdict_whatever_names(crew, text, settings, piece),
        NameRule::Unique => verdict_of_text(crew, text, cutting, settings),
    }
}

/// How a program ends that has told people of a verdict.
fn exit_of(verdict: Verdict) -> Exit
    ensures { result ≡ exit_by verdict }
{
    match verdict {
        Verdict::Accepted => Exit::Good,
        Verdict::Refused(_) => Exit::Bad,
    }
}

/// Reads a text of this name to its end, and writes the report on it in a form. The verdict is that of the command's
/// settings; its task is ignored. The crew reads the text as `report` does for a verdict, but holds all of it, since
/// the line of the fault is shown. Nothing is written before all is read.
pub fn report_explained<R: Threads + Wait + Sync, S: Source, W: Sink, G: Gate + Sync>(
    crew: &Crew<'_, R, G>,
    reader: &mut S,
    writer: &mut W,
    name: &[u8],
    command: &Command,
    form: Form,
) -> Result<Exit, ReportFault>
    requires reader { S.has_failed reader.old ≡ false }
    requires writer { W.has_failed writer.old ≡ false }
    requires piece { 1 ≤ command.now.piece }
    ensures ok { IfOk result (Explains command.now (S.remaining reader.old) (S.remaining reader.new)) }
    ensures read { IsErrOf result ReportFault.Read ↔ (S.has_failed reader.new ≡ true) }
    ensures write { IsErrOf result ReportFault.Write ↔ (W.has_failed writer.new ≡ true) }
    // After any other fault the writer is as it was.
    ensures unwritten { IfErr result (λ fault. fault ≢ ReportFault.Write → writer.new ≡ writer.old) }
    // Chunks are too many only where all was read, and it has more of them than there may be.
    ensures pieces { IsErrOf result ReportFault.Pieces → HasTooManyPieces command.now (S.remaining reader.old)
        (S.remaining reader.new) }
{
    let text = read_to_end(crew.alloc, reader)?;
    let Ok(cutting) = Cutting::every(text.len(), command.piece) else {
        return Err(ReportFault::Pieces);
    };
    let settings = &command.settings;
    let verdict = verdict_on(crew, &text, &cutting, settings, command.piece)?;
    let told = explained(crew.alloc, name, &text, verdict, settings, form)?;
    write_whole(writer, told.as_bytes())?;
    Ok(exit_of(verdict))
}
