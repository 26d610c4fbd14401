// The line of a verdict on a text, and how the program ends after it.
ghost use Rattle.std.specs.Prelude.{◌≡◌, ◌≢◌, ◌↔◌, ◌++◌, ℕ, List, false, true, IfErr, IfOk, IsErrOf, OnOk};
ghost use Rattle.std.specs.Io.KnownBytes.{Appends};
ghost use Rattle.jx_ends.specs.Ends.{AppendsBeginning};
ghost use Rattle.jx_ends.specs.declared.exit.Exit.{Exit};
ghost use Rattle.jx_words.specs.Verdicts.{ByVerdict, SaysAccepted, shown_output};
ghost use Rattle.jx_words.specs.inside.Lines.{verdict_exit, verdict_line};
ghost use Rattle.jx_words.specs.inside.Room.{HasRoom, TakesRoom};

use crate::words::{push_byte, push_bytes, push_refusal};
use jx_ends::{Exit, ReportFault, Sink, write_whole};
use jx_run::Verdict;
use std::alloc::Global;

/// How many bytes the line of a verdict has at most.
const VERDICT: usize = 38;

/// The exit for a verdict: good where the text is accepted.
pub fn exit_of_verdict(verdict: Verdict) -> Exit
    ensures { result ≡ verdict_exit verdict }
{
    match verdict {
        Verdict::Accepted => Exit::Good,
        Verdict::Refused(_) => Exit::Bad,
    }
}

/// Appends the line of a verdict.
pub fn push_verdict(out: &mut Vec<u8>, verdict: Verdict)
    requires { HasRoom out.old 38 }
    ensures words { out.new.items ≡ out.old.items ++ verdict_line verdict }
    ensures room { TakesRoom out.old out.new 38 }
{
    match verdict {
        Verdict::Accepted => push_bytes(out, b"accepted"),
        Verdict::Refused(refusal) => push_refusal(out, refusal),
    }
    push_byte(out, b'\n');
}

/// Writes the line of a verdict.
fn write_line<W: Sink>(alloc: Global, writer: &mut W, verdict: Verdict) -> Result<(), ReportFault>
    requires { W.has_failed writer.old ≡ false }
    ensures ok { OnOk result (Appends (W.contents writer.old) (W.contents writer.new) (verdict_line verdict)) }
    ensures write { IsErrOf result ReportFault.Write ↔ (W.has_failed writer.new ≡ true) }
    ensures beginning { IsErrOf result ReportFault.Write → AppendsBeginning (W.contents writer.old) (W.contents writer.new) (verdict_line verdict) }
    ensures unwritten { IfErr result (λ fault. fault ≢ ReportFault.Write → writer.new ≡ writer.old) }
    ensures unread { IfErr result (λ fault. fault ≢ ReportFault.Read) }
    ensures uncut { IfErr result (λ fault. fault ≢ ReportFault.Pieces) }
{
    let mut line = Vec::with_capacity(alloc, VERDICT)?;
    push_verdict(&mut line, verdict);
    write_whole(writer, &line)
}

/// Writes the line of a verdict, or nothing where it is quiet, and returns the status.
fn show_verdict<W: Sink>(
    alloc: Global,
    writer: &mut W,
    verdict: Verdict,
    quiet: bool,
) -> Result<Exit, ReportFault>
    requires { W.has_failed writer.old ≡ false }
    ensures ok { IfOk result (λ exit. (exit ≡ verdict_exit verdict) × Appends (W.contents writer.old) (W.contents writer.new) (shown_output quiet (verdict_line verdict))) }
    ensures write { IsErrOf result ReportFault.Write ↔ (W.has_failed writer.new ≡ true) }
    ensures beginning { IsErrOf result ReportFault.Write → AppendsBeginning (W.contents writer.old) (W.contents writer.new) (shown_output quiet (verdict_line verdict)) }
    ensures unwritten { IfErr result (λ fault. fault ≢ ReportFault.Write → writer.new ≡ writer.old) }
    ensures unread { IfErr result (λ fault. fault ≢ ReportFault.Read) }
    ensures uncut { IfErr result (λ fault. fault ≢ ReportFault.Pieces) }
{
    if !quiet {
        write_line(alloc, writer, verdict)?;
    }
    Ok(exit_of_verdict(verdict))
}

/// Writes the line of a verdict on a text, or nothing where it is quiet, and answers the exit.
pub fn write_verdict<W: Sink>(
    alloc: Global,
    writer: &mut W,
    verdict: Verdict,
    quiet: bool,
) -> Result<Exit, ReportFault>
    requires { W.has_failed writer.old ≡ false }
    ensures ok { IfOk result (λ exit. (output : List ℕ) × (ByVerdict SaysAccepted verdict output exit
        × Appends (W.contents writer.old) (W.contents writer.new) (shown_output quiet output))) }
    ensures write { IsErrOf result ReportFault.Write ↔ (W.has_failed writer.new ≡ true) }
    ensures beginning { IsErrOf result ReportFault.Write → (exit : Exit) × ((output : List ℕ) × (ByVerdict SaysAccepted verdict output exit
        × AppendsBeginning (W.contents writer.old) (W.contents writer.new) (shown_output quiet output))) }
    // Where the buffer is not to be had, the writer is as it was.
    ensures unwritten { IfErr result (λ fault. fault ≢ ReportFault.Write → writer.new ≡ writer.old) }
    ensures unread { IfErr result (λ fault. fault ≢ ReportFault.Read) }
    ensures uncut { IfErr result (λ fault. fault ≢ ReportFault.Pieces) }
{
    show_verdict(alloc, writer, verdict, quiet)
}
