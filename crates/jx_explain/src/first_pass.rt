// A skip an input for its verdict alone, which holds no more than batches of it.
ghost use Rattle.std.specs.Prelude.{◌≡◌, ◌≢◌, ◌≤◌, ◌↔◌, [], false, true, IfOk, IfErr, IsErrOf};
ghost use Rattle.std.specs.Io.KnownBytes.{Appends};
ghost use Rattle.jx_report.specs.Reports.{HasTooManyPieces};
ghost use Rattle.jx_explain.specs.Explained.{Explains};

use jx_crew::{Crew, Gate};
use jx_ends::{Exit, ReportFault, Sink, Source};
use jx_report::report;
use jx_task::{Command, Task};
use std::sync::Wait;
use std::thread::Threads;

/// Reads an input to its end, and gives the exit that `report_explained` gives for it. Of the input it holds batches alone, as
/// `report` does for a verdict, and it writes nothing. So a long input need not be held to see whether there is anything to
/// explain.
pub fn exit_of_input<R: Threads + Wait + Sync, S: Source + Send, W: Sink, G: Gate + Sync>(
    crew: &Crew<'_, R, G>,
    reader: &mut S,
    writer: &mut W,
    command: &Command,
) -> Result<Exit, ReportFault>
    requires reader { S.has_failed reader.old ≡ false }
    requires writer { W.has_failed writer.old ≡ false }
    requires piece { 1 ≤ command.now.piece }
    ensures ok { IfOk result (Explains command.now (S.remaining reader.old) (S.remaining reader.new)) }
    ensures silent { IfOk result (λ _. Appends (W.contents writer.old) (W.contents writer.new) []) }
    ensures read { IsErrOf result ReportFault.Read ↔ (S.has_failed reader.new ≡ true) }
    ensures write { IsErrOf result ReportFault.Write ↔ (W.has_failed writer.new ≡ true) }
    // After any other fault the writer is as it was.
    ensures unwritten { IfErr result (λ fault. fault ≢ ReportFault.Write → writer.new ≡ writer.old) }
    // Chunks are too many only where all was read, and it has more of them than there may be.
    ensures pieces { IsErrOf result ReportFault.Pieces → HasTooManyPieces command.now (S.remaining reader.old)
        (S.remaining reader.new) }
{
    let quiet = Command {
        task: Task::Check,
        settings: command.settings,
        workers: crew.workers,
        piece: command.piece,
        quiet: true,
    };
    report(crew.rt, crew.alloc, reader, writer, &quiet, crew.gate)
}
