ghost use Rattle.std.specs.Prelude.{◌≡◌, ◌≢◌, ◌<◌, ◌≤◌, ◌↔◌, true, false, IfOk, IfErr, IsErrOf};
ghost use Rattle.jx_report.specs.Reports.{Reports, ReportsInPart, HasTooManyPieces};

use crate::answering::answer_to_input;
use crate::writing::show_reply;
use jx_crew::{Crew, Gate};
use jx_ends::{Exit, ReportFault, Sink, Source};
use jx_task::Command;
use std::alloc::Global;
use std::sync::Wait;
use std::thread::Threads;

/// How many bytes of an input are read at a time, at most.
const BATCH: usize = 8 * 1024 * 1024;

/// How many bytes one worker with short chunks reads at a time. They are looked at before they leave the processor's cache.
const STEP: usize = 256 * 1024;

/// How many bytes of an output are written at a time, at most.
const BUFFER: usize = 64 * 1024;

/// How many bytes are read at a time: as many whole chunks as a step has room for, where these are two or more. Else as
/// many as a batch has room for, or a batch where a chunk is no shorter.
fn batch_of(command: &Command) -> usize
    requires { 1 ≤ command.now.piece }
    ensures { 1 ≤ result }
{
    let piece = command.piece;
    let is_alone = command.workers.count() == 1;
    let most = if is_alone && piece <= STEP / 2 {
        STEP
    } else {
        BATCH
    };
    if piece < most {
        most - most % piece
    } else {
        most
    }
}

/// `report` where a batch has so many bytes, at least one. Batches are what a text or the elements of a sequence are judged
/// by, and few pointers looked up by; their length changes no output.
pub fn report_in_batches<R: Threads + Wait + Sync, S: Source + Send, W: Sink, G: Gate + Sync>(
    rt: &R,
    alloc: Global,
    reader: &mut S,
    writer: &mut W,
    command: &Command,
    gate: &G,
    batch: usize,
) -> Result<Exit, ReportFault>
    requires reader { S.has_failed reader.old ≡ false }
    requires writer { W.has_failed writer.old ≡ false }
    requires piece { 1 ≤ command.now.piece }
    requires some { 1 ≤ batch }
    // All that the reader had was read, and its whole output was written.
    ensures ok { IfOk result (λ exit. Reports command.now (S.remaining reader.old) (S.remaining reader.new)
        (W.contents writer.old) (W.contents writer.new) exit) }
    ensures read { IsErrOf result ReportFault.Read ↔ (S.has_failed reader.new ≡ true) }
    ensures write { IsErrOf result ReportFault.Write ↔ (W.has_failed writer.new ≡ true) }
    // After any other fault the writer is as it was.
    ensures unwritten { IfErr result (λ fault. fault ≢ ReportFault.Write → writer.new ≡ writer.old) }
    // After a write fault all was read, and a beginning of its output was written.
    ensures beginning { IsErrOf result ReportFault.Write → ReportsInPart command.now (S.remaining reader.old)
        (S.remaining reader.new) (W.contents writer.old) (W.contents writer.new) }
    // Chunks are too many only where all was read, and it has more of them than there may be.
    ensures pieces { IsErrOf result ReportFault.Pieces → HasTooManyPieces command.now (S.remaining reader.old)
        (S.remaining reader.new) }
{
    let crew = Crew {
        rt,
        alloc,
        workers: command.workers,
        gate,
    };
    let reply = answer_to_input(&crew, reader, command, batch)?;
    show_reply(&crew, writer, &reply, command.quiet, BUFFER)
}

/// Reads to the end of input, has it answered by the command's workers, and then writes the output through one buffer. Two
/// or more workers make the lines of 32,768 rows or more, in buffers of their own. A quiet command writes nothing, and its
/// exit is the same. All buffers are taken before the first byte is written. From then on nothing fails where memory is
/// lacking: the calling thread makes the lines that threads cannot make. It may wait for the workers.
///
/// The gate changes no output. One worker asks it as each chunk of a batch begins, and the chunks of a batch are
/// numbered from 0. Several workers ask after each step, as by `read_batch`, and by `judge_batch` for what stands
/// between two record separators. Rows are asked for by one worker, and their lines by none. Where names have to be
/// unique, or few pointers are looked up, one thread reads, and asks before it judges what a read gave, as chunk 0. Many
/// pointers are looked up as by `find_all`. Less than a MiB is read by the calling thread alone where nobody is asked
/// (`Gate::is_asked`). With several workers the reader is also called from another thread, one call at a time.
pub fn report<R: Threads + Wait + Sync, S: Source + Send, W: Sink, G: Gate + Sync>(
    rt: &R,
    alloc: Global,
    reader: &mut S,
    writer: &mut W,
    command: &Command,
    gate: &G,
) -> Result<Exit, ReportFault>
    requires reader { S.has_failed reader.old ≡ false }
    requires writer { W.has_failed writer.old ≡ false }
    requires piece { 1 ≤ command.now.piece }
    // All that the reader had was read, and its whole output was written.
    ensures ok { IfOk result (λ exit. Reports command.now (S.remaining reader.old) (S.remaining reader.new)
        (W.contents writer.old) (W.contents writer.new) exit) }
    ensures read { IsErrOf result ReportFault.Read ↔ (S.has_failed reader.new ≡ true) }
    ensures write { IsErrOf result ReportFault.Write ↔ (W.has_failed writer.new ≡ true) }
    // After any other fault the writer is as it was.
    ensures unwritten { IfErr result (λ fault. fault ≢ ReportFault.Write → writer.new ≡ writer.old) }
    // After a write fault all was read, and a beginning of its output was written.
    ensures beginning { IsErrOf result ReportFault.Write → ReportsInPart command.now (S.remaining reader.old)
        (S.remaining reader.new) (W.contents writer.old) (W.contents writer.new) }
    // Chunks are too many only where all was read, and it has more of them than there may be.
    ensures pieces { IsErrOf result ReportFault.Pieces → HasTooManyPieces command.now (S.remaining reader.old)
        (S.remaining reader.new) }
{
    let crew = Crew {
        rt,
        alloc,
        workers: command.workers,
        gate,
    };
    let reply = answer_to_input(&crew, reader, command, batch_of(command))?;
    show_reply(&crew, writer, &reply, command.quiet, BUFFER)
}
