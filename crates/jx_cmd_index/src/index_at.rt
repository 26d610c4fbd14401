// Writes the index of a text that workers read at offsets, or reports why there is none.
ghost use Rattle.std.specs.Prelude.{◌≡◌, ◌≢◌, ◌↔◌, ℕ, List, true, false, IfErr, IfOk, IsErrOf, OnErr, OnOk};
ghost use Rattle.std.specs.Thread.{IsSend, IsSync};
ghost use Rattle.jx_parallel.specs.Faults.{ReadFailsBy};
ghost use Rattle.jx_parallel.specs.Offsets.{IsContent};
ghost use Rattle.jx_cmd_index.specs.SavesAt.{SavesAt, SavesAtInPart};
ghost use Rattle.jx_cmd_index.specs.inside.Saving.{ComesToSaved};

use crate::index_reader::{Asked, IndexReader};
use crate::saved_showing::show_saved;
use jx_crew::Workers;
use jx_ends::{Exit, ReportFault, Sink};
use jx_file_index::{ChunkSize, SavedText};
use jx_parallel::{CheckFault, PartRule, SharedAt, read_by_parts};
use jx_run::{Refusal, Settings};
use std::alloc::Global;
use std::marker::Brand;
use std::sync::Wait;
use std::thread::Threads;

/// The index of a text that workers read, or why the bytes are not a text.
fn read_index<F: SharedAt + Sync, K: Asked + Send, R: Threads + Wait + Sync>(
    rt: &R,
    alloc: Global,
    file: &F,
    settings: &Settings,
    chunk: ChunkSize,
    has_names: bool,
    workers: Workers,
) -> Result<Result<SavedText, Refusal>, CheckFault<F::Fault>>
    requires settings { K.settings ≡ settings.now }
    requires chunk { K.chunk ≡ chunk }
    requires names { K.has_names ≡ has_names }
    ensures ok { IfOk result (λ read. (text : List ℕ) × IsContent (F.content file.now) text × ComesToSaved has_names settings.now chunk text read) }
    ensures fault { IfErr result (ReadFailsBy (F.may_fail file.now)) }
{
    let rule = PartRule {
        depth: settings.depth,
        is_quiet: true,
    };
    let mut reader = IndexReader::<K>::new(alloc, &rule, settings, chunk, has_names);
    read_by_parts(rt, alloc, file, workers, chunk.bytes(), &rule, &mut reader)?;
    let read = reader.finish()?;
    Ok(read)
}

/// Reads a text at offsets by workers to its end, and then writes and reports what `report_index` does. `Err` where it was not
/// read to its end: then nothing was written, and nothing was reported.
///
/// Workers and the calling thread go on in rounds. Each worker takes chunks of the index, reads each at its offset without the bytes
/// before it, and sums its tokens from a state that is likely. Then the calling thread takes these in order. It reads a chunk that
/// begins in another state, the first and the last one, and the one in which a round ends.
///
/// Where tables of names are asked for, or names have to be unique, the calling thread reads all chunks, and workers are of no use.
pub fn report_index_at<F: SharedAt + Sync, W: Sink, E: Sink, R: Threads + Wait + Sync>(
    rt: &R,
    alloc: Global,
    file: &F,
    writer: &mut W,
    errors: &mut E,
    settings: &Settings,
    chunk: ChunkSize,
    has_names: bool,
    workers: Workers,
) -> Result<Result<Exit, ReportFault>, CheckFault<F::Fault>>
    requires writer { W.has_failed writer.old ≡ false }
    // For every number of workers and order of steps, the whole output for the content was written and told.
    ensures ok { IfOk result (λ shown. IfOk shown (SavesAt has_names settings.now chunk (F.content file.now)
        (W.contents writer.old) (W.contents writer.new) (E.has_failed errors.new) (E.contents errors.old) (E.contents errors.new))) }
    // A read fault has a reason that a read of the content may give.
    ensures read { IfErr result (ReadFailsBy (F.may_fail file.now)) }
    ensures unread { OnErr result ((writer.new ≡ writer.old) × (errors.new ≡ errors.old)) }
    ensures write { IfOk result (λ shown. IsErrOf shown ReportFault.Write ↔ (W.has_failed writer.new ≡ true)) }
    // After any other fault the writer is as it was, and after each fault nothing was reported.
    ensures unwritten { IfOk result (λ shown. IfErr shown (λ fault. fault ≢ ReportFault.Write → writer.new ≡ writer.old)) }
    ensures untold { IfOk result (λ shown. OnErr shown (errors.new ≡ errors.old)) }
    // After a write fault a beginning of that was written.
    ensures beginning { IfOk result (λ shown. IsErrOf shown ReportFault.Write → SavesAtInPart has_names settings.now chunk (F.content file.now)
        (W.contents writer.old) (W.contents writer.new)) }
    ensures uncut { IfOk result (λ shown. IfErr shown (λ fault. (fault ≢ ReportFault.Read) × (fault ≢ ReportFault.Pieces))) }
{
    let read = read_index::<F, Brand, R>(rt, alloc, file, settings, chunk, has_names, workers)?;
    Ok(show_saved(alloc, writer, errors, read))
}
