ghost use Rattle.std.specs.Prelude.{◌≡◌, ◌<◌, ◌≤◌, IfErr, IfOk, vec_len};
ghost use Rattle.std.specs.Thread.{IsSend, IsSync};
ghost use Rattle.jx_parallel.specs.Faults.{ReadFailsBy};
ghost use Rattle.jx_parallel.specs.Verdict.{IsVerdictOn};

use crate::book::Book;
use crate::check_fault::CheckFault;
use crate::finishing::finish;
use crate::kept::Kept;
use crate::known::Known;
use crate::lead::Lead;
use crate::pieces::Pieces;
use crate::reading::lead_to;
use crate::shared_at::SharedAt;
use crate::working::{Job, work};
use jx_crew::Workers;
use jx_fork::call_each;
use jx_run::{Settings, Verdict};
use std::alloc::{AllocError, Global};
use std::marker::Brand;
use std::sync::{Mutex, Wait};
use std::thread::Threads;

/// How many chunks the calling thread reads alone. They include a byte order mark, and a shorter text starts no thread.
const FIRST: usize = 4;

/// The reader for the first worker, and nothing for the others.
fn jobs_of<K: Known>(
    alloc: Global,
    lead: Lead<K>,
    workers: Workers,
) -> Result<Vec<Job<K>>, AllocError> {
    let mut jobs = Vec::new(alloc);
    jobs.push(Job { lead: Some(lead) })?;
    for _ in 1..workers.count() {
        jobs.push(Job { lead: None })?;
    }
    Ok(jobs)
}

/// The reader among what the workers returned; none where the one that had it was refused memory or a read.
fn lead_of<K: Known>(results: Vec<Option<Lead<K>>>) -> Option<Lead<K>> {
    let mut results = results;
    while let Some(result) = results.pop() {
        if let Some(lead) = result {
            return Some(lead);
        }
    }
    None
}

/// The state of a text between workers: the reader, and the partial results after it.
#[derive(Drop)]
struct Shared<K: Known> {
    lead: Lead<K>,
    runs: Vec<Kept<K>>,
}

/// Reads the bytes after the reader's by several workers.
fn share<F: SharedAt + Sync, K: Known + Send + Sync, R: Threads + Wait + Sync>(
    rt: &R,
    alloc: Global,
    file: &F,
    workers: Workers,
    piece: usize,
    settings: &Settings,
    lead: Lead<K>,
) -> Result<Shared<K>, AllocError>
    requires text { K.text ≡ F.content file.now }
    requires settings { settings.now ≡ K.settings }
{
    let depth = settings.depth;
    let pieces = Pieces::new(lead.end(), piece);
    let book: Book<K> = Mutex::new(Vec::<Kept<K>>::new(alloc));
    let jobs = jobs_of::<K>(alloc, lead, workers)?;
    let results = call_each(
        rt,
        alloc,
        jobs,
        &|job: Job<K>| -> Option<Lead<K>>
            requires { (K.text ≡ F.content file.now) × (depth ≡ K.settings.depth) }
        { work::<F, K, R>(rt, alloc, file, &pieces, &book, depth, job) },
    )?;
    let lead = match lead_of(results) {
        Some(lead) => lead,
        None => Lead::<K>::new(alloc, settings),
    };
    Ok(Shared {
        lead,
        runs: book.into_inner(),
    })
}

/// Checks the text that `K` names, as `check_at` does.
fn check_by<F: SharedAt + Sync, K: Known + Send + Sync, R: Threads + Wait + Sync>(
    rt: &R,
    alloc: Global,
    file: &F,
    workers: Workers,
    piece: usize,
    settings: &Settings,
) -> Result<Verdict, CheckFault<F::Fault>>
    requires text { K.text ≡ F.content file.now }
    requires settings { settings.now ≡ K.settings }
    requires piece { 1 ≤ piece }
    ensures ok { IfOk result (IsVerdictOn (F.content file.now) K.settings) }
    ensures fault { IfErr result (ReadFailsBy (F.may_fail file.now)) }
{
    let mut buffer = Vec::new(alloc);
    buffer.resize(piece, 0u8)?;
    let lead = Lead::<K>::new(alloc, settings);
    let first = piece.saturating_mul(FIRST);
    let (lead, is_there) = lead_to::<F, K, R>(rt, file, buffer.as_mut_slice(), first, lead)?;
    if workers.count() == 1 || !is_there {
        return finish::<F, K, R>(rt, file, Vec::new(alloc), buffer, lead);
    }
    let Shared { lead, runs } = share::<F, K, R>(rt, alloc, file, workers, piece, settings, lead)?;
    finish::<F, K, R>(rt, file, runs, buffer, lead)
}

/// Reads a text by workers, each at offsets of its own, and returns the verdict on it (RFC 8259, section 2), whatever names
/// its objects have.
///
/// Each worker reads `piece` bytes at a time, at least 1, into a buffer of its own. The calling thread reads the first four
/// chunks alone, and starts no thread where the text ends there. It waits for the workers. After a fault of the text the
/// workers stop, so the rest may stay unread. The first read that gives no byte ends the text.
///
/// Memory is kept for a buffer for each worker and one more, and for partial results of bytes after a chunk that a worker still
/// has in hand. A read that fails is reported with its reason, unless a fault of the text comes before it.
pub fn check_at<F: SharedAt + Sync, R: Threads + Wait + Sync>(
    rt: &R,
    alloc: Global,
    file: &F,
    workers: Workers,
    piece: usize,
    settings: &Settings,
) -> Result<Verdict, CheckFault<F::Fault>>
    requires piece { 1 ≤ piece }
    // For every number of workers, size of chunks and order of their steps, it is the verdict on the content.
    ensures ok { IfOk result (IsVerdictOn (F.content file.now) settings.now) }
    ensures fault { IfErr result (ReadFailsBy (F.may_fail file.now)) }
{
    check_by::<F, Brand, R>(rt, alloc, file, workers, piece, settings)
}
