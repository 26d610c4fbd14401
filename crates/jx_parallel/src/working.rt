// The work of each worker.
ghost use Rattle.std.specs.Prelude.{◌≡◌};

use crate::book::{Book, follow_all, hand_over};
use crate::check_fault::CheckFault;
use crate::known::Known;
use crate::lead::Lead;
use crate::pieces::Pieces;
use crate::reading::{lead_to, run_there};
use crate::shared_at::SharedAt;
use jx_lex::Depth;
use std::alloc::{AllocError, Global};
use std::sync::Wait;

/// The most chunks that the worker with the reader takes in a row. It takes one at first, and then twice as many each
/// time, so that a short text is shared.
const MOST: u64 = 16;

/// Returns a buffer for a chunk.
pub(crate) fn buffer_for(alloc: Global, pieces: &Pieces) -> Result<Vec<u8>, AllocError> {
    let mut buffer = Vec::new(alloc);
    buffer.resize(pieces.bytes(1), 0)?;
    Ok(buffer)
}

/// Makes partial results of chunks until one is after the end of the text.
fn make_runs<F: SharedAt, K: Known, R: Wait>(
    rt: &R,
    alloc: Global,
    file: &F,
    pieces: &Pieces,
    book: &Book<K>,
    depth: Depth,
) -> Result<(), CheckFault<F::Fault>>
    requires text { K.text ≡ F.content file.now }
    requires depth { depth ≡ K.settings.depth }
{
    let mut buffer = buffer_for(alloc, pieces)?;
    for _ in rt.forever() {
        let Some(at) = pieces.draw(1) else {
            return Ok(());
        };
        match run_there::<F, K>(alloc, file, buffer.as_mut_slice(), at, depth)? {
            None => return Ok(()),
            Some(run) => hand_over::<K, R>(rt, book, run)?,
        }
    }
    unreachable!()
}

/// Makes runs of what stands between two offsets.
fn runs_between<F: SharedAt, K: Known, R: Wait>(
    rt: &R,
    alloc: Global,
    file: &F,
    book: &Book<K>,
    buffer: &mut [u8],
    from: usize,
    end: usize,
    depth: Depth,
) -> Result<(), CheckFault<F::Fault>>
    requires text { K.text ≡ F.content file.now }
    requires depth { depth ≡ K.settings.depth }
{
    let mut at = from;
    for _ in rt.forever() {
        if at >= end {
            return Ok(());
        }
        let room = buffer.len().min(end - at);
        match run_there::<F, K>(alloc, file, &mut buffer[..room], at, depth)? {
            None => return Ok(()),
            Some(run) => {
                at = run.end();
                hand_over::<K, R>(rt, book, run)?;
            }
        }
    }
    unreachable!()
}

/// Lets the reader follow what the others store until it is at an offset, or at a fault of the text. While chunks before
/// the offset are in other hands, it makes partial results of further chunks, until one is after the end of the text.
fn lead_up_to<F: SharedAt, K: Known, R: Wait>(
    rt: &R,
    alloc: Global,
    file: &F,
    pieces: &Pieces,
    book: &Book<K>,
    buffer: &mut [u8],
    offset: usize,
    depth: Depth,
    lead: Lead<K>,
) -> Result<Lead<K>, CheckFault<F::Fault>>
    requires text { K.text ≡ F.content file.now }
    requires depth { depth ≡ K.settings.depth }
{
    let mut lead = lead;
    for _ in rt.forever() {
        lead = follow_all::<K, R>(rt, book, lead)?;
        if lead.end() == offset || lead.decided().is_some() {
            return Ok(lead);
        }
        let Some(at) = pieces.draw(1) else {
            return Ok(lead);
        };
        match run_there::<F, K>(alloc, file, buffer, at, depth)? {
            None => return Ok(lead),
            Some(run) => hand_over::<K, R>(rt, book, run)?,
        }
    }
    unreachable!()
}

/// Reads on as the worker that has the reader: takes several chunks in a row, lets the reader follow up to them, and reads them
/// from where it is.
fn lead_on<F: SharedAt, K: Known, R: Wait>(
    rt: &R,
    alloc: Global,
    file: &F,
    pieces: &Pieces,
    book: &Book<K>,
    depth: Depth,
    lead: Lead<K>,
) -> Result<Lead<K>, CheckFault<F::Fault>>
    requires text { K.text ≡ F.content file.now }
    requires depth { depth ≡ K.settings.depth }
{
    let mut lead = lead;
    let mut buffer = buffer_for(alloc, pieces)?;
    let mut count: u64 = 1;
    for _ in rt.forever() {
        let Some(from) = pieces.draw(count) else {
            return Ok(lead);
        };
        let end = from.saturating_add(pieces.bytes(count));
        let slice = buffer.as_mut_slice();
        lead = lead_up_to::<F, K, R>(rt, alloc, file, pieces, book, slice, from, depth, lead)?;
        if lead.decided().is_some() {
            return Ok(lead);
        }
        let slice = buffer.as_mut_slice();
        if lead.end() != from {
            runs_between::<F, K, R>(rt, alloc, file, book, slice, from, end, depth)?;
            return Ok(lead);
        }
        let (further, is_there) = lead_to::<F, K, R>(rt, file, slice, end, lead)?;
        lead = further;
        if !is_there {
            return Ok(lead);
        }
        count = count.saturating_mul(2).min(MOST);
    }
    unreachable!()
}

/// The task with which a worker begins: the first one has the reader.
#[derive(Drop)]
pub(crate) struct Job<K: Known> {
    pub lead: Option<Lead<K>>,
}

/// Works until the text ends, a fault of it is met, or another worker stops, and returns the reader. When out of memory, or where
/// a read fails, all workers stop: what they did not read is read when they have ended.
pub(crate) fn work<F: SharedAt, K: Known, R: Wait>(
    rt: &R,
    alloc: Global,
    file: &F,
    pieces: &Pieces,
    book: &Book<K>,
    depth: Depth,
    job: Job<K>,
) -> Option<Lead<K>>
    requires text { K.text ≡ F.content file.now }
    requires depth { depth ≡ K.settings.depth }
{
    let Job { lead } = job;
    match lead {
        Some(lead) => {
            let read = lead_on::<F, K, R>(rt, alloc, file, pieces, book, depth, lead);
            pieces.stop();
            read.ok()
        }
        None => {
            if make_runs::<F, K, R>(rt, alloc, file, pieces, book, depth).is_err() {
                pieces.stop();
            }
            None
        }
    }
}
