// An index of the lines of a text that is fed by slices.
ghost use Rattle.std.specs.Prelude.{◌≡◌, ◌+◌, ◌*◌, ◌<◌, ◌≤◌, ◌++◌, ◌∷◌, [], ℕ, List, length, take, IfOk, IfSome, IsErr, OnOk, OnErr};
ghost use Rattle.jx_file_index.specs.Digest.{xxh64};
ghost use Rattle.jx_file_lines.specs.declared.line_index.LineEntry.{LineEntry};
ghost use Rattle.jx_file_lines.specs.Feeding.{AreEntered, HasFedLines, IsLostToLines};
ghost use Rattle.jx_file_lines.specs.Lines.{feeds_in};
ghost use Rattle.jx_file_lines.specs.Saved.{IsSavable};
ghost use Rattle.jx_file_lines.specs.TextLines.{IsLineIndexOf, feeds_before};

use crate::counting::feeds_in;
use crate::line_index::{LineEntry, LineIndex};
use jx_file_index::{ChunkSize, digest_of};
use std::alloc::{AllocError, Global};

/// How many line feeds there are before the chunk at a place, by these entries.
pub(crate) fn feeds_before(entries: &[LineEntry], place: usize) -> usize
    requires { place ≤ length entries.now }
    ensures { result ≡ feeds_before entries.now place }
{
    if place == 0 {
        return 0;
    }
    entries[place - 1].feeds
}

/// Adds the entry of one chunk more.
fn push_entry(entries: &mut Vec<LineEntry>, chunk: &[u8]) -> Result<(), AllocError>
    ensures { OnOk result (entries.new.items ≡ entries.old.items ++ record { feeds = feeds_before entries.old.items (length entries.old.items) + feeds_in chunk.now; digest = xxh64 chunk.now } ∷ []) }
{
    let before = feeds_before(entries, entries.len());
    let Some(feeds) = before.checked_add(feeds_in(chunk)) else {
        return Err(AllocError);
    };
    entries.push(LineEntry {
        feeds,
        digest: digest_of(chunk),
    })?;
    Ok(())
}

/// Reads a whole chunk, or what makes one of the part that is kept; if all bytes of the slice are fewer, these. Answers how
/// many.
fn feed_once(
    entries: &mut Vec<LineEntry>,
    part: &mut Vec<u8>,
    slice: &[u8],
    size: usize,
) -> Result<usize, AllocError>
    requires some { 0 < length slice.now }
    requires short { length part.old.items < size }
    ensures goes_on { IfOk result (λ len. 0 < len) }
    ensures within { IfOk result (λ len. len ≤ length slice.now) }
    ensures short { OnOk result (length part.new.items < size) }
    ensures entered { IfOk result (λ len. (bytes : List ℕ) → AreEntered size bytes entries.old.items part.old.items → AreEntered size (bytes ++ take len slice.now) entries.new.items part.new.items) }
{
    if part.is_empty() && slice.len() >= size {
        push_entry(entries, &slice[..size])?;
        return Ok(size);
    }
    let len = (size - part.len()).min(slice.len());
    part.extend_from_slice(&slice[..len])?;
    if part.len() == size {
        push_entry(entries, part)?;
        part.clear();
    }
    Ok(len)
}

/// Reads a slice after all bytes that were fed.
fn feed_all(
    entries: &mut Vec<LineEntry>,
    part: &mut Vec<u8>,
    slice: &[u8],
    size: usize,
) -> Result<(), AllocError>
    requires { length part.old.items < size }
    ensures { OnOk result ((bytes : List ℕ) → AreEntered size bytes entries.old.items part.old.items → AreEntered size (bytes ++ slice.now) entries.new.items part.new.items) }
{
    let mut at = 0;
    'slices: while at < slice.len() {
        at += feed_once(entries, part, &slice[at..], size)?;
    }
    Ok(())
}

/// How many bytes so many whole chunks and a part have.
fn size_of(chunks: usize, chunk: usize, part: usize) -> Option<usize>
    ensures { IfSome result (λ size. size ≡ chunks * chunk + part) }
{
    chunks.checked_mul(chunk)?.checked_add(part)
}

/// An index of the lines of a text that is fed by slices of any length. It keeps the entries of the chunks that were read,
/// and of the text less than one chunk.
#[derive(Drop)]
pub struct LineIndexer {
    chunk: ChunkSize,
    entries: Vec<LineEntry>,
    /// The bytes after the whole chunks.
    part: Vec<u8>,
    /// Out of memory.
    is_lost: bool,
}

impl LineIndexer {
    /// An indexer that was fed no byte, for chunks of this size. Nothing is allocated.
    pub fn new(alloc: Global, chunk: ChunkSize) -> LineIndexer
        ensures fed { HasFedLines chunk [] result }
    {
        // Shows the proof that a chunk has a byte.
        let _ = chunk.bytes();
        LineIndexer {
            chunk,
            entries: Vec::new(alloc),
            part: Vec::new(alloc),
            is_lost: false,
        }
    }

    /// Reads the slice after all bytes that it was fed. Fails only when out of memory; from then on every slice does.
    pub fn feed(&mut self, slice: &[u8]) -> Result<(), AllocError>
        ensures fed { OnOk result ((chunk : ℕ) (bytes : List ℕ) → HasFedLines chunk bytes self.old → HasFedLines chunk (bytes ++ slice.now) self.new) }
        ensures err { OnErr result (IsLostToLines self.new) }
        ensures lost { IsLostToLines self.old → IsErr result }
    {
        let size = self.chunk.bytes();
        // The part is shorter than a chunk, unless an earlier slice was refused.
        let was_lost = self.is_lost || self.part.len() >= size;
        self.is_lost = true;
        if was_lost {
            return Err(AllocError);
        }
        feed_all(&mut self.entries, &mut self.part, slice, size)?;
        self.is_lost = false;
        Ok(())
    }

    /// The index of exactly the bytes that it was fed. `Err` when out of memory, now or earlier, and where these are more
    /// than 2 ^ 64 - 1.
    pub fn finish(self) -> Result<LineIndex, AllocError>
        ensures index { IfOk result (λ index. (chunk : ℕ) (bytes : List ℕ) → HasFedLines chunk bytes self → IsLineIndexOf chunk bytes index) }
        // All of it fits its bytes.
        ensures savable { IfOk result (λ index. (chunk : ℕ) (bytes : List ℕ) → HasFedLines chunk bytes self → IsSavable index) }
        ensures lost { IsLostToLines self → IsErr result }
    {
        let LineIndexer {
            chunk,
            mut entries,
            part,
            is_lost,
        } = self;
        if is_lost {
            return Err(AllocError);
        }
        let Some(size) = size_of(entries.len(), chunk.bytes(), part.len()) else {
            return Err(AllocError);
        };
        if !part.is_empty() {
            push_entry(&mut entries, &part)?;
        }
        Ok(LineIndex {
            chunk,
            size,
            entries,
        })
    }
}
