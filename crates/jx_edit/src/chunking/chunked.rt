// A text in chunks.
ghost use Rattle.std.specs.Prelude.{◌≡◌, ◌≤◌, ◌<◌, ◌+◌, ◌*◌, ◌^◌, ◌++◌, ℕ, Err, IfOk, IfSome, OnErr, OnOk, length, slice_range, take};
ghost use Rattle.std.specs.List.{concat};
ghost use Rattle.jx_edit.specs.Document.{edited};
ghost use Rattle.jx_edit.specs.Positions.{position_behind, reach};
ghost use Rattle.jx_edit.specs.inside.Places.{came_to};
ghost use Rattle.jx_edit.specs.inside.Replacements.{all_of};
ghost use Rattle.jx_run.specs.Reading.{read_text};
ghost use Rattle.jx_run.specs.Verdict.{Judged};

use crate::chunking::chunk::{Chunk, chunks_of, count_all};
use crate::chunking::chunks::Chunks;
use crate::chunking::making::chunks_by;
use crate::chunking::patch::{patch_of, piece_for, put};
use crate::chunking::replacement::Replacement;
use crate::chunking::seam::{between, rest_at};
use crate::chunking::sums::{Sum, sums_of};
use crate::positions::encoding::Encoding;
use crate::positions::passing::{position_at, reach_at};
use crate::positions::position::{Position, Reached};
use crate::reading::place::Place;
use crate::reading::standing::stand_behind;
use crate::reading::walk::walk;
use jx_lex::Depth;
use jx_run::Verdict;
use std::alloc::{AllocError, Global};
use std::marker::Model;
use std::thread::Threads;

/// A text in chunks, each with the run over its bytes. An edit reads the chunks that it touches, and no other.
#[derive(Drop)]
pub(crate) struct Chunked {
    alloc: Global,
    depth: Depth,
    len: usize,
    chunks: Vec<Chunk>,
    // the sum of each group of chunks
    sums: Vec<Sum>,
    // by which encoding chunks and sums count
    counted: Option<Encoding>,
}

impl Model for Chunked {
    ghost use Rattle.jx_edit.specs.inside.Chunks.{ChunkedValue, text_of};
    ghost use Rattle.jx_edit.specs.inside.Links.{IsKept};

    ghost Value = { ChunkedValue };

    ghost view = { λ t. record { depth = t.depth; bytes = text_of t.chunks.items } };

    ghost invariant = { λ t. IsKept t.depth t.len t.chunks.items t.sums.items };
}

/// How long the chunks are that an edit makes, where there are so many bytes. Twice the size is read in less than twice the
/// time, and leaves half as many chunks and sums.
const SIZE: usize = 32768;

/// The most bytes that a text may have: no slice has more. So twice as many units can be counted.
pub(crate) const MOST: usize = usize::MAX / 2;

impl Chunked {
    /// The text of these bytes, with counts by one encoding, if any. Fails only when out of memory.
    pub(crate) fn of(
        alloc: Global,
        bytes: &[u8],
        depth: Depth,
        counted: Option<Encoding>,
    ) -> Result<Chunked, AllocError>
        ensures depth { IfOk result (λ t. t.depth ≡ depth) }
        ensures bytes { IfOk result (λ t. t.bytes ≡ bytes.now) }
    {
        let piece = piece_for(bytes.len(), SIZE);
        let mut chunks = chunks_of(alloc, bytes, piece, depth)?;
        count_all(&mut chunks, counted)?;
        let sums = sums_of(alloc, &chunks, counted)?;
        Ok(Chunked {
            alloc,
            depth,
            len: bytes.len(),
            chunks,
            sums,
            counted,
        })
    }

    /// The text of these bytes with no counts, where so many workers each make a part of it.
    pub(crate) fn of_by<R: Threads + Sync>(
        rt: &R,
        alloc: Global,
        bytes: &[u8],
        depth: Depth,
        workers: usize,
    ) -> Result<Chunked, AllocError>
        ensures depth { IfOk result (λ t. t.depth ≡ depth) }
        ensures bytes { IfOk result (λ t. t.bytes ≡ bytes.now) }
    {
        let piece = piece_for(bytes.len(), SIZE);
        let chunks = chunks_by(rt, alloc, bytes, piece, depth, workers)?;
        let sums = sums_of(alloc, &chunks, None)?;
        Ok(Chunked {
            alloc,
            depth,
            len: bytes.len(),
            chunks,
            sums,
            counted: None,
        })
    }

    /// Where its memory comes from.
    pub(crate) fn allocator(&self) -> Global {
        self.alloc
    }

    /// How many bytes it has.
    pub(crate) fn len(&self) -> usize
        ensures { result ≡ length self.now.bytes }
    {
        self.len
    }

    /// The bytes from an offset on that stand in one chunk.
    pub(crate) fn chunk_at(&self, offset: usize) -> &[u8]
        ensures part { result.now ≡ slice_range self.now.bytes offset (offset + length result.now) }
        ensures some { offset < length self.now.bytes → 0 < length result.now }
    {
        rest_at(&self.chunks, &self.sums, offset)
    }

    /// Its bytes after a front, chunk by chunk.
    pub(crate) fn chunks_behind<'a>(&'a self, front: &'a [u8]) -> Chunks<'a>
        ensures { concat result ≡ front.now ++ self.now.bytes }
    {
        Chunks::of(front, &self.chunks)
    }

    /// The position after so many of its bytes, or after all, where the first stands at one.
    pub(crate) fn position_from(&self, from: Position, at: usize, encoding: Encoding) -> Position
        requires lines { from.line + length self.now.bytes < 2 ^ 64 }
        requires characters { from.character + 2 * length self.now.bytes < 2 ^ 64 }
        ensures { result ≡ position_behind encoding from (take at self.now.bytes) }
    {
        position_at(&self.chunks, &self.sums, from, at, encoding)
    }

    /// How many of its bytes, of which the first stands at one position, come before the next position is after another.
    pub(crate) fn reach_from(&self, from: Position, to: Position, encoding: Encoding) -> Reached
        requires lines { from.line + length self.now.bytes < 2 ^ 64 }
        requires characters { from.character + 2 * length self.now.bytes < 2 ^ 64 }
        ensures count { result.count ≡ reach encoding from to self.now.bytes }
        ensures within { result.count ≤ length self.now.bytes }
        ensures position { result.position ≡ position_behind encoding from (take result.count self.now.bytes) }
    {
        reach_at(&self.chunks, &self.sums, from, to, encoding)
    }

    /// The verdict on its bytes as a whole text (RFC 8259, section 2) whose first byte has this offset. Only chunks that
    /// may lead elsewhere than when they were last followed are followed.
    pub(crate) fn verdict(&mut self, start: usize) -> Result<Verdict, AllocError>
        requires fits { start + length self.old.bytes < 2 ^ 64 }
        ensures same { self.new ≡ self.old }
        ensures verdict { IfOk result (Judged start self.old.bytes self.old.depth) }
    {
        walk(
            self.alloc,
            self.depth,
            start,
            &mut self.chunks,
            &mut self.sums,
        )
    }

    /// Where a reading is after so many bytes, where a text begins with these. It is known after a verdict, and may be none
    /// before.
    pub(crate) fn stand(&self, at: usize) -> Result<Option<Place>, AllocError>
        requires within { at ≤ length self.now.bytes }
        ensures { IfOk result (λ found. IfSome found (λ p. (start : ℕ) → read_text self.now.depth start (take at self.now.bytes) ≡ came_to p)) }
    {
        stand_behind(self.alloc, self.depth, &self.chunks, &self.sums, at)
    }

    /// Puts other bytes in the place of those from `start` up to `end`. Where that is refused nothing changes.
    pub(crate) fn edit(
        &mut self,
        start: usize,
        end: usize,
        replacement: Replacement<'_>,
    ) -> Result<(), AllocError>
        requires order { start ≤ end }
        requires within { end ≤ length self.old.bytes }
        ensures depth { self.new.depth ≡ self.old.depth }
        ensures ok { OnOk result (self.new.bytes ≡ edited start end (all_of replacement.entry) self.old.bytes) }
        ensures err { OnErr result (self.new ≡ self.old) }
    {
        let kept = self.len - (end - start);
        if MOST < kept.saturating_add(replacement.len()) {
            return Err(AllocError);
        }
        let len = kept + replacement.len();
        let mut patch = patch_of(
            self.alloc,
            &self.chunks,
            &self.sums,
            start,
            end,
            replacement,
            SIZE,
            self.depth,
        )?;
        count_all(&mut patch.chunks, self.counted)?;
        put(
            &mut self.chunks,
            &mut self.sums,
            patch.first,
            patch.last,
            patch.chunks,
            self.counted,
        )?;
        self.len = len;
        Ok(())
    }

    /// A copy of the bytes from `start` up to `end`.
    pub(crate) fn copy(&self, start: usize, end: usize) -> Result<Vec<u8>, AllocError>
        requires order { start ≤ end }
        requires within { end ≤ length self.now.bytes }
        ensures { IfOk result (λ bytes. bytes.items ≡ slice_range self.now.bytes start end) }
    {
        between(self.alloc, &self.chunks, &self.sums, start, end)
    }
}
