// Where a line begins, by the index of a text's lines.
ghost use Rattle.std.specs.Prelude.{◌≡◌, ◌≢◌, ◌+◌, ◌*◌, ◌<◌, ◌≤◌, ℕ, List, false, length, min, IfNone, IfSome, IsTrue};
ghost use Rattle.jx_file_index.specs.Chunks.{part};
ghost use Rattle.jx_file_index.specs.Digest.{xxh64};
ghost use Rattle.jx_file_lines.specs.Lines.{feeds_in, line_start};
ghost use Rattle.jx_file_lines.specs.Places.{BeginsAt, IsWithinChunks};
ghost use Rattle.jx_file_lines.specs.TextLines.{IsLineIndexOf, feeds_before};

use crate::line_index::{LineEntry, LineIndex};
use crate::line_indexer::feeds_before;
use jx_file_index::digest_of;
use jx_summary::Span;
use memchr::memchr;

/// Where a line begins, as far as the index says.
#[derive(Clone, Copy, Debug, PartialEq, Eq)]
pub enum LinePlace {
    /// At this offset of the text.
    At(usize),
    /// In a chunk of the text, counted from 0, just behind so many line feeds of that chunk.
    Behind { chunk: usize, feeds: usize },
}

/// The offset just behind so many line feeds of these bytes, if they have as many.
pub fn behind_feeds(bytes: &[u8], feeds: usize) -> Option<usize>
    ensures start { IfSome result (λ at. at ≡ line_start feeds bytes.now) }
    ensures within { IfSome result (λ at. at ≤ length bytes.now) }
    ensures fewer { IfNone result (feeds_in bytes.now < feeds) }
{
    let mut at = 0;
    'feeds: for _ in 0..feeds {
        let rest = &bytes[at..];
        match memchr(b'\n', rest) {
            None => return None,
            Some(end) => at += end + 1,
        }
    }
    Some(at)
}

/// The first chunk up to whose end the text has so many line feeds; as many as there are chunks, where it has fewer.
fn chunk_with(entries: &[LineEntry], feeds: usize) -> usize
    requires { 0 < feeds }
    ensures within { result ≤ length entries.now }
    ensures before { feeds_before entries.now result < feeds }
    ensures has { result < length entries.now → feeds ≤ feeds_before entries.now (result + 1) }
{
    let mut low = 0;
    let mut high = entries.len();
    'halves: while low < high {
        let middle = low + (high - low) / 2;
        if feeds_before(entries, middle + 1) < feeds {
            low = middle + 1;
        } else {
            high = middle;
        }
    }
    low
}

impl LineIndex {
    /// How many line feeds the text has.
    pub fn feeds(&self) -> usize
        ensures { (chunk : ℕ) (text : List ℕ) → IsLineIndexOf chunk text self.now → result ≡ feeds_in text }
    {
        feeds_before(&self.entries, self.entries.len())
    }

    /// Where the line behind so many line feeds of the text begins; the end of the text where it has fewer. So line N, counted
    /// from 1, is behind N - 1.
    pub fn place_behind(&self, feeds: usize) -> LinePlace
        ensures begins { (chunk : ℕ) (text : List ℕ) → IsLineIndexOf chunk text self.now → BeginsAt chunk text feeds result }
        ensures within { IsWithinChunks (length self.now.entries.items) result }
    {
        if feeds == 0 {
            return LinePlace::At(0);
        }
        let chunk = chunk_with(&self.entries, feeds);
        if chunk == self.entries.len() {
            return LinePlace::At(self.size);
        }
        LinePlace::Behind {
            chunk,
            feeds: feeds - feeds_before(&self.entries, chunk),
        }
    }

    /// The span of the chunk at a place, counted from 0, if the text has one there.
    pub fn chunk_span(&self, place: usize) -> Option<Span>
        ensures start { IfSome result (λ span. span.start ≡ place * self.now.chunk) }
        ensures end { IfSome result (λ span. span.end ≡ min (place * self.now.chunk + self.now.chunk) self.now.size) }
        ensures some { IfSome result (λ span. span.start < span.end) }
    {
        let chunk = self.chunk.bytes();
        let Some(start) = place.checked_mul(chunk) else {
            return None;
        };
        if start >= self.size {
            return None;
        }
        let end = if self.size - start < chunk {
            self.size
        } else {
            start + chunk
        };
        Some(Span { start, end })
    }

    /// Whether bytes have the checksum that is kept of the chunk at a place.
    pub fn is_kept(&self, place: usize, bytes: &[u8]) -> bool
        ensures same { IsTrue result → (chunk : ℕ) (text : List ℕ) → IsLineIndexOf chunk text self.now → xxh64 bytes.now ≡ xxh64 (part chunk text place) }
        ensures other { result ≡ false → (chunk : ℕ) (text : List ℕ) → IsLineIndexOf chunk text self.now → place < length self.now.entries.items → bytes.now ≢ part chunk text place }
    {
        if place >= self.entries.len() {
            return false;
        }
        digest_of(bytes) == self.entries[place].digest
    }
}
