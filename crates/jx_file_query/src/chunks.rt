// The chunks of a text, as its index has them.
ghost use Rattle.std.specs.Prelude.{◌≡◌, ◌≢◌, ◌+◌, ◌*◌, ◌<◌, ◌≤◌, ℕ, List, Some, length, slice_get, slice_range, false, IfOk, IfSome, IsTrue};
ghost use Rattle.jx_run.specs.declared.texts.settings.Settings.{Settings};
ghost use Rattle.jx_file_index.specs.declared.entry.Entry.{Entry};
ghost use Rattle.jx_file_index.specs.Chunks.{before, entry_behind, part};
ghost use Rattle.jx_file_index.specs.Digest.{xxh64};
ghost use Rattle.jx_file_index.specs.Index.{AreLevels, IsIndexOf};
ghost use Rattle.jx_file_query.specs.Chunks.{chunk_at};
ghost use Rattle.jx_file_query.specs.Known.{IsKnown};

use jx_file_index::{Entry, Index, digest_of};
use jx_lex::Span;
use std::alloc::AllocError;

/// The span of the chunk at a place in the text, if it has one there.
#[tactic(auto, using(crate::proofs::Chunkings::none_at))]
pub fn chunk_at(index: &Index, at: usize) -> Option<Span>
    ensures value { result ≡ chunk_at index.now at }
    ensures some { IfSome result (λ span. span.start < span.end) }
    ensures within { IfSome result (λ span. span.end ≤ index.now.size) }
{
    let size = index.size;
    let chunk = index.chunk.bytes();
    let Some(start) = at.checked_mul(chunk) else {
        return None;
    };
    if start >= size {
        return None;
    }
    let end = if size - start < chunk {
        size
    } else {
        start + chunk
    };
    Some(Span { start, end })
}

/// The entry of the chunk at a place. Of a text of one chunk that is the top.
pub(crate) fn entry_at(index: &Index, at: usize) -> Option<Entry>
    ensures { (es : List Entry) → AreLevels es index.now.entries.items index.now.top → at < length es → result ≡ slice_get es at }
{
    if index.entries.is_empty() {
        return Some(index.top);
    }
    index.entries.as_slice().get(at).copied()
}

/// One chunk further.
pub(crate) fn step(at: usize) -> Result<usize, AllocError>
    ensures { IfOk result (λ next. next ≡ at + 1) }
{
    at.checked_add(1).ok_or(AllocError)
}

/// The entry of the chunk at a place where the text has one.
pub(crate) fn kept_of(index: &Index, at: usize, span: Span) -> Option<Entry>
    requires here { chunk_at index.now at ≡ Some span }
    ensures at { chunk_at index.now at ≡ Some span }
    ensures kept { IfSome result (λ e. (settings : Settings) (chunk : ℕ) (text : List ℕ) → IsKnown settings chunk text index.now → e ≡ entry_behind (before settings text (at * chunk)) (part chunk text at)) }
{
    entry_at(index, at)
}

/// Whether bytes are as long as the chunk at a place, and have the digest that is kept of it.
pub fn is_kept(index: &Index, at: usize, span: Span, bytes: &[u8]) -> bool
    ensures same { IsTrue result → (settings : Settings) (chunk : ℕ) (text : List ℕ) → IsIndexOf settings chunk text index.now → chunk_at index.now at ≡ Some span
        → xxh64 bytes.now ≡ xxh64 (slice_range text span.start span.end) }
    ensures other { result ≡ false → (settings : Settings) (chunk : ℕ) (text : List ℕ) → IsIndexOf settings chunk text index.now → chunk_at index.now at ≡ Some span
        → bytes.now ≢ slice_range text span.start span.end }
{
    match entry_at(index, at) {
        Some(entry) => bytes.len() == span.end.saturating_sub(span.start)
            && digest_of(bytes) == entry.digest,
        None => false,
    }
}
