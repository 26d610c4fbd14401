// Positions of a document that are near to one that is known.
ghost use Rattle.std.specs.Prelude.{◌≡◌, ◌≤◌, ℕ, List, IfSome, length, slice_range, take};
ghost use Rattle.jx_edit.specs.Positions.{position_at};

use jx_edit::{Document, Encoding, Position};

/// How many bytes are counted on from a known position at most. The document counts about as many for any other.
const NEAR: usize = 128;

/// An offset of a document, and its position.
#[derive(Clone, Copy)]
pub(crate) struct Known {
    pub(crate) offset: usize,
    pub(crate) position: Position,
}

/// The bytes from one offset up to another, where they are few.
fn few_between(bytes: &[u8], from: usize, to: usize) -> Option<&[u8]>
    ensures ordered { IfSome result (λ between. from ≤ to) }
    ensures within { IfSome result (λ between. to ≤ length bytes.now) }
    ensures between { IfSome result (λ between. between.now ≡ slice_range bytes.now from to) }
{
    if NEAR < to.saturating_sub(from) {
        return None;
    }
    bytes.get(from..to)
}

/// The bytes of a text before an offset, or all.
pub(crate) fn beginning(text: &[u8], kept: usize) -> &[u8]
    ensures { (bytes : List ℕ) → take kept text.now ≡ take kept bytes → take (length result.now) bytes ≡ result.now }
{
    &text[..kept.min(text.len())]
}

/// The position of an offset, counted on from one that is known, where few bytes are between. They are at hand.
fn counted_on(before: &[u8], known: Known, offset: usize, encoding: Encoding) -> Option<Position>
    ensures { (bytes : List ℕ) → take (length before.now) bytes ≡ before.now → known.position ≡ position_at encoding bytes known.offset
        → IfSome result (λ position. position ≡ position_at encoding bytes offset) }
{
    match few_between(before, known.offset, offset) {
        None => None,
        Some(between) => known.position.after(between, encoding),
    }
}

/// The position of an offset of a document, by one that is known. Bytes with which the document begins are at hand.
pub(crate) fn position_near(
    document: &Document,
    before: &[u8],
    known: Known,
    offset: usize,
    encoding: Encoding,
) -> Known
    requires begins { take (length before.now) document.now.bytes ≡ before.now }
    requires known { known.position ≡ position_at encoding document.now.bytes known.offset }
    ensures offset { result.offset ≡ offset }
    ensures position { result.position ≡ position_at encoding document.now.bytes offset }
    ensures known { result.position ≡ position_at encoding document.now.bytes result.offset }
{
    let position = match counted_on(before, known, offset, encoding) {
        Some(position) => position,
        None => document.position_of(offset, encoding),
    };
    Known { offset, position }
}
