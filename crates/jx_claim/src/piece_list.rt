// How a division keeps its chunks: regular ones by their size, others by where they end.
ghost use Rattle.std.specs.Prelude.{◌≡◌, ℕ, ◌+◌, ◌*◌, ◌<◌, ◌≤◌, ◌∷◌, min, length, Some, IfOk, slice_get, slice_index};
ghost use Rattle.jx_claim.specs.Cut.{span, Tiles};
ghost use Rattle.jx_claim.specs.inside.Listed.{listed, between, IsRegular, AreEnded};

use jx_summary::Span;
use std::alloc::{AllocError, Global};

/// The chunks of a division, in order.
#[derive(Debug, Drop)]
pub enum PieceList {
    /// `count` chunks of `size` bytes each, but the last may have fewer.
    Every { size: usize, count: u32 },
    /// Where each chunk ends: at the cuts, and the last one at the length.
    At { ends: Vec<usize> },
}

impl PieceList {
    /// The number of chunks.
    pub fn count(&self) -> usize
        ensures { (len : ℕ) → result ≡ length (listed len self.now) }
    {
        match self {
            PieceList::Every { size: _, count } => *count as usize,
            PieceList::At { ends } => ends.len(),
        }
    }

    /// The chunk of this number, of a text of this length.
    pub fn piece(&self, len: usize, number: usize) -> Span
        requires low { number < length (listed len self.now) }
        requires regular { IsRegular len self.now }
        ensures { slice_get (listed len self.now) number ≡ Some result }
    {
        match self {
            PieceList::Every { size, count: _ } => regular_piece(len, *size, number),
            PieceList::At { ends } => piece_between(ends, number),
        }
    }

    /// A copy of the chunks.
    pub fn copy(&self, alloc: Global) -> Result<PieceList, AllocError>
        ensures same { IfOk result (λ copy. (len : ℕ) → listed len copy ≡ listed len self.now) }
        ensures regular { IfOk result (λ copy. (len : ℕ) → IsRegular len self.now → IsRegular len copy) }
    {
        match self {
            PieceList::Every { size, count } => Ok(PieceList::Every {
                size: *size,
                count: *count,
            }),
            PieceList::At { ends } => Ok(PieceList::At {
                ends: Vec::from_slice(alloc, ends)?,
            }),
        }
    }

    /// The number of chunks of a text of this length that end at an offset or before it.
    pub fn ended(&self, len: usize, offset: usize) -> usize
        requires covers { Tiles 0 (listed len self.now) len }
        requires regular { IsRegular len self.now }
        requires within { offset ≤ len }
        ensures { AreEnded offset result (listed len self.now) }
    {
        match self {
            PieceList::Every { size, count } => {
                if offset == len {
                    *count as usize
                } else {
                    offset / *size
                }
            }
            PieceList::At { ends } => ended_between(ends, offset),
        }
    }
}

/// How many of the chunks that end at these offsets end at an offset or before it.
fn ended_between(ends: &[usize], offset: usize) -> usize
    requires { (len : ℕ) × Tiles 0 (between 0 ends.now) len }
    ensures { AreEnded offset result (between 0 ends.now) }
{
    let mut ended = 0;
    while ended < ends.len() && ends[ended] <= offset {
        ended += 1;
    }
    ended
}

/// The chunk of this number among those of `size` bytes.
fn regular_piece(len: usize, size: usize, number: usize) -> Span
    requires { number * size < len }
    ensures { result ≡ span (number * size) (min (number * size + size) len) }
{
    let start = number * size;
    Span {
        start,
        end: start + size.min(len - start),
    }
}

/// The chunk of this number among those that end at these offsets.
fn piece_between(ends: &[usize], number: usize) -> Span
    requires { number < length ends.now }
    ensures { result ≡ span (slice_index (0 ∷ ends.now) number) (slice_index ends.now number) }
{
    if number == 0 {
        return Span {
            start: 0,
            end: ends[0],
        };
    }
    Span {
        start: ends[number - 1],
        end: ends[number],
    }
}
