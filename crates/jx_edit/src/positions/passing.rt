// Positions among all chunks: groups of them are passed by their sums.
ghost use Rattle.std.specs.Prelude.{◌≡◌, ◌≤◌, ◌<◌, ◌+◌, ◌*◌, ◌^◌, length, take};
ghost use Rattle.jx_edit.specs.inside.Chunks.{text_of};
ghost use Rattle.jx_edit.specs.inside.Passing.{is_before, IsPassed};
ghost use Rattle.jx_edit.specs.inside.Sums.{AreSums};
ghost use Rattle.jx_edit.specs.Positions.{position_behind, reach};

use crate::chunking::chunk::Chunk;
use crate::chunking::sums::{Sum, chunks_before};
use crate::positions::encoding::Encoding;
use crate::positions::moves::kept_by;
use crate::positions::position::{Position, Reached};
use crate::positions::seek::{position_in, reach_in};

/// The start of a chunk: how many chunks and bytes are before it, and the position to which they lead.
#[derive(Clone, Copy)]
struct Passed {
    before: usize,
    bytes: usize,
    position: Position,
}

/// A position or an offset that is sought among chunks.
#[derive(Clone, Copy)]
enum Sought {
    At(usize),
    To(Position),
}

impl Sought {
    /// Whether it lies before a border.
    fn is_before(self, border: Passed) -> bool
        ensures { result ≡ is_before self border }
    {
        match self {
            Sought::At(offset) => offset < border.bytes,
            Sought::To(position) => border.position.is_behind(position),
        }
    }
}

/// Passes the groups before what is sought, as far as their sums count by this encoding.
fn pass_groups(
    chunks: &[Chunk],
    sums: &[Sum],
    from: Position,
    sought: Sought,
    encoding: Encoding,
) -> Passed
    requires sums { AreSums chunks.now sums.now }
    requires lines { from.line + length (text_of chunks.now) < 2 ^ 64 }
    requires characters { from.character + 2 * length (text_of chunks.now) < 2 ^ 64 }
    ensures { IsPassed encoding from sought chunks.now result }
{
    let mut passed = Passed {
        before: 0,
        bytes: 0,
        position: from,
    };
    for group in 0..sums.len() {
        let sum = sums[group];
        let Some(moves) = kept_by(sum.moves, encoding) else {
            return passed;
        };
        let next = Passed {
            before: chunks_before(group + 1, chunks.len()),
            bytes: passed.bytes + sum.bytes,
            position: passed.position.joined(moves),
        };
        if sought.is_before(next) {
            return passed;
        }
        passed = next;
    }
    passed
}

/// The position after so many bytes of chunks of which the first stands at one, or after all of them.
pub(crate) fn position_at(
    chunks: &[Chunk],
    sums: &[Sum],
    from: Position,
    at: usize,
    encoding: Encoding,
) -> Position
    requires sums { AreSums chunks.now sums.now }
    requires lines { from.line + length (text_of chunks.now) < 2 ^ 64 }
    requires characters { from.character + 2 * length (text_of chunks.now) < 2 ^ 64 }
    ensures { result ≡ position_behind encoding from (take at (text_of chunks.now)) }
{
    let border = pass_groups(chunks, sums, from, Sought::At(at), encoding);
    let rest = &chunks[border.before..];
    position_in(rest, border.position, at - border.bytes, encoding)
}

/// How many bytes of chunks, of which the first stands at one position, come before the next position is after another.
pub(crate) fn reach_at(
    chunks: &[Chunk],
    sums: &[Sum],
    from: Position,
    to: Position,
    encoding: Encoding,
) -> Reached
    requires sums { AreSums chunks.now sums.now }
    requires lines { from.line + length (text_of chunks.now) < 2 ^ 64 }
    requires characters { from.character + 2 * length (text_of chunks.now) < 2 ^ 64 }
    ensures count { result.count ≡ reach encoding from to (text_of chunks.now) }
    ensures within { result.count ≤ length (text_of chunks.now) }
    ensures position { result.position ≡ position_behind encoding from (take result.count (text_of chunks.now)) }
{
    let border = pass_groups(chunks, sums, from, Sought::To(to), encoding);
    let rest = &chunks[border.before..];
    let near = reach_in(rest, border.position, to, encoding);
    Reached {
        count: border.bytes + near.count,
        position: near.position,
    }
}
