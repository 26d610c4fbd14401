// Positions among a few chunks: those before the one that is looked for are passed by what they count.
ghost use Rattle.std.specs.Prelude.{◌≡◌, ◌≤◌, ◌<◌, ◌+◌, ◌*◌, ◌^◌, length, take};
ghost use Rattle.jx_edit.specs.inside.Chunks.{text_of};
ghost use Rattle.jx_edit.specs.Positions.{position_behind, reach};

use crate::chunking::chunk::Chunk;
use crate::positions::encoding::Encoding;
use crate::positions::position::{Position, Reached};

/// The position after so many bytes of chunks of which the first stands at one, or after all of them.
pub(crate) fn position_in(
    chunks: &[Chunk],
    from: Position,
    at: usize,
    encoding: Encoding,
) -> Position
    requires lines { from.line + length (text_of chunks.now) < 2 ^ 64 }
    requires characters { from.character + 2 * length (text_of chunks.now) < 2 ^ 64 }
    ensures { result ≡ position_behind encoding from (take at (text_of chunks.now)) }
{
    let mut position = from;
    let mut before = 0usize;
    for place in 0..chunks.len() {
        let chunk = &chunks[place];
        let bytes = chunk.bytes();
        let here = at - before;
        if here <= bytes.len() {
            return position.joined(chunk.position_behind(here, encoding));
        }
        position = position.joined(chunk.moves(encoding));
        before += bytes.len();
    }
    position
}

/// How many bytes of chunks, of which the first stands at one position, come before the next position is after another.
pub(crate) fn reach_in(
    chunks: &[Chunk],
    from: Position,
    to: Position,
    encoding: Encoding,
) -> Reached
    requires lines { from.line + length (text_of chunks.now) < 2 ^ 64 }
    requires characters { from.character + 2 * length (text_of chunks.now) < 2 ^ 64 }
    ensures count { result.count ≡ reach encoding from to (text_of chunks.now) }
    ensures within { result.count ≤ length (text_of chunks.now) }
    ensures position { result.position ≡ position_behind encoding from (take result.count (text_of chunks.now)) }
{
    let mut position = from;
    let mut before = 0usize;
    for place in 0..chunks.len() {
        let chunk = &chunks[place];
        let next = position.joined(chunk.moves(encoding));
        if next.is_behind(to) {
            let here = chunk.reach(position, to, encoding);
            return Reached {
                count: before + here.count,
                position: here.position,
            };
        }
        position = next;
        before += chunk.bytes().len();
    }
    Reached {
        count: before,
        position,
    }
}
