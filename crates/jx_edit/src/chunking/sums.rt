// Sums of chunks that stand together, so that they need not be looked at one by one.
ghost use Rattle.std.specs.Prelude.{◌≡◌, ◌≤◌, ◌<◌, ◌+◌, ◌*◌, ◌^◌, IfOk, IfSome, length, min};
ghost use Rattle.jx_edit.specs.inside.Chunks.{text_of};
ghost use Rattle.jx_edit.specs.inside.Moves.{AreMoves};
ghost use Rattle.jx_edit.specs.inside.Sums.{AreSums, AreSumsBut, IsBorder, IsSum};

use crate::chunking::chunk::Chunk;
use crate::positions::encoding::Encoding;
use crate::positions::moves::Moves;
use crate::positions::position::Position;
use crate::positions::seek::position_in;
use std::alloc::{AllocError, Global};

/// How many chunks are in a group. The fewer there are, the fewer are looked at in one, and the more groups there are.
pub(crate) const GROUP: usize = 64;

/// The counts that are kept of the chunks of a group.
#[derive(Clone, Copy)]
pub(crate) struct Sum {
    /// How many bytes they have together.
    pub(crate) bytes: usize,
    /// Whether each of them is known to be linked.
    pub(crate) linked: bool,
    /// How far they move a position on together, where that is counted.
    pub(crate) moves: Option<Moves>,
}

impl Sum {
    /// One of which nothing is known.
    pub(crate) fn unknown() -> Sum {
        Sum {
            bytes: 0,
            linked: false,
            moves: None,
        }
    }
}

/// The start of a chunk: how many chunks and bytes are before it.
#[derive(Clone, Copy)]
pub(crate) struct Border {
    pub(crate) before: usize,
    pub(crate) bytes: usize,
}

/// How many of so many chunks are before a group.
pub(crate) fn chunks_before(group: usize, count: usize) -> usize
    ensures { result ≡ min (group * 64) count }
{
    group.saturating_mul(GROUP).min(count)
}

/// How many groups have room for so many chunks.
pub(crate) fn groups_for(count: usize) -> usize
    ensures enough { count < result * 64 }
    ensures few { result * 64 ≤ count + 64 }
{
    count / GROUP + 1
}

/// The last group that begins before a place, or the first one.
pub(crate) fn border_before(chunks: &[Chunk], sums: &[Sum], at: usize) -> Border
    requires fits { length (text_of chunks.now) < 2 ^ 64 }
    requires sums { AreSums chunks.now sums.now }
    ensures { IsBorder chunks.now at result.before result.bytes }
{
    let mut bytes = 0usize;
    for group in 0..sums.len() {
        let next = bytes + sums[group].bytes;
        if at <= next {
            return Border {
                before: chunks_before(group, chunks.len()),
                bytes,
            };
        }
        bytes = next;
    }
    Border {
        before: chunks.len(),
        bytes,
    }
}

/// How far chunks move a position on together, where that is counted.
fn moves_of(chunks: &[Chunk], counted: Option<Encoding>) -> Option<Moves>
    requires { length (text_of chunks.now) < 2 ^ 63 }
    ensures { IfSome result (AreMoves (text_of chunks.now)) }
{
    match counted {
        None => None,
        Some(encoding) => {
            let position = position_in(chunks, Position::first(), usize::MAX, encoding);
            Some(Moves { encoding, position })
        }
    }
}

/// The sum of a group.
fn sum_of(chunks: &[Chunk], group: usize, counted: Option<Encoding>) -> Sum
    requires { length (text_of chunks.now) < 2 ^ 63 }
    ensures { IsSum chunks.now group result }
{
    let first = chunks_before(group, chunks.len());
    let end = first.saturating_add(GROUP).min(chunks.len());
    let mut bytes = 0usize;
    let mut linked = true;
    for place in first..end {
        let chunk = &chunks[place];
        bytes += chunk.bytes().len();
        linked &= chunk.is_linked();
    }
    let moves = moves_of(&chunks[first..end], counted);
    Sum {
        bytes,
        linked,
        moves,
    }
}

/// Makes the sums of the groups from `first` up to `end` anew.
pub(crate) fn renew(
    chunks: &[Chunk],
    sums: &mut [Sum],
    first: usize,
    end: usize,
    counted: Option<Encoding>,
)
    requires fits { length (text_of chunks.now) < 2 ^ 63 }
    requires within { end ≤ length sums.old }
    requires others { AreSumsBut first end chunks.now sums.old }
    ensures sums { AreSums chunks.now sums.new }
    ensures count { length sums.new ≡ length sums.old }
{
    for group in first..end {
        sums[group] = sum_of(chunks, group, counted);
    }
}

/// The sums of all groups.
pub(crate) fn sums_of(
    alloc: Global,
    chunks: &[Chunk],
    counted: Option<Encoding>,
) -> Result<Vec<Sum>, AllocError>
    requires { length (text_of chunks.now) < 2 ^ 63 }
    ensures { IfOk result (λ sums. AreSums chunks.now sums.items) }
{
    let mut sums = Vec::new(alloc);
    let count = groups_for(chunks.len());
    sums.resize(count, Sum::unknown())?;
    renew(chunks, &mut sums, 0, count, counted);
    Ok(sums)
}
