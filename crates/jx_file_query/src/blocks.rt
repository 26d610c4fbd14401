// The blocks of chunks of which an index keeps entries: a chunk, 64 neighbours, 64 of these, and so on.
ghost use Rattle.std.specs.Prelude.{◌≡◌, ◌<◌, ◌≤◌, ℕ, slice_get, IfSome};
ghost use Rattle.jx_file_index.specs.declared.index.Index.{Index};
ghost use Rattle.jx_file_index.specs.Chunks.{IsCount};
ghost use Rattle.jx_file_query.specs.inside.Blocks.{IsBlockAt, TellsOfBlock};

use jx_file_index::{Entry, Index};
use jx_lex::lex_of_two_parts;

/// How many neighbours of a level one entry of the level above is of.
const NEIGHBOURS: usize = 64;

/// A block of chunks of which an entry is kept. At the lowest level it is one chunk.
#[derive(Clone, Copy)]
pub(crate) struct Block {
    /// Where in the index the entries of its level begin.
    pub start: usize,
    /// How many these are.
    pub count: usize,
    /// How many chunks a block of its level has, but for the last one.
    pub chunks: usize,
    /// Its place in its level.
    pub place: usize,
}

/// How many parts of a size there are of what is so long; the last may be shorter.
fn part_count(long: usize, size: usize) -> usize
    requires { 64 ≤ size }
    ensures { IsCount size long result }
{
    if long % size == 0 {
        long / size
    } else {
        long / size + 1
    }
}

/// The block that is the chunk at a place.
pub(crate) fn lowest_at(index: &Index, at: usize) -> Block
    ensures { IsBlockAt index.now at result }
{
    Block {
        start: 0,
        count: part_count(index.size, index.chunk.bytes()),
        chunks: 1,
        place: at,
    }
}

impl Block {
    /// The block of the level above that begins where this one does, if there is one.
    pub(crate) fn above(self) -> Option<Block>
        ensures begins { IfSome result (λ above. (index : Index) (at : ℕ) → IsBlockAt index at self → IsBlockAt index at above) }
        ensures fewer { IfSome result (λ above. above.count < self.count) }
    {
        lex_of_two_parts();
        if self.count <= 1 || self.place % NEIGHBOURS != 0 {
            return None;
        }
        let start = self.start.checked_add(self.count)?;
        let chunks = self.chunks.checked_mul(NEIGHBOURS)?;
        Some(Block {
            start,
            count: part_count(self.count, NEIGHBOURS),
            chunks,
            place: self.place / NEIGHBOURS,
        })
    }
}

/// An entry at a place among all that are kept.
fn kept_at(index: &Index, at: usize) -> Option<Entry>
    ensures { result ≡ slice_get index.now.entries.items at }
{
    index.entries.as_slice().get(at).copied()
}

/// The entry of a block, where more of the text follows it.
pub(crate) fn entry_of(index: &Index, block: Block) -> Option<Entry>
    ensures { IfSome result (TellsOfBlock index.now block) }
{
    let at = block.start.checked_add(block.place)?;
    kept_at(index, at)
}
