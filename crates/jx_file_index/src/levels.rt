// The levels of an index, each of the joins of 64 neighbours of the one below.
ghost use Rattle.std.specs.Prelude.{◌≡◌, ◌≤◌, ◌<◌, ◌*◌, fold, length, IfOk, IfNone, IfSome};
ghost use Rattle.std.specs.List.{flat_map, list_any};
ghost use Rattle.jx_file_index.specs.Chunks.{IsCount, part};
ghost use Rattle.jx_file_index.specs.Index.{expect_of, joined_entry, joined_of, state_of, AreLevels};
ghost use Rattle.jx_file_index.specs.Digest.{xxh64};
ghost use Rattle.jx_file_index.specs.Spelling.{spelt_entry};
ghost use Rattle.jx_file_index.specs.Sums.{joined, nothing};

use crate::digest::digest_of;
use crate::entry::Entry;
use crate::index_spelling::put_entries;
use crate::sum::Sum;
use jx_lex::LexState;
use jx_reduce::Expect;
use std::alloc::{AllocError, Global};

/// How many neighbours are joined.
pub(crate) const BLOCK: usize = 64;

/// Where the reading of neighbours begins.
fn begin_of(block: &[Entry]) -> (LexState, Expect)
    ensures { (result.0 ≡ state_of block.now) × (result.1 ≡ expect_of block.now) }
{
    match block {
        [] => (LexState::Gap, Expect::Value),
        [first, ..] => (first.state, first.expect),
    }
}

/// The sum of neighbours. There is none where a count is too large to be held.
fn sum_of(block: &[Entry]) -> Option<Sum>
    ensures { IfSome result (λ s. s ≡ fold (λ s e. joined s e.sum) nothing block.now) }
{
    let mut sum = Sum::new();
    for entry in block {
        sum = sum.join(entry.sum)?;
    }
    Some(sum)
}

/// Whether a token start begins in one of them.
fn any_begins(block: &[Entry]) -> bool
    ensures { result ≡ list_any (λ e. e.begins) block.now }
{
    block.iter().any(|entry| entry.begins)
}

/// Whether an end shows in one of them.
fn any_ends(block: &[Entry]) -> bool
    ensures { result ≡ list_any (λ e. e.ends) block.now }
{
    block.iter().any(|entry| entry.ends)
}

/// XXH64 of their entries.
fn digest_of_entries(alloc: Global, block: &[Entry]) -> Result<u64, AllocError>
    ensures { IfOk result (λ digest. digest ≡ xxh64 (flat_map spelt_entry block.now)) }
{
    let mut spelt = Vec::new(alloc);
    put_entries(block, &mut spelt)?;
    Ok(digest_of(&spelt))
}

/// The entry of neighbours.
fn joined_entry(alloc: Global, block: &[Entry]) -> Result<Entry, AllocError>
    ensures { IfOk result (λ e. e ≡ joined_entry block.now) }
{
    let (state, expect) = begin_of(block);
    let Some(sum) = sum_of(block) else {
        return Err(AllocError);
    };
    let digest = digest_of_entries(alloc, block)?;
    Ok(Entry {
        state,
        expect,
        sum,
        begins: any_begins(block),
        ends: any_ends(block),
        digest,
    })
}

/// A block of a level, the last one with what is left.
fn block_at(level: &[Entry], n: usize) -> &[Entry]
    requires { n * 64 ≤ length level.now }
    ensures { result.now ≡ part 64 level.now n }
{
    let behind = &level[n * BLOCK..level.len()];
    if behind.len() <= BLOCK {
        behind
    } else {
        &behind[0..BLOCK]
    }
}

/// How many blocks a level has.
pub(crate) fn block_count(entries: usize) -> usize
    ensures { IsCount 64 entries result }
{
    if entries % BLOCK == 0 {
        entries / BLOCK
    } else {
        entries / BLOCK + 1
    }
}

/// The level above.
#[tactic(auto, unfolding(crate::specs::Index::joined_of))]
fn level_above(alloc: Global, level: &[Entry], count: usize) -> Result<Vec<Entry>, AllocError>
    requires { IsCount 64 (length level.now) count }
    ensures joined { IfOk result (λ above. above.items ≡ joined_of level.now count) }
    ensures count { IfOk result (λ above. length above.items ≡ count) }
{
    let mut above = Vec::new(alloc);
    'joins: for n in 0..count {
        above.push(joined_entry(alloc, block_at(level, n))?)?;
    }
    Ok(above)
}

/// The entries of a level and those above it.
#[derive(Drop)]
pub struct Levels {
    pub entries: Vec<Entry>,
    pub top: Entry,
}

/// The entries of the lowest level and those above it; nothing where it has no entry.
pub fn levels_of(alloc: Global, lowest: Vec<Entry>) -> Result<Option<Levels>, AllocError>
    ensures levels { IfOk result (λ levels. IfSome levels (λ l. AreLevels lowest.items l.entries.items l.top)) }
    ensures none { IfOk result (λ levels. IfNone levels (length lowest.items ≡ 0)) }
{
    let mut entries = Vec::new(alloc);
    let mut level = lowest;
    'levels: while level.len() > 1 {
        let count = block_count(level.len());
        let above = level_above(alloc, &level, count)?;
        entries.extend_from_slice(&level)?;
        level = above;
    }
    if level.is_empty() {
        return Ok(None);
    }
    let top = level[0];
    Ok(Some(Levels { entries, top }))
}
