// How far chunks are read, or skipped.
ghost use Rattle.std.specs.Prelude.{◌≡◌, ◌+◌, ◌<◌, ◌≤◌, ℕ, List, Some, slice_range, IfNone, IfOk, IfSome};
ghost use Rattle.jx_run.specs.declared.texts.settings.Settings.{Settings};
ghost use Rattle.jx_find.specs.declared.held.Sought.{Sought as SoughtOf};
ghost use Rattle.jx_file_query.specs.Chunks.{chunk_at};
ghost use Rattle.jx_file_query.specs.HeldAt.{IsHeldAt};
ghost use Rattle.jx_file_query.specs.Known.{IsKnown};
ghost use Rattle.jx_file_query.specs.Walk.{HasNamesOf};
ghost use Rattle.jx_file_query.specs.inside.Blocks.{IsBlockAt};
ghost use Rattle.jx_file_query.specs.inside.Members.{LeadsPast};
ghost use Rattle.jx_file_query.specs.inside.Stretch.{IsStretch};

use crate::among::{Past, pass_members};
use crate::blocks::{Block, entry_of, lowest_at};
use crate::chunks::{chunk_at, kept_of, step};
use crate::members::TextNames;
use crate::walk_passing::{Over, pass};
use crate::walk_reading::read_chunk;
use jx_file_index::Index;
use jx_find::Sought;
use jx_index::Edge;
use jx_lex::{Span, lex_of_two_parts};
use std::alloc::{AllocError, Global};

/// How far chunks were skipped, and what is kept there.
#[derive(Drop)]
pub(crate) struct Reached {
    pub held: Sought,
    pub at: usize,
}

/// A skip from a place on: the change of the state, and which chunk follows.
#[derive(Clone, Copy)]
pub(crate) struct Stretch {
    pub over: Over,
    pub end: usize,
}

/// The skip over a block, if it can be skipped. The first block and the last of each level cannot.
fn over_block(
    index: &Index,
    edges: &[Edge],
    held: &Sought,
    at: usize,
    block: Block,
) -> Option<Stretch>
    requires block { IsBlockAt index.now at block }
    ensures { IfSome result (IsStretch index.now edges.now held.now at) }
{
    lex_of_two_parts();
    if at == 0 {
        return None;
    }
    let end = at.checked_add(block.chunks)?;
    let here = entry_of(index, block)?;
    let later_span = chunk_at(index, end)?;
    let later = kept_of(index, end, later_span)?;
    let over = pass(held, edges, &here, &later)?;
    Some(Stretch { over, end })
}

/// The skip from a place on, if the chunk there can be skipped: the largest block that begins there of those that can.
/// Where a block can be skipped, the block below that begins with it can be too, so none is tried above one that is not
/// skipped.
fn over_from(index: &Index, edges: &[Edge], held: &Sought, at: usize) -> Option<Stretch>
    ensures { IfSome result (IsStretch index.now edges.now held.now at) }
{
    let mut block = lowest_at(index, at);
    let mut stretch = over_block(index, edges, held, at, block)?;
    'levels: while let Some(above) = block.above() {
        let Some(farther) = over_block(index, edges, held, at, above) else {
            return Some(stretch);
        };
        block = above;
        stretch = farther;
    }
    Some(stretch)
}

/// Skips chunks of the innermost object from a place on, by the names of the text, if they are known.
fn by_names(
    index: &Index,
    names: &Option<TextNames>,
    edges: &[Edge],
    held: &Sought,
    at: usize,
) -> Option<Past>
    ensures later { IfSome result (λ past. at < past.end) }
    ensures leads { IfSome result (λ past. LeadsPast index.now names.now edges.now held.now at past.among past.entry past.end) }
{
    match names {
        Some(names) => pass_members(index, names, edges, held, at),
        None => None,
    }
}

/// Skips chunks from a place on, if the first of them can be.
fn over_some(
    index: &Index,
    names: &Option<TextNames>,
    edges: &[Edge],
    held: Sought,
    at: usize,
) -> Reached
    ensures later { at ≤ result.at }
    ensures held { (settings : Settings) (chunk : ℕ) (text : List ℕ) → IsKnown settings chunk text index.now → HasNamesOf settings chunk text edges.now names.now → IsHeldAt settings chunk text edges.now at held
        → IsHeldAt settings chunk text edges.now result.at result.held }
{
    if let Some(stretch) = over_from(index, edges, &held, at) {
        let held = stretch.over.of(held);
        return Reached {
            held,
            at: stretch.end,
        };
    }
    let Some(past) = by_names(index, names, edges, &held, at) else {
        return Reached { held, at };
    };
    let held = past.of(held);
    Reached { held, at: past.end }
}

/// Skips all chunks from a place on that can be.
fn pass_on(
    index: &Index,
    names: &Option<TextNames>,
    edges: &[Edge],
    held: Sought,
    at: usize,
) -> Reached
    ensures later { at ≤ result.at }
    ensures held { (settings : Settings) (chunk : ℕ) (text : List ℕ) → IsKnown settings chunk text index.now → HasNamesOf settings chunk text edges.now names.now → IsHeldAt settings chunk text edges.now at held
        → IsHeldAt settings chunk text edges.now result.at result.held }
{
    let mut held = held;
    let mut at = at;
    let end = index.entries.len();
    'chunks: while at < end {
        let reached = over_some(index, names, edges, held, at);
        if reached.at <= at {
            return reached;
        }
        held = reached.held;
        at = reached.at;
    }
    Reached { held, at }
}

/// Reads the chunk at a place after what is kept, and skips those after it that can be; none where the chunk and the
/// index are not of one text.
pub(crate) fn read_on(
    alloc: Global,
    index: &Index,
    names: &Option<TextNames>,
    edges: &[Edge],
    starts: &[usize],
    held: Option<Sought>,
    at: usize,
    span: Span,
    bytes: &[u8],
) -> Result<Option<Reached>, AllocError>
    requires here { chunk_at index.now at ≡ Some span }
    ensures none { IfOk result (λ read. IfNone read ((before : SoughtOf) → held ≡ Some before → (settings : Settings) (chunk : ℕ) (text : List ℕ) → IsKnown settings chunk text index.now
        → bytes.now ≡ slice_range text span.start span.end → IsHeldAt settings chunk text edges.now at before → ⊥)) }
    ensures later { IfOk result (λ read. IfSome read (λ reached. at + 1 ≤ reached.at)) }
    ensures held { IfOk result (λ read. IfSome read (λ reached. (before : SoughtOf) → held ≡ Some before → (settings : Settings) (chunk : ℕ) (text : List ℕ) → IsKnown settings chunk text index.now
        → bytes.now ≡ slice_range text span.start span.end → HasNamesOf settings chunk text edges.now names.now → IsHeldAt settings chunk text edges.now at before → IsHeldAt settings chunk text edges.now reached.at reached.held)) }
{
    let Some(held) = held else {
        return Err(AllocError);
    };
    let read = read_chunk(alloc, index, edges, starts, held, at, span, bytes)?;
    let Some(next) = read else {
        return Ok(None);
    };
    let later = step(at)?;
    let reached = pass_on(index, names, edges, next, later);
    Ok(Some(reached))
}
