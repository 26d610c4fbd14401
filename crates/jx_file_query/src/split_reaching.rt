// How far chunks are read, or skipped.
ghost use Rattle.std.specs.Prelude.{◌≡◌, ◌+◌, ◌≤◌, ℕ, List, Some, slice_range, IfNone, IfOk, IfSome};
ghost use Rattle.jx_run.specs.declared.texts.settings.Settings.{Settings};
ghost use Rattle.jx_file_query.specs.Chunks.{chunk_at};
ghost use Rattle.jx_file_query.specs.Known.{IsKnown};
ghost use Rattle.jx_file_query.specs.Cuts.{cuts_of};
ghost use Rattle.jx_file_query.specs.Split.{IsCutAt};
ghost use Rattle.jx_file_query.specs.declared.cutting.Parting.{Parting as CuttingOf};

use crate::chunks::{chunk_at, kept_of, step};
use crate::cutting::{Aim, Parting};
use crate::split_passing::pass;
use crate::split_reading::read_chunk;
use jx_file_index::{Index, Sum};
use jx_lex::{Span, lex_of_two_parts};
use std::alloc::{AllocError, Global};

/// How far chunks were skipped, and what the token starts led to.
#[derive(Drop)]
pub(crate) struct Reached {
    pub held: Parting,
    pub at: usize,
}

/// The sum after the chunk at a place, where it need not be read. The first chunk is read.
fn sum_over(index: &Index, aim: Aim, held: &Parting, at: usize) -> Option<Sum>
    ensures { IfSome result (λ sum. (settings : Settings) (chunk : ℕ) (text : List ℕ) → IsKnown settings chunk text index.now → IsCutAt settings chunk text aim at (cuts_of held.now)
        → IsCutAt settings chunk text aim (at + 1) (record (cuts_of held.now) { sum = sum })) }
{
    lex_of_two_parts();
    if at == 0 {
        return None;
    }
    let span = chunk_at(index, at)?;
    let here = kept_of(index, at, span)?;
    pass(held, aim, span, here.sum)
}

/// Skips all chunks from a place on that need not be read.
fn pass_on(index: &Index, aim: Aim, held: Parting, at: usize) -> Reached
    ensures later { at ≤ result.at }
    ensures cut { (settings : Settings) (chunk : ℕ) (text : List ℕ) → IsKnown settings chunk text index.now → IsCutAt settings chunk text aim at (cuts_of held)
        → IsCutAt settings chunk text aim result.at (cuts_of result.held) }
{
    let mut held = held;
    let mut at = at;
    let end = index.entries.len();
    'chunks: while at < end {
        let Some(sum) = sum_over(index, aim, &held, at) else {
            return Reached { held, at };
        };
        held.sum = sum;
        at += 1;
    }
    Reached { held, at }
}

/// Reads the chunk at a place after what the token starts before it led to, and skips those after it that need not be
/// read; none where the chunk and the index are not of one text.
pub(crate) fn read_on(
    alloc: Global,
    index: &Index,
    aim: Aim,
    held: Option<Parting>,
    at: usize,
    span: Span,
    bytes: &[u8],
) -> Result<Option<Reached>, AllocError>
    requires here { chunk_at index.now at ≡ Some span }
    ensures none { IfOk result (λ read. IfNone read ((settings : Settings) (chunk : ℕ) (text : List ℕ) → IsKnown settings chunk text index.now → bytes.now ≡ slice_range text span.start span.end → ⊥)) }
    ensures later { IfOk result (λ read. IfSome read (λ reached. at + 1 ≤ reached.at)) }
    ensures cut { IfOk result (λ read. IfSome read (λ reached. (before : CuttingOf) → held ≡ Some before → (settings : Settings) (chunk : ℕ) (text : List ℕ) → IsKnown settings chunk text index.now
        → bytes.now ≡ slice_range text span.start span.end → IsCutAt settings chunk text aim at (cuts_of before) → IsCutAt settings chunk text aim reached.at (cuts_of reached.held))) }
{
    let Some(held) = held else {
        return Err(AllocError);
    };
    let read = read_chunk(alloc, index, aim, held, at, span, bytes)?;
    let Some(next) = read else {
        return Ok(None);
    };
    let later = step(at)?;
    let reached = pass_on(index, aim, next, later);
    Ok(Some(reached))
}
