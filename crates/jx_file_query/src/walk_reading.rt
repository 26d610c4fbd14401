// A chunk that is read after what is kept of the bytes before it.
ghost use Rattle.std.specs.Prelude.{◌≡◌, ◌+◌, ◌++◌, ℕ, List, Some, is_some, length, slice_range, false, true, IfNone, IfOk, IfSome};
ghost use Rattle.jx_lex.specs.declared.alphabet.mark.Mark.{Mark};
ghost use Rattle.jx_lex.specs.declared.alphabet.state.LexState.{LexState};
ghost use Rattle.jx_lex.specs.Lex as lexical;
ghost use Rattle.jx_lex.specs.Lex.{lex};
ghost use Rattle.jx_lex.specs.TokenStates.{in_token};
ghost use Rattle.jx_run.specs.Reader.{is_fault, read_by};
ghost use Rattle.jx_run.specs.Telling.{moved_ends, moved_marks, tokens_by};
ghost use Rattle.jx_run.specs.declared.texts.settings.Settings.{Settings};
ghost use Rattle.jx_index.specs.inside.InTurn.{IsInTurn};
ghost use Rattle.jx_find.specs.Held.{IsHeld};
ghost use Rattle.jx_file_query.specs.Chunks.{chunk_at};
ghost use Rattle.jx_file_query.specs.HeldAt.{IsHeldAt};
ghost use Rattle.jx_file_query.specs.Known.{IsKnown};

use crate::chunks::entry_at;
use crate::walk_passing::agrees;
use jx_file_index::Index;
use jx_find::{Before, OnSlice, Sought};
use jx_index::Edge;
use jx_lex::{LexExit, LexState, Span, lex_of_two_parts, scan};
use jx_run::{Reader, Settings};
use std::alloc::{AllocError, Global};
use std::marker::Brand;

/// Reads the first bytes of a text; none where they do not begin a text.
fn read_first<B: Before>(
    alloc: Global,
    settings: &Settings,
    edges: &[Edge],
    starts: &[usize],
    held: Sought,
    slice: &[u8],
) -> Result<Option<Sought>, AllocError>
    requires slice { slice.now ≡ B.slice }
    requires edges { edges.now ≡ B.edges }
    requires base { (bytes : List ℕ) (marks : List Mark) (ends : List ℕ) → B.held bytes marks ends → 0 ≡ length bytes }
    requires held { (bytes : List ℕ) (marks : List Mark) (ends : List ℕ) → B.held bytes marks ends
        → IsHeld bytes B.edges marks ends held.state held.next held.begun held.name.items }
    requires turn { is_some held.begun ≡ false }
    ensures none { IfOk result (λ read. IfNone read (is_fault (Some (read_by settings.now.mark settings.now.depth 0 slice.now)) ≡ true)) }
    ensures turn { IfOk result (λ read. IfSome read (λ next. IsInTurn (Some (read_by settings.now.mark settings.now.depth 0 slice.now)) next.begun)) }
    ensures held { IfOk result (λ read. IfSome read (λ next. (bytes : List ℕ) (marks : List Mark) (ends : List ℕ) → B.held bytes marks ends
        → IsHeld (bytes ++ B.slice) B.edges (marks ++ moved_marks (length bytes) (tokens_by settings.now.mark slice.now).marks) (ends ++ moved_ends (length bytes) (tokens_by settings.now.mark slice.now).ends)
        next.state next.next next.begun next.name.items)) }
{
    let mut reader = Reader::new(alloc, settings, 0);
    let sink: OnSlice<'_, '_, B> = OnSlice::new(slice, 0, edges, starts, held);
    let told = reader.feed_into(sink, slice)?;
    if reader.is_done() {
        return Ok(None);
    }
    let next = told.into_held()?;
    Ok(Some(next))
}

/// Reads bytes that stand from `base` on, from a known state; none where they cannot be read from there.
fn read_later<B: Before>(
    edges: &[Edge],
    starts: &[usize],
    held: Sought,
    base: usize,
    state: LexState,
    slice: &[u8],
) -> Result<Option<Sought>, AllocError>
    requires slice { slice.now ≡ B.slice }
    requires edges { edges.now ≡ B.edges }
    requires base { (bytes : List ℕ) (marks : List Mark) (ends : List ℕ) → B.held bytes marks ends → base ≡ length bytes }
    requires held { (bytes : List ℕ) (marks : List Mark) (ends : List ℕ) → B.held bytes marks ends
        → IsHeld bytes B.edges marks ends held.state held.next held.begun held.name.items }
    requires turn { is_some held.begun ≡ in_token state }
    ensures none { IfOk result (λ read. IfNone read ((bytes : List ℕ) (marks : List Mark) (ends : List ℕ) → B.held bytes marks ends
        → (to : LexState) → (lex state 0 slice.now).exit ≡ lexical.state to → ⊥)) }
    ensures turn { IfOk result (λ read. IfSome read (λ next. (to : LexState) → (lex state 0 slice.now).exit ≡ lexical.state to → is_some next.begun ≡ in_token to)) }
    ensures held { IfOk result (λ read. IfSome read (λ next. (bytes : List ℕ) (marks : List Mark) (ends : List ℕ) → B.held bytes marks ends
        → IsHeld (bytes ++ B.slice) B.edges (marks ++ moved_marks (length bytes) (lex state 0 slice.now).marks) (ends ++ moved_ends (length bytes) (lex state 0 slice.now).ends)
        next.state next.next next.begun next.name.items)) }
{
    let mut sink: OnSlice<'_, '_, B> = OnSlice::new(slice, base, edges, starts, held);
    let exit = scan(&mut sink, state, slice, 0, slice.len())?;
    match exit {
        Some(LexExit::State(_)) => {
            let next = sink.into_held()?;
            Ok(Some(next))
        }
        Some(LexExit::Fault(_)) => Ok(None),
        // Only a sink that wants no more is not told all.
        None => Ok(None),
    }
}

/// Reads the chunk at a place after what is kept of the bytes before it; none where the chunk and the index are not of
/// one text, as where the index says that it begins inside a token and none has begun.
pub(crate) fn read_chunk(
    alloc: Global,
    index: &Index,
    edges: &[Edge],
    starts: &[usize],
    held: Sought,
    at: usize,
    span: Span,
    bytes: &[u8],
) -> Result<Option<Sought>, AllocError>
    requires here { chunk_at index.now at ≡ Some span }
    ensures none { IfOk result (λ read. IfNone read ((settings : Settings) (chunk : ℕ) (text : List ℕ) → IsKnown settings chunk text index.now → bytes.now ≡ slice_range text span.start span.end
        → IsHeldAt settings chunk text edges.now at held → ⊥)) }
    ensures held { IfOk result (λ read. IfSome read (λ next. (settings : Settings) (chunk : ℕ) (text : List ℕ) → IsKnown settings chunk text index.now → bytes.now ≡ slice_range text span.start span.end
        → IsHeldAt settings chunk text edges.now at held → IsHeldAt settings chunk text edges.now (at + 1) next)) }
{
    lex_of_two_parts();
    if at == 0 {
        if held.begun.is_some() {
            return Ok(None);
        }
        let first = read_first::<Brand>(alloc, &index.settings, edges, starts, held, bytes)?;
        return Ok(first);
    }
    let Some(entry) = entry_at(index, at) else {
        return Ok(None);
    };
    if !agrees(&held, &entry) {
        return Ok(None);
    }
    let later = read_later::<Brand>(edges, starts, held, span.start, entry.state, bytes)?;
    Ok(later)
}
