// A chunk that is read after what the token starts before it led to.
ghost use Rattle.std.specs.Prelude.{◌≡◌, ◌+◌, ℕ, List, Some, slice_range, true, IfNone, IfOk, IfSome};
ghost use Rattle.jx_lex.specs.declared.alphabet.state.LexState.{LexState};
ghost use Rattle.jx_lex.specs.Lex as lexical;
ghost use Rattle.jx_lex.specs.Lex.{lex};
ghost use Rattle.jx_run.specs.Reader.{is_fault, read_by};
ghost use Rattle.jx_run.specs.Telling.{moved_marks, tokens_by};
ghost use Rattle.jx_run.specs.declared.texts.settings.Settings.{Settings};
ghost use Rattle.jx_file_query.specs.Chunks.{chunk_at};
ghost use Rattle.jx_file_query.specs.Known.{IsKnown};
ghost use Rattle.jx_file_query.specs.Cuts.{cut_all, cuts_of};
ghost use Rattle.jx_file_query.specs.Split.{IsCutAt};

use crate::chunks::entry_at;
use crate::cutting::{Aim, Parting};
use crate::marked::{Earlier, Marked};
use jx_file_index::Index;
use jx_lex::{LexExit, LexState, Span, lex_of_two_parts, scan};
use jx_run::{Reader, Settings};
use std::alloc::{AllocError, Global};
use std::marker::Brand;

/// Reads the first bytes of a text; none where they do not begin a text.
fn read_first<E: Earlier>(
    alloc: Global,
    settings: &Settings,
    aim: Aim,
    held: Parting,
    slice: &[u8],
) -> Result<Option<Parting>, AllocError>
    requires aim { aim ≡ E.aim }
    requires base { 0 ≡ E.base }
    requires cuts { cuts_of held ≡ E.cuts }
    ensures none { IfOk result (λ read. IfNone read (is_fault (Some (read_by settings.now.mark settings.now.depth 0 slice.now)) ≡ true)) }
    ensures cut { IfOk result (λ read. IfSome read (λ next. cuts_of next ≡ cut_all aim (moved_marks 0 (tokens_by settings.now.mark slice.now).marks) (cuts_of held))) }
{
    let mut reader = Reader::new(alloc, settings, 0);
    let sink: Marked<E> = Marked::new(aim, 0, held);
    let told = reader.feed_into(sink, slice)?;
    if reader.is_done() {
        return Ok(None);
    }
    Ok(Some(told.cutting))
}

/// Reads bytes that stand from `base` on, from a known state; none where they cannot be read from there.
fn read_later<E: Earlier>(
    aim: Aim,
    held: Parting,
    base: usize,
    state: LexState,
    slice: &[u8],
) -> Result<Option<Parting>, AllocError>
    requires aim { aim ≡ E.aim }
    requires base { base ≡ E.base }
    requires cuts { cuts_of held ≡ E.cuts }
    ensures none { IfOk result (λ read. IfNone read ((to : LexState) → (lex state 0 slice.now).exit ≡ lexical.state to → ⊥)) }
    ensures cut { IfOk result (λ read. IfSome read (λ next. cuts_of next ≡ cut_all aim (moved_marks base (lex state 0 slice.now).marks) (cuts_of held))) }
{
    let mut sink: Marked<E> = Marked::new(aim, base, held);
    let exit = scan(&mut sink, state, slice, 0, slice.len())?;
    if let Some(LexExit::Fault(_)) = exit {
        return Ok(None);
    }
    Ok(Some(sink.cutting))
}

/// Reads the chunk at a place after what the token starts before it led to; none where the chunk and the index are not
/// of one text.
pub(crate) fn read_chunk(
    alloc: Global,
    index: &Index,
    aim: Aim,
    held: Parting,
    at: usize,
    span: Span,
    bytes: &[u8],
) -> Result<Option<Parting>, AllocError>
    requires here { chunk_at index.now at ≡ Some span }
    ensures none { IfOk result (λ read. IfNone read ((settings : Settings) (chunk : ℕ) (text : List ℕ) → IsKnown settings chunk text index.now → bytes.now ≡ slice_range text span.start span.end → ⊥)) }
    ensures cut { IfOk result (λ read. IfSome read (λ next. (settings : Settings) (chunk : ℕ) (text : List ℕ) → IsKnown settings chunk text index.now → bytes.now ≡ slice_range text span.start span.end
        → IsCutAt settings chunk text aim at (cuts_of held) → IsCutAt settings chunk text aim (at + 1) (cuts_of next))) }
{
    lex_of_two_parts();
    if at == 0 {
        return read_first::<Brand>(alloc, &index.settings, aim, held, bytes);
    }
    let Some(entry) = entry_at(index, at) else {
        return Ok(None);
    };
    read_later::<Brand>(aim, held, span.start, entry.state, bytes)
}
