// Look-ups and splits by a saved index, from chunks of the text. Each call takes the index out of the caller's struct and puts it
// back. The calls of the C header have these names without `_non_null`, and answer null pointers.
ghost use Rattle.std.specs.Prelude.{◌≡◌, ◌⊎◌, ◌<◌, ◌≤◌, IfOk, IfErr, None, Some};
ghost use Rattle.jx_summary.specs.declared.span.Span.{Span};
ghost use Rattle.jx_file_index.specs.declared.saved_text.SavedText.{SavedText};
ghost use Rattle.jx_file_index.specs.SavedTexts.{IsSavableToo};
ghost use Rattle.jx_file_index.specs.TextSpelling.{spelt_saved};
ghost use Rattle.jx_c.specs.Opened.{AreAnswersIn, AreOthers, ArePartsIn, HasNoSuchContainer, IsALookUp, IsASplit, IsChunk, IsGiven, IsHeld, IsNoChunk, IsOfNoText, IsOfNone, IsOpened, IsRefused, IsSought, IsSplit, IsWithin, aim_in, chunk_with, idle, needed, shown_need, shown_text};
ghost use Rattle.jx_c.specs.Rows.{shown_span};
ghost use Rattle.jx_c.specs.declared.saving.opened.IndexWork.TheVariants.{Nothing};
ghost use Rattle.jx_c.specs.declared.saving.opened.OpenedIndex.{OpenedIndex};

use crate::saving::held_saved::JxSaved;
use crate::saving::opened::{JxPart, JxSavedText, OpenedIndex};
use crate::shapes::places::{JxSpan, shown_span};
use crate::shapes::status::{
    CHANGED, DAMAGED, MORE_NEEDED, NO_MEMORY, NO_SAVED, NOT_BEGUN, OK, OUT_OF_BOUNDS,
};
use crate::shapes::unboxed::sent;
use crate::texts::all::JxPointer;
use crate::texts::look_up::JxAnswer;
use jx_lex::Span;
use std::alloc::Global;

/// The index in these bytes, of a text of this size, or the status where they have none.
fn boxed(alloc: Global, bytes: &[u8], size: usize) -> Result<Box<OpenedIndex>, u32>
    ensures opened { IfOk result (λ whole. IsOpened bytes.now size whole.value) }
    ensures refused { IfErr result (IsRefused bytes.now size) }
    ensures reads { IfErr result (λ status. (t : SavedText) → IsSavableToo t → bytes.now ≡ spelt_saved t → t.index.size ≡ size → status ≡ NO_MEMORY) }
    ensures not { IfErr result (λ status. status ≡ OK → ⊥) }
{
    let opened = OpenedIndex::read(alloc, bytes, size)?;
    match Box::new(alloc, sent(opened)) {
        Ok(whole) => Ok(whole),
        Err(_) => Err(NO_MEMORY),
    }
}

/// Opens the saved index of a text of this size, by the bytes of the index, which are looked at before they are used. The index
/// that the struct held is freed.
#[unsafe(no_mangle)]
pub extern "C" fn jx_saved_open_non_null(
    alloc: Global,
    index: &[u8],
    size: usize,
    saved: &mut JxSaved,
) -> u32
    ensures opened { result ≡ OK → IsHeld index.now size saved.new.held }
    ensures refused { (result ≡ OK → ⊥) → IsRefused index.now size result }
    ensures reads { (t : SavedText) → IsSavableToo t → index.now ≡ spelt_saved t → t.index.size ≡ size → (result ≡ OK) ⊎ (result ≡ NO_MEMORY) }
    ensures unchanged { (result ≡ OK → ⊥) → saved.new.held ≡ saved.old.held }
{
    match boxed(alloc, index, size) {
        Ok(whole) => {
            let _ = saved.replace(alloc, Some(whole));
            OK
        }
        Err(status) => status,
    }
}

/// Gives the sizes and settings of the text.
#[unsafe(no_mangle)]
pub extern "C" fn jx_saved_about_non_null(
    alloc: Global,
    saved: &mut JxSaved,
    text: &mut JxSavedText,
) -> u32
    ensures none { saved.old.held ≡ None → (result ≡ NO_SAVED) × (text.new ≡ text.old) }
    ensures told { (s : OpenedIndex) → saved.old.held ≡ Some s → (result ≡ OK) × (text.new ≡ shown_text s.saved.index) }
    ensures same { saved.new.held ≡ saved.old.held }
{
    let Some(whole) = saved.replace(alloc, None) else {
        return NO_SAVED;
    };
    *text = whole.text();
    let _ = saved.replace(alloc, Some(whole));
    OK
}

/// Begins a look-up of pointers (RFC 6901). What went on by the index is dropped. The pointers have to stand as they are until the
/// look-up ends, another begins or the index is freed: C says so by calling this.
#[unsafe(no_mangle)]
pub extern "C" fn jx_saved_seek_non_null(
    alloc: Global,
    saved: &mut JxSaved,
    pointers: &'static [JxPointer<'static>],
) -> u32
    ensures none { saved.old.held ≡ None → result ≡ NO_SAVED }
    ensures sought { (s : OpenedIndex) → saved.old.held ≡ Some s → result ≡ OK → (now : OpenedIndex) × (saved.new.held ≡ Some now) × IsSought pointers.now s now }
    ensures status { (s : OpenedIndex) → saved.old.held ≡ Some s → (result ≡ OK) ⊎ (result ≡ NO_MEMORY) }
    ensures unchanged { (result ≡ OK → ⊥) → saved.new.held ≡ saved.old.held }
{
    let Some(mut whole) = saved.replace(alloc, None) else {
        return NO_SAVED;
    };
    let status = whole.seek(alloc, pointers);
    let _ = saved.replace(alloc, Some(whole));
    status
}

/// Begins a split of the container that stands there into so many parts. What went on by the index is dropped.
#[unsafe(no_mangle)]
pub extern "C" fn jx_saved_split_non_null(
    alloc: Global,
    saved: &mut JxSaved,
    whole: &JxSpan,
    parts: usize,
) -> u32
    ensures none { saved.old.held ≡ None → result ≡ NO_SAVED }
    ensures split { (s : OpenedIndex) → saved.old.held ≡ Some s → result ≡ OK → (now : OpenedIndex) × (saved.new.held ≡ Some now) × IsSplit (aim_in whole.now parts) s now }
    ensures inside { (s : OpenedIndex) → saved.old.held ≡ Some s → IsWithin whole.now parts s.saved.index.size → result ≡ OK }
    ensures outside { (s : OpenedIndex) → saved.old.held ≡ Some s → (IsWithin whole.now parts s.saved.index.size → ⊥) → result ≡ OUT_OF_BOUNDS }
    ensures unchanged { (result ≡ OK → ⊥) → saved.new.held ≡ saved.old.held }
{
    let Some(mut opened) = saved.replace(alloc, None) else {
        return NO_SAVED;
    };
    let status = opened.split(alloc, *whole, parts);
    let _ = saved.replace(alloc, Some(opened));
    status
}

/// Where the bytes of the text stand that are to be given next; 0 and 0 where none are.
fn shown_need(need: Option<Span>) -> JxSpan
    ensures { result ≡ shown_need need }
{
    match need {
        Some(span) => shown_span(span),
        None => JxSpan { start: 0, end: 0 },
    }
}

/// Gives the span of the bytes of the text that are to be given next; 0 and 0 where none are, or nothing goes on.
#[unsafe(no_mangle)]
pub extern "C" fn jx_saved_needs_non_null(
    alloc: Global,
    saved: &mut JxSaved,
    need: &mut JxSpan,
) -> u32
    ensures none { saved.old.held ≡ None → (result ≡ NO_SAVED) × (need.new ≡ need.old) }
    ensures needed { (s : OpenedIndex) → saved.old.held ≡ Some s → (result ≡ OK) × (need.new ≡ shown_need (needed s)) }
    ensures within { (s : OpenedIndex) → saved.old.held ≡ Some s → need.new.end ≤ s.saved.index.size }
    ensures same { saved.new.held ≡ saved.old.held }
{
    let Some(whole) = saved.replace(alloc, None) else {
        return NO_SAVED;
    };
    *need = shown_need(whole.needs());
    let _ = saved.replace(alloc, Some(whole));
    OK
}

/// Gives bytes of the text that are needed.
#[unsafe(no_mangle)]
pub extern "C" fn jx_saved_give_non_null(alloc: Global, saved: &mut JxSaved, bytes: &[u8]) -> u32
    ensures none { saved.old.held ≡ None → result ≡ NO_SAVED }
    ensures given { (s : OpenedIndex) → saved.old.held ≡ Some s → result ≡ OK → (now : OpenedIndex) × (saved.new.held ≡ Some now) × IsGiven s bytes.now now }
    ensures changed { (s : OpenedIndex) → saved.old.held ≡ Some s → result ≡ CHANGED → AreOthers s.saved s.work bytes.now }
    ensures damaged { (s : OpenedIndex) → saved.old.held ≡ Some s → result ≡ DAMAGED → IsOfNone s.saved s.work bytes.now }
    ensures status { (s : OpenedIndex) → saved.old.held ≡ Some s → (s.work ≡ Nothing → ⊥) → (result ≡ OK) ⊎ ((result ≡ CHANGED) ⊎ ((result ≡ DAMAGED) ⊎ (result ≡ NO_MEMORY))) }
    ensures idle { (s : OpenedIndex) → saved.old.held ≡ Some s → s.work ≡ Nothing → result ≡ NOT_BEGUN }
    ensures lost { (s : OpenedIndex) → saved.old.held ≡ Some s → (result ≡ DAMAGED) ⊎ (result ≡ NO_MEMORY) → saved.new.held ≡ Some (idle s) }
    ensures unchanged { (result ≡ CHANGED) ⊎ ((result ≡ NOT_BEGUN) ⊎ (result ≡ NO_SAVED)) → saved.new.held ≡ saved.old.held }
{
    let Some(mut whole) = saved.replace(alloc, None) else {
        return NO_SAVED;
    };
    let status = whole.give(bytes);
    let _ = saved.replace(alloc, Some(whole));
    status
}

/// Ends the look-up: the value of each pointer in the text, as by `jx_at`, as many answers as the buffer has room for.
#[unsafe(no_mangle)]
pub extern "C" fn jx_saved_answers_non_null(
    alloc: Global,
    saved: &mut JxSaved,
    answers: &mut [JxAnswer],
) -> u32
    ensures none { saved.old.held ≡ None → result ≡ NO_SAVED }
    ensures answers { (s : OpenedIndex) → saved.old.held ≡ Some s → result ≡ OK → AreAnswersIn s answers.old answers.new }
    ensures damaged { (s : OpenedIndex) → saved.old.held ≡ Some s → result ≡ DAMAGED → IsOfNoText s }
    ensures status { (s : OpenedIndex) → saved.old.held ≡ Some s → IsALookUp s → needed s ≡ None → (result ≡ OK) ⊎ ((result ≡ DAMAGED) ⊎ (result ≡ NO_MEMORY)) }
    ensures more { (s : OpenedIndex) (span : Span) → saved.old.held ≡ Some s → IsALookUp s → needed s ≡ Some span → result ≡ MORE_NEEDED }
    ensures other { (s : OpenedIndex) → saved.old.held ≡ Some s → (IsALookUp s → ⊥) → result ≡ NOT_BEGUN }
    ensures ended { (s : OpenedIndex) → saved.old.held ≡ Some s → (result ≡ OK) ⊎ ((result ≡ DAMAGED) ⊎ (result ≡ NO_MEMORY)) → saved.new.held ≡ Some (idle s) }
    ensures same { (result ≡ MORE_NEEDED) ⊎ ((result ≡ NOT_BEGUN) ⊎ (result ≡ NO_SAVED)) → saved.new.held ≡ saved.old.held }
    ensures unchanged { (result ≡ OK → ⊥) → answers.new ≡ answers.old }
{
    let Some(mut whole) = saved.replace(alloc, None) else {
        return NO_SAVED;
    };
    let status = whole.answers(answers);
    let _ = saved.replace(alloc, Some(whole));
    status
}

/// Ends the split: the parts of the container that have a child, as many as the buffer has room for, and how many there are.
#[unsafe(no_mangle)]
pub extern "C" fn jx_saved_parts_non_null(
    alloc: Global,
    saved: &mut JxSaved,
    parts: &mut [JxPart],
    count: &mut usize,
) -> u32
    ensures none { saved.old.held ≡ None → result ≡ NO_SAVED }
    ensures parts { (s : OpenedIndex) → saved.old.held ≡ Some s → result ≡ OK → ArePartsIn s parts.old parts.new count.new }
    ensures damaged { (s : OpenedIndex) → saved.old.held ≡ Some s → result ≡ DAMAGED → HasNoSuchContainer s }
    ensures status { (s : OpenedIndex) → saved.old.held ≡ Some s → IsASplit s → needed s ≡ None → (result ≡ OK) ⊎ ((result ≡ DAMAGED) ⊎ (result ≡ NO_MEMORY)) }
    ensures more { (s : OpenedIndex) (span : Span) → saved.old.held ≡ Some s → IsASplit s → needed s ≡ Some span → result ≡ MORE_NEEDED }
    ensures other { (s : OpenedIndex) → saved.old.held ≡ Some s → (IsASplit s → ⊥) → result ≡ NOT_BEGUN }
    ensures ended { (s : OpenedIndex) → saved.old.held ≡ Some s → (result ≡ OK) ⊎ ((result ≡ DAMAGED) ⊎ (result ≡ NO_MEMORY)) → saved.new.held ≡ Some (idle s) }
    ensures same { (result ≡ MORE_NEEDED) ⊎ ((result ≡ NOT_BEGUN) ⊎ (result ≡ NO_SAVED)) → saved.new.held ≡ saved.old.held }
    ensures unchanged_parts { (result ≡ OK → ⊥) → parts.new ≡ parts.old }
    ensures unchanged_count { (result ≡ OK → ⊥) → count.new ≡ count.old }
{
    let Some(mut whole) = saved.replace(alloc, None) else {
        return NO_SAVED;
    };
    let status = whole.parts(parts, count);
    let _ = saved.replace(alloc, Some(whole));
    status
}

/// Gives the span of the chunk with the byte at an offset.
#[unsafe(no_mangle)]
pub extern "C" fn jx_saved_chunk_non_null(
    alloc: Global,
    saved: &mut JxSaved,
    at: usize,
    chunk: &mut JxSpan,
) -> u32
    ensures none { saved.old.held ≡ None → result ≡ NO_SAVED }
    ensures told { (s : OpenedIndex) (span : Span) → saved.old.held ≡ Some s → chunk_with s.saved.index at ≡ Some span → (result ≡ OK) × (chunk.new ≡ shown_span span) }
    ensures behind { (s : OpenedIndex) → saved.old.held ≡ Some s → chunk_with s.saved.index at ≡ None → result ≡ OUT_OF_BOUNDS }
    ensures same { saved.new.held ≡ saved.old.held }
    ensures unchanged { (result ≡ OK → ⊥) → chunk.new ≡ chunk.old }
{
    let Some(whole) = saved.replace(alloc, None) else {
        return NO_SAVED;
    };
    let status = match whole.chunk_with(at) {
        Some(span) => {
            *chunk = shown_span(span);
            OK
        }
        None => OUT_OF_BOUNDS,
    };
    let _ = saved.replace(alloc, Some(whole));
    status
}

/// Checks whether bytes are those of the chunk with the byte at an offset, by their checksum.
#[unsafe(no_mangle)]
pub extern "C" fn jx_saved_check_non_null(
    alloc: Global,
    saved: &mut JxSaved,
    at: usize,
    bytes: &[u8],
) -> u32
    ensures none { saved.old.held ≡ None → result ≡ NO_SAVED }
    ensures kept { (s : OpenedIndex) (span : Span) → saved.old.held ≡ Some s → chunk_with s.saved.index at ≡ Some span → result ≡ OK → IsChunk s.saved.index span bytes.now }
    ensures changed { (s : OpenedIndex) (span : Span) → saved.old.held ≡ Some s → chunk_with s.saved.index at ≡ Some span → result ≡ CHANGED → IsNoChunk s.saved.index span bytes.now }
    ensures status { (s : OpenedIndex) (span : Span) → saved.old.held ≡ Some s → chunk_with s.saved.index at ≡ Some span → (result ≡ OK) ⊎ (result ≡ CHANGED) }
    ensures behind { (s : OpenedIndex) → saved.old.held ≡ Some s → chunk_with s.saved.index at ≡ None → result ≡ OUT_OF_BOUNDS }
    ensures same { saved.new.held ≡ saved.old.held }
{
    let Some(whole) = saved.replace(alloc, None) else {
        return NO_SAVED;
    };
    let status = whole.check(at, bytes);
    let _ = saved.replace(alloc, Some(whole));
    status
}

/// Frees the index, if there is one. The struct holds none afterwards.
#[unsafe(no_mangle)]
pub extern "C" fn jx_saved_free_non_null(alloc: Global, saved: &mut JxSaved)
    ensures { saved.new.held ≡ None }
{
    let _ = saved.replace(alloc, None);
}
