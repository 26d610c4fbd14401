// Indexes that C keeps for many calls over one text. Each call takes the index out of the caller's struct and puts it back.
// The calls of the C header have these names without `_non_null`, and answer null pointers.
ghost use Rattle.std.specs.Prelude.{◌≡◌, ◌⊎◌, ◌<◌, ◌≤◌, ℕ, List, IfOk, IfErr, None, Some};
ghost use Rattle.jx_run.specs.Text.{IsText};
ghost use Rattle.jx_run.specs.Tree.{Tree};
ghost use Rattle.jx_run.specs.declared.texts.settings.Settings.{Settings};
ghost use Rattle.jx_run.specs.declared.texts.verdict.Verdict.TheVariants.{Refused};
ghost use Rattle.jx_index.specs.ByNames.{IsVerdictBy};
ghost use Rattle.jx_index.specs.Indexed.{IndexedValue};
ghost use Rattle.jx_c.specs.Indexes.{IsAnswerIn, IsIndexOf, IsLookUpIn, IsMadeBy, row_at};
ghost use Rattle.jx_c.specs.LookUps.{IsLed};
ghost use Rattle.jx_c.specs.Settings.{settings_in};
ghost use Rattle.jx_c.specs.declared.shapes.places.JxRow.{JxRow};

use crate::shapes::buffers::Seen;
use crate::shapes::places::JxRow;
use crate::shapes::settings::{JxSettings, settings_in};
use crate::shapes::status::{
    DEPTH_TOO_GREAT, NO_INDEX, NO_MEMORY, OK, OUT_OF_BOUNDS, UNKNOWN_FLAG,
};
use crate::shapes::unboxed::sent;
use crate::shapes::verdict::{JxVerdict, shown};
use crate::texts::catalog::Catalog;
use crate::texts::held_index::JxIndex;
use crate::texts::look_up::{JxAnswer, LookUp, shown_look_up, spelt};
use jx_index::{Indexed, Pointer, TextAnswer, index_behind_a_front, rows_of_look_ups};
use jx_run::{Refusal, Settings, Verdict, unique_tree_by_settings};
use std::alloc::{AllocError, Global};

/// Reads a text by settings, and indexes it where it is accepted.
fn read(
    alloc: Global,
    text: &'static [u8],
    settings: &Settings,
) -> Result<Result<Box<Catalog>, Refusal>, AllocError>
    ensures accepted { IfOk result (λ read. IfOk read (λ whole. IsIndexOf settings.now text.now whole.value)) }
    ensures refused { IfOk result (λ read. IfErr read (λ refusal. IsVerdictBy settings.now text.now (Refused refusal))) }
{
    match TextAnswer::read(alloc, text, settings)? {
        TextAnswer::Refused(refusal) => Ok(Err(refusal)),
        TextAnswer::Accepted(index) => {
            let whole = Box::new(alloc, sent(Catalog::of(index)))?;
            Ok(Ok(whole))
        }
    }
}

/// Puts in the result of reading a text: its index, or none, and the verdict.
fn put(
    alloc: Global,
    read: Result<Box<Catalog>, Refusal>,
    index: &mut JxIndex,
    verdict: &mut JxVerdict,
)
    ensures { (settings : Settings) (text : List ℕ) → IfOk read (λ whole. IsIndexOf settings text whole.value)
        → IfErr read (λ refusal. IsVerdictBy settings text (Refused refusal)) → IsMadeBy settings text index.new.held verdict.new }
{
    match read {
        Ok(whole) => {
            let _ = index.replace(alloc, Some(whole));
            *verdict = shown(Verdict::Accepted);
        }
        Err(refusal) => {
            let _ = index.replace(alloc, None);
            *verdict = shown(Verdict::Refused(refusal));
        }
    }
}

/// Reads a JSON text (RFC 8259) by settings and keeps its index; none where it is refused. The index that the struct held is
/// freed. The text has to stand as it is until the index is freed: C says so by calling this.
#[unsafe(no_mangle)]
pub extern "C" fn jx_index_new_non_null(
    alloc: Global,
    text: &'static [u8],
    settings: &JxSettings,
    index: &mut JxIndex,
    verdict: &mut JxVerdict,
) -> u32
    ensures made { result ≡ OK → IsMadeBy (settings_in settings.now) text.now index.new.held verdict.new }
    ensures depth { 65535 < settings.now.depth → result ≡ DEPTH_TOO_GREAT }
    ensures flags { settings.now.depth ≤ 65535 → 3 < settings.now.flags → result ≡ UNKNOWN_FLAG }
    ensures status { settings.now.depth ≤ 65535 → settings.now.flags ≤ 3 → (result ≡ OK) ⊎ (result ≡ NO_MEMORY) }
    ensures unchanged_index { (result ≡ OK → ⊥) → index.new.held ≡ index.old.held }
    ensures unchanged_verdict { (result ≡ OK → ⊥) → verdict.new ≡ verdict.old }
{
    let asked = match settings_in(settings) {
        Ok(asked) => asked,
        Err(status) => return status,
    };
    match read(alloc, text, &asked) {
        Ok(read) => {
            put(alloc, read, index, verdict);
            OK
        }
        Err(AllocError) => NO_MEMORY,
    }
}

/// The answer to a pointer in an index.
fn led(index: &Indexed, pointer: &Pointer) -> LookUp
    ensures { (limit : ℕ) (tree : Tree) → IsText index.now.text index.now.span.start index.now.span.end limit tree
        → IsLed index.now.text tree pointer.now result }
{
    rows_of_look_ups();
    match index.find(pointer) {
        Ok(node) => {
            let row = index.row(node);
            LookUp::Found {
                kind: row.kind,
                span: row.span,
            }
        }
        Err(fault) => LookUp::Lost(fault),
    }
}

/// The answer to the bytes of a pointer in an index.
fn look_up_in(index: &Indexed, pointer: &[u8]) -> LookUp
    ensures { IsLookUpIn index.now pointer.now result }
{
    index_behind_a_front();
    unique_tree_by_settings();
    match spelt(pointer) {
        Ok(read) => led(index, &read),
        Err(none) => none,
    }
}

/// The answer to the bytes of a pointer in an index, as C sees it.
pub fn answer_in(index: &Indexed, pointer: &[u8]) -> JxAnswer
    ensures { IsAnswerIn index.now pointer.now result }
{
    shown_look_up(look_up_in(index, pointer))
}

/// Looks up the value of a pointer (RFC 6901) in the text. It takes no memory.
#[unsafe(no_mangle)]
pub extern "C" fn jx_index_find_non_null(
    alloc: Global,
    index: &mut JxIndex,
    pointer: &[u8],
    answer: &mut JxAnswer,
) -> u32
    ensures none { index.old.held ≡ None → result ≡ NO_INDEX }
    ensures answer { (i : IndexedValue) → index.old.held ≡ Some i → (result ≡ OK) × IsAnswerIn i pointer.now answer.new }
    ensures same { index.new.held ≡ index.old.held }
    ensures unchanged { (result ≡ OK → ⊥) → answer.new ≡ answer.old }
{
    let Some(whole) = index.replace(alloc, None) else {
        return NO_INDEX;
    };
    *answer = answer_in(whole.index(), pointer);
    let _ = index.replace(alloc, Some(whole));
    OK
}

/// The row with a number, if there is one.
pub fn row_at(index: &Indexed, number: usize) -> Option<JxRow>
    ensures { result ≡ row_at index.now number }
{
    match index.rows().get(number) {
        Some(row) => Some(row.seen()),
        None => None,
    }
}

/// A value of the text by the number of its row, counted from 0 in the order of their starts. It takes no memory.
#[unsafe(no_mangle)]
pub extern "C" fn jx_index_row_non_null(
    alloc: Global,
    index: &mut JxIndex,
    number: usize,
    row: &mut JxRow,
) -> u32
    ensures none { index.old.held ≡ None → result ≡ NO_INDEX }
    ensures row { (i : IndexedValue) (told : JxRow) → index.old.held ≡ Some i → row_at i number ≡ Some told → (result ≡ OK) × (row.new ≡ told) }
    ensures behind { (i : IndexedValue) → index.old.held ≡ Some i → row_at i number ≡ None → result ≡ OUT_OF_BOUNDS }
    ensures same { index.new.held ≡ index.old.held }
    ensures unchanged { (result ≡ OK → ⊥) → row.new ≡ row.old }
{
    let Some(whole) = index.replace(alloc, None) else {
        return NO_INDEX;
    };
    let told = row_at(whole.index(), number);
    let _ = index.replace(alloc, Some(whole));
    match told {
        Some(told) => {
            *row = told;
            OK
        }
        None => OUT_OF_BOUNDS,
    }
}

/// Frees the index, if there is one. The struct holds none afterwards.
#[unsafe(no_mangle)]
pub extern "C" fn jx_index_free_non_null(alloc: Global, index: &mut JxIndex)
    ensures { index.new.held ≡ None }
{
    let _ = index.replace(alloc, None);
}
