// The sentence on a refused text, in a buffer of the caller's.
ghost use Rattle.std.specs.Prelude.{◌≡◌, ◌⊎◌, ◌<◌, ◌≤◌, ◌++◌, IfOk, drop, length, take};
ghost use Rattle.std.specs.String.{string_bytes};
ghost use Rattle.jx_run.specs.declared.texts.verdict.Refusal.{Refusal};
ghost use Rattle.jx_sentence.specs.Sentences.{IsSentence, offset_of};
ghost use Rattle.jx_c.specs.Explained.{IsExplained, shown_place};
ghost use Rattle.jx_c.specs.Settings.{settings_in};
ghost use Rattle.jx_c.specs.Verdict.{refusal_in};

use crate::shapes::settings::{JxSettings, settings_in};
use crate::shapes::status::{
    DEPTH_TOO_GREAT, NO_MEMORY, NOT_REFUSED, OK, OUT_OF_BOUNDS, UNKNOWN_FLAG,
};
use crate::shapes::verdict::{JxVerdict, refusal_in};
use jx_run::{Refusal, Settings};
use jx_sentence::{Place, offset_of, place_of, push_sentence};
use std::alloc::{AllocError, Global};

/// Where a byte stands, for people.
#[repr(C)]
#[derive(Clone, Copy)]
pub struct JxPlace {
    /// The line, from 1.
    pub line: usize,
    /// The character in its line, from 1.
    pub column: usize,
}

/// The place as C sees it.
fn shown_place(place: Place) -> JxPlace
    ensures { result ≡ shown_place place }
{
    JxPlace {
        line: place.line,
        column: place.column,
    }
}

/// The sentence that says what is wrong with a text that is refused by settings.
fn sentence_of(
    alloc: Global,
    text: &[u8],
    refusal: Refusal,
    settings: &Settings,
) -> Result<String, AllocError>
    ensures { IfOk result (λ said. IsSentence settings.now text.now refusal (string_bytes said)) }
{
    let mut said = String::new(alloc);
    push_sentence(alloc, &mut said, text, refusal, settings)?;
    Ok(said)
}

/// Puts bytes into the buffer, as many as it has room for.
fn put_front(bytes: &[u8], buffer: &mut [u8])
    ensures { buffer.new ≡ take (length buffer.old) bytes.now ++ drop (length bytes.now) buffer.old }
{
    let count = buffer.len().min(bytes.len());
    buffer[..count].copy_from_slice(&bytes[..count]);
}

/// Puts what is wrong with a text that is refused by settings into the buffer, as many bytes of the sentence as it has room for,
/// how many there are into `size`, and where the fault stands into `place`.
#[unsafe(no_mangle)]
pub extern "C" fn jx_explain_non_null(
    alloc: Global,
    text: &[u8],
    settings: &JxSettings,
    verdict: &JxVerdict,
    sentence: &mut [u8],
    size: &mut usize,
    place: &mut JxPlace,
) -> u32
    ensures told { (refusal : Refusal) → refusal_in verdict.now ≡ Some refusal → result ≡ OK → IsExplained (settings_in settings.now) text.now refusal sentence.old sentence.new size.new place.new }
    ensures depth { 65535 < settings.now.depth → result ≡ DEPTH_TOO_GREAT }
    ensures flags { settings.now.depth ≤ 65535 → 3 < settings.now.flags → result ≡ UNKNOWN_FLAG }
    ensures none { settings.now.depth ≤ 65535 → settings.now.flags ≤ 3 → refusal_in verdict.now ≡ None → result ≡ NOT_REFUSED }
    ensures outside { settings.now.depth ≤ 65535 → settings.now.flags ≤ 3 → (refusal : Refusal) → refusal_in verdict.now ≡ Some refusal → length text.now < offset_of text.now refusal → result ≡ OUT_OF_BOUNDS }
    ensures status { settings.now.depth ≤ 65535 → settings.now.flags ≤ 3 → (refusal : Refusal) → refusal_in verdict.now ≡ Some refusal → offset_of text.now refusal ≤ length text.now → (result ≡ OK) ⊎ (result ≡ NO_MEMORY) }
    ensures unchanged_sentence { (result ≡ OK → ⊥) → sentence.new ≡ sentence.old }
    ensures unchanged_size { (result ≡ OK → ⊥) → size.new ≡ size.old }
    ensures unchanged_place { (result ≡ OK → ⊥) → place.new ≡ place.old }
{
    let asked = match settings_in(settings) {
        Ok(asked) => asked,
        Err(status) => return status,
    };
    let Some(refusal) = refusal_in(verdict) else {
        return NOT_REFUSED;
    };
    let at = offset_of(text, refusal);
    if at > text.len() {
        return OUT_OF_BOUNDS;
    }
    match sentence_of(alloc, text, refusal, &asked) {
        Ok(said) => {
            *size = said.len();
            put_front(said.as_bytes(), sentence);
            *place = shown_place(place_of(text, at));
            OK
        }
        Err(AllocError) => NO_MEMORY,
    }
}
