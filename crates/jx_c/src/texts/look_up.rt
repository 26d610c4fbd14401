// The answer to a pointer in a text.
ghost use Rattle.std.specs.Prelude.{◌≡◌, ◌⊎◌, ◌<◌, ◌≤◌, ℕ, List, Some, IfOk, IfErr, length, slice_get};
ghost use Rattle.jx_run.specs.Tree.{Tree};
ghost use Rattle.jx_run.specs.declared.texts.settings.Settings.{Settings};
ghost use Rattle.jx_c.specs.LookUps.{IsAnswerOf, IsLed, IsLookUp, IsSpelt, shown_look_up};
ghost use Rattle.jx_c.specs.Settings.{settings_in};
ghost use Rattle.jx_index.specs.Found.{IsFoundBy, found_of};
ghost use Rattle.jx_index.specs.Leads.{led};
ghost use Rattle.jx_index.specs.Pointers.{tokens};

use crate::shapes::places::{JxSpan, kind_in, shown_span};
use crate::shapes::settings::{JxSettings, settings_in};
use crate::shapes::status::{DEPTH_TOO_GREAT, NO_MEMORY, OK, UNKNOWN_FLAG};
use crate::texts::by_names::find_each_by_names;
use jx_index::{FindFault, Found, Pointer, PointerFault};
use jx_lex::{Kind, Span};
use jx_run::{Refusal, Settings, unique_tree_by_settings};
use std::alloc::{AllocError, Global};
use std::{slice, str};

pub(crate) const FOUND: u32 = 0;

const NO_SUCH_MEMBER: u32 = 1;

const NAME_REPEATED: u32 = 2;

const NOT_AN_INDEX: u32 = 3;

const PAST_END: u32 = 4;

const AFTER_LAST: u32 = 5;

const NOT_A_CONTAINER: u32 = 6;

const NO_SLASH: u32 = 7;

const BAD_ESCAPE: u32 = 8;

const NOT_UTF8: u32 = 9;

const TEXT_STOPPED: u32 = 10;

const TEXT_TRUNCATED: u32 = 11;

const TEXT_TOO_DEEP: u32 = 12;

const TEXT_REPEATED_NAME: u32 = 13;

/// The answer to a pointer in a text.
#[repr(C)]
#[derive(Clone, Copy)]
pub struct JxAnswer {
    /// Where the value stands that was found; 0 and 0 where none was.
    pub span: JxSpan,
    /// The token that leads nowhere, or the offset of a fault in the pointer or in the text; 0 where the outcome has none.
    pub at: usize,
    pub outcome: u32,
    /// The kind of the value that was found; 0 where none was.
    pub kind: u32,
}

/// The answer to a pointer in bytes.
#[derive(Clone, Copy)]
pub enum LookUp {
    /// It leads to a value.
    Found { kind: Kind, span: Span },
    /// It leads nowhere.
    Lost(FindFault),
    /// It is no pointer.
    BadPointer(PointerFault),
    /// It is not in UTF-8, and so no pointer.
    NotUtf8,
    /// The bytes are not valid JSON.
    NoText(Refusal),
}

/// The answer that has this outcome and this token or offset, and no value.
fn answer(outcome: u32, at: usize) -> JxAnswer
    ensures { result ≡ record { span = record { start = 0; end = 0 }; at = at; outcome = outcome; kind = 0 } }
{
    JxAnswer {
        span: JxSpan { start: 0, end: 0 },
        at,
        outcome,
        kind: 0,
    }
}

/// A look-up as C sees it.
pub fn shown_look_up(look_up: LookUp) -> JxAnswer
    ensures { result ≡ shown_look_up look_up }
{
    match look_up {
        LookUp::Found { kind, span } => JxAnswer {
            span: shown_span(span),
            at: 0,
            outcome: FOUND,
            kind: kind_in(kind),
        },
        LookUp::Lost(FindFault::NoSuchMember { token }) => answer(NO_SUCH_MEMBER, token),
        LookUp::Lost(FindFault::NameRepeated { token }) => answer(NAME_REPEATED, token),
        LookUp::Lost(FindFault::NotAnIndex { token }) => answer(NOT_AN_INDEX, token),
        LookUp::Lost(FindFault::PastEnd { token }) => answer(PAST_END, token),
        LookUp::Lost(FindFault::AfterLast { token }) => answer(AFTER_LAST, token),
        LookUp::Lost(FindFault::NotAContainer { token }) => answer(NOT_A_CONTAINER, token),
        LookUp::BadPointer(PointerFault::NoSlash) => answer(NO_SLASH, 0),
        LookUp::BadPointer(PointerFault::BadEscape { at }) => answer(BAD_ESCAPE, at),
        LookUp::NotUtf8 => answer(NOT_UTF8, 0),
        LookUp::NoText(Refusal::Stopped { at }) => answer(TEXT_STOPPED, at),
        LookUp::NoText(Refusal::Truncated) => answer(TEXT_TRUNCATED, 0),
        LookUp::NoText(Refusal::TooDeep { at }) => answer(TEXT_TOO_DEEP, at),
        LookUp::NoText(Refusal::RepeatedName { at }) => answer(TEXT_REPEATED_NAME, at),
    }
}

/// The look-up of what was found in a text.
fn look_up_of(found: Result<Found, FindFault>) -> LookUp
    ensures { (text : List ℕ) (tree : Tree) (pointer : List ℕ) → found ≡ found_of (led text tree (tokens pointer)) → IsLed text tree pointer result }
{
    match found {
        Ok(value) => LookUp::Found {
            kind: value.kind,
            span: value.span,
        },
        Err(fault) => LookUp::Lost(fault),
    }
}

/// The answer to a pointer, by the refusal of the bytes or by what was found in them.
pub fn told(read: Result<Result<Found, FindFault>, Refusal>) -> LookUp
    ensures { (settings : Settings) (text pointer : List ℕ) → IsSpelt pointer → IsFoundBy settings text pointer read → IsLookUp settings text pointer result }
{
    unique_tree_by_settings();
    match read {
        Ok(found) => look_up_of(found),
        Err(refusal) => LookUp::NoText(refusal),
    }
}

/// The pointer in these bytes, or the answer where they are not a pointer.
pub fn spelt(pointer: &[u8]) -> Result<Pointer<'_>, LookUp>
    ensures pointer { IfOk result (λ p. p ≡ pointer.now) }
    ensures spelt { IfOk result (λ _. IsSpelt pointer.now) }
    ensures unspelt { IfErr result (λ _. IsSpelt pointer.now → ⊥) }
    ensures none { IfErr result (λ l. (settings : Settings) (text : List ℕ) → IsLookUp settings text pointer.now l) }
{
    let Ok(text) = str::from_utf8(pointer) else {
        return Err(LookUp::NotUtf8);
    };
    match Pointer::read(text) {
        Ok(read) => Ok(read),
        Err(fault) => Err(LookUp::BadPointer(fault)),
    }
}

/// The answer with this number.
pub fn found_at(all: &[Result<Found, FindFault>], number: usize) -> Result<Found, FindFault>
    requires { number < length all.now }
    ensures { slice_get all.now number ≡ Some result }
{
    all[number]
}

/// The answer to a pointer in a text by settings.
fn look_up_one(
    alloc: Global,
    text: &[u8],
    settings: &Settings,
    pointer: &Pointer,
) -> Result<LookUp, AllocError>
    ensures { IsSpelt pointer.now → IfOk result (IsLookUp settings.now text.now pointer.now) }
{
    match find_each_by_names(alloc, text, settings, slice::from_ref(pointer))? {
        Err(refusal) => Ok(told(Err(refusal))),
        Ok(found) => Ok(told(Ok(found_at(&found, 0)))),
    }
}

/// The answer to the bytes of a pointer in a text by settings.
pub fn look_up(
    alloc: Global,
    text: &[u8],
    pointer: &[u8],
    settings: &Settings,
) -> Result<LookUp, AllocError>
    ensures { IfOk result (IsLookUp settings.now text.now pointer.now) }
{
    match spelt(pointer) {
        Ok(read) => {
            let answer = look_up_one(alloc, text, settings, &read)?;
            Ok(answer)
        }
        Err(none) => Ok(none),
    }
}

/// The value of a pointer (RFC 6901) in a JSON text (RFC 8259) by settings. Bytes that are not a pointer are refused before the text is
/// read.
#[unsafe(no_mangle)]
pub extern "C" fn jx_at_non_null(
    alloc: Global,
    text: &[u8],
    pointer: &[u8],
    settings: &JxSettings,
    answer: &mut JxAnswer,
) -> u32
    ensures answer { result ≡ OK → IsAnswerOf (settings_in settings.now) text.now pointer.now answer.new }
    ensures depth { 65535 < settings.now.depth → result ≡ DEPTH_TOO_GREAT }
    ensures flags { settings.now.depth ≤ 65535 → 3 < settings.now.flags → result ≡ UNKNOWN_FLAG }
    ensures status { settings.now.depth ≤ 65535 → settings.now.flags ≤ 3 → (result ≡ OK) ⊎ (result ≡ NO_MEMORY) }
    ensures unchanged { (result ≡ OK → ⊥) → answer.new ≡ answer.old }
{
    let asked = match settings_in(settings) {
        Ok(asked) => asked,
        Err(status) => return status,
    };
    match look_up(alloc, text, pointer, &asked) {
        Ok(look_up) => {
            *answer = shown_look_up(look_up);
            OK
        }
        Err(AllocError) => NO_MEMORY,
    }
}
