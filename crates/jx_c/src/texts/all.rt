// The answers to many pointers in one text, which is read once for all of them.
ghost use Rattle.std.specs.Prelude.{◌≡◌, ◌⊎◌, ◌<◌, ◌≤◌, ℕ, List, IfErr, IfOk, Some, length, slice_get};
ghost use Rattle.std.specs.List.{AllZip};
ghost use Rattle.jx_run.specs.declared.texts.settings.Settings.{Settings};
ghost use Rattle.jx_c.specs.Indexes.{AreAnswersOf, IsReadFor};
ghost use Rattle.jx_c.specs.LookUps.{IsLookUp, IsPointerOf, IsSpelt};
ghost use Rattle.jx_c.specs.Settings.{settings_in};
ghost use Rattle.jx_c.specs.declared.texts.all.JxPointer.{JxPointer};

use crate::shapes::settings::{JxSettings, settings_in};
use crate::shapes::status::{DEPTH_TOO_GREAT, NO_MEMORY, OK, UNKNOWN_FLAG};
use crate::texts::by_names::find_each_by_names;
use crate::texts::look_up::{JxAnswer, LookUp, found_at, shown_look_up, spelt, told};
use jx_index::{FindFault, Found, Pointer};
use jx_run::{Refusal, Settings};
use std::alloc::{AllocError, Global};

/// The bytes of a pointer (RFC 6901).
#[repr(C)]
#[derive(Clone, Copy)]
pub struct JxPointer<'p> {
    pub bytes: &'p [u8],
}

/// The pointer in these bytes; where they are not a pointer, that of the whole text.
fn pointer_or_root<'p>(pointer: JxPointer<'p>) -> Pointer<'p>
    ensures { IsPointerOf pointer.entry.bytes.now result }
{
    let Ok(read) = spelt(pointer.bytes) else {
        return Pointer::root();
    };
    read
}

/// The pointer with this number.
fn pointer_at<'p>(pointers: &[JxPointer<'p>], number: usize) -> JxPointer<'p>
    requires { number < length pointers.now }
    ensures { slice_get pointers.now number ≡ Some result }
{
    pointers[number]
}

/// The pointers in order, with that of the whole text for bytes that are not a pointer.
pub(crate) fn pointers_of<'p>(
    alloc: Global,
    pointers: &[JxPointer<'p>],
) -> Result<Vec<Pointer<'p>>, AllocError>
    ensures { IfOk result (λ all. AllZip (λ p. IsPointerOf p.bytes.now) pointers.now all.items) }
{
    let mut all = Vec::with_capacity(alloc, pointers.len())?;
    for at in 0..pointers.len() {
        all.push(pointer_or_root(pointer_at(pointers, at)))?;
    }
    Ok(all)
}

/// Reads a text for pointers: what was found for each of them, in order, or the refusal. For one that is no pointer,
/// something stands among what was found.
fn read_for(
    alloc: Global,
    text: &[u8],
    settings: &Settings,
    pointers: &[JxPointer],
) -> Result<Result<Vec<Result<Found, FindFault>>, Refusal>, AllocError>
    ensures { IfOk result (IsReadFor settings.now text.now pointers.now) }
{
    let all = pointers_of(alloc, pointers)?;
    find_each_by_names(alloc, text, settings, &all)
}

/// The answer to the pointer with this number, if it is one.
fn told_at(read: &Result<Vec<Result<Found, FindFault>>, Refusal>, number: usize) -> LookUp
    requires { IfOk read.now (λ all. number < length all.items) }
    ensures { (settings : Settings) (text : List ℕ) (pointers : List JxPointer) (pointer : JxPointer) → IsReadFor settings text pointers read.now
        → slice_get pointers number ≡ Some pointer → IsSpelt pointer.bytes.now → IsLookUp settings text pointer.bytes.now result }
{
    match read {
        Ok(all) => told(Ok(found_at(all, number))),
        Err(refusal) => told(Err(*refusal)),
    }
}

/// The answer to the bytes with this number.
fn look_up_at(
    read: &Result<Vec<Result<Found, FindFault>>, Refusal>,
    pointer: JxPointer,
    number: usize,
) -> LookUp
    requires { IfOk read.now (λ all. number < length all.items) }
    ensures { (settings : Settings) (text : List ℕ) (pointers : List JxPointer) → IsReadFor settings text pointers read.now
        → slice_get pointers number ≡ Some pointer.entry → IsLookUp settings text pointer.entry.bytes.now result }
{
    match spelt(pointer.bytes) {
        Ok(_) => told_at(read, number),
        Err(none) => none,
    }
}

/// How many of the pointers have an answer: all of them, where a text was read for these.
fn count_of(read: &Result<Vec<Result<Found, FindFault>>, Refusal>, pointers: &[JxPointer]) -> usize
    ensures within { result ≤ length pointers.now }
    ensures found { IfOk read.now (λ all. result ≤ length all.items) }
    ensures all { (settings : Settings) (text : List ℕ) → IsReadFor settings text pointers.now read.now → result ≡ length pointers.now }
{
    match read {
        Ok(all) => all.len().min(pointers.len()),
        Err(_) => pointers.len(),
    }
}

/// Puts the answers into the buffer, as many as it has room for.
pub(crate) fn answer_all(
    read: &Result<Vec<Result<Found, FindFault>>, Refusal>,
    pointers: &[JxPointer],
    answers: &mut [JxAnswer],
)
    ensures { (settings : Settings) (text : List ℕ) → IsReadFor settings text pointers.now read.now → AreAnswersOf settings text pointers.now answers.old answers.new }
{
    let count = answers.len().min(count_of(read, pointers));
    for at in 0..count {
        let pointer = pointer_at(pointers, at);
        answers[at] = shown_look_up(look_up_at(read, pointer, at));
    }
}

/// Reads a text and puts the answers into the buffer.
fn answer_each(
    alloc: Global,
    text: &[u8],
    settings: &Settings,
    pointers: &[JxPointer],
    answers: &mut [JxAnswer],
) -> Result<(), AllocError>
    ensures answers { IfOk result (λ _. AreAnswersOf settings.now text.now pointers.now answers.old answers.new) }
    ensures unchanged { IfErr result (λ _. answers.new ≡ answers.old) }
{
    let read = read_for(alloc, text, settings, pointers)?;
    answer_all(&read, pointers, answers);
    Ok(())
}

/// The value of each of many pointers in one text, as by `jx_at`: as many answers as the buffer has room for. The text is
/// read once for all of them, and twice where names have to be unique.
#[unsafe(no_mangle)]
pub extern "C" fn jx_at_all_non_null(
    alloc: Global,
    text: &[u8],
    settings: &JxSettings,
    pointers: &[JxPointer],
    answers: &mut [JxAnswer],
) -> u32
    ensures answers { result ≡ OK → AreAnswersOf (settings_in settings.now) text.now pointers.now answers.old answers.new }
    ensures depth { 65535 < settings.now.depth → result ≡ DEPTH_TOO_GREAT }
    ensures flags { settings.now.depth ≤ 65535 → 3 < settings.now.flags → result ≡ UNKNOWN_FLAG }
    ensures status { settings.now.depth ≤ 65535 → settings.now.flags ≤ 3 → (result ≡ OK) ⊎ (result ≡ NO_MEMORY) }
    ensures unchanged { (result ≡ OK → ⊥) → answers.new ≡ answers.old }
{
    let asked = match settings_in(settings) {
        Ok(asked) => asked,
        Err(status) => return status,
    };
    match answer_each(alloc, text, &asked, pointers, answers) {
        Ok(()) => OK,
        Err(AllocError) => NO_MEMORY,
    }
}
