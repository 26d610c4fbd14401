// The values of a container in a text that comes slice by slice. Each call takes the stream out of the caller's struct and puts it
// back. The calls of the C header have these names without `_non_null`, and answer null pointers.
ghost use Rattle.std.specs.Prelude.{◌≡◌, ◌⊎◌, ◌<◌, ◌≤◌, ◌+◌, ◌^◌, ◌++◌, [], ℕ, List, IfErr, IfOk, None, Some, length};
ghost use Rattle.jx_run.specs.declared.texts.settings.NameRule.TheVariants.{Any};
ghost use Rattle.jx_run.specs.declared.texts.settings.Settings.{Settings};
ghost use Rattle.jx_c.specs.Compact.{IsPlaced};
ghost use Rattle.jx_c.specs.LookUps.{IsSpelt};
ghost use Rattle.jx_c.specs.Settings.{settings_in};
ghost use Rattle.jx_c.specs.Values.{AreDue, HasStreamed, IsBegun, IsFed, IsOutcomeIn, IsTaken, StreamValue, end_of};

use crate::runs::put;
use crate::shapes::settings::{JxSettings, settings_in};
use crate::shapes::status::{
    DEPTH_TOO_GREAT, NO_MEMORY, NO_ROOM, NO_UNIQUE_NAMES, NO_VALUES, NOT_A_POINTER, OK,
    TOO_MANY_BYTES, UNKNOWN_FLAG,
};
use crate::shapes::unboxed::sent;
use crate::streams::held_values::JxValues;
use crate::streams::stream::{JxOutcome, ValueStream};
use crate::texts::look_up::spelt;
use jx_each::lines_taken_and_waiting;
use jx_run::{NameRule, Settings};
use std::alloc::{AllocError, Global};
use std::str;

/// The pointer in these bytes, or the status where they are not a pointer.
fn pointer_in(bytes: &'static [u8]) -> Result<&'static str, u32>
    ensures text { IfOk result (λ text. text.now ≡ bytes.now) }
    ensures spelt { IfOk result (λ _. IsSpelt bytes.now) }
    ensures none { IfErr result (λ status. (status ≡ NOT_A_POINTER) × (IsSpelt bytes.now → ⊥)) }
{
    if spelt(bytes).is_err() {
        return Err(NOT_A_POINTER);
    }
    match str::from_utf8(bytes) {
        Ok(text) => Ok(text),
        Err(_) => Err(NOT_A_POINTER),
    }
}

/// A stream that was fed no byte.
fn boxed(
    alloc: Global,
    settings: &Settings,
    pointer: &'static str,
) -> Result<Box<ValueStream>, AllocError>
    requires any { settings.now.names ≡ Any }
    requires pointer { IsSpelt pointer.now }
    ensures { IfOk result (λ whole. HasStreamed settings.now pointer.now [] [] whole.value) }
{
    let stream = ValueStream::new(alloc, settings, pointer)?;
    Ok(Box::new(alloc, sent(stream))?)
}

/// Begins a text by settings and a pointer (RFC 6901) to the container. The stream that the struct held is freed. The pointer has
/// to stand as it is until the stream ends or is freed: C says so by calling this. Unique names are refused, as it keeps no names.
#[unsafe(no_mangle)]
pub extern "C" fn jx_values_new_non_null(
    alloc: Global,
    pointer: &'static [u8],
    settings: &JxSettings,
    values: &mut JxValues,
) -> u32
    ensures made { result ≡ OK → IsBegun (settings_in settings.now) pointer.now values.new.held }
    ensures depth { 65535 < settings.now.depth → result ≡ DEPTH_TOO_GREAT }
    ensures flags { settings.now.depth ≤ 65535 → 3 < settings.now.flags → result ≡ UNKNOWN_FLAG }
    ensures names { settings.now.depth ≤ 65535 → 1 < settings.now.flags → settings.now.flags ≤ 3 → result ≡ NO_UNIQUE_NAMES }
    ensures unspelt { settings.now.depth ≤ 65535 → settings.now.flags ≤ 1 → (IsSpelt pointer.now → ⊥) → result ≡ NOT_A_POINTER }
    ensures status { settings.now.depth ≤ 65535 → settings.now.flags ≤ 1 → IsSpelt pointer.now → (result ≡ OK) ⊎ (result ≡ NO_MEMORY) }
    ensures unchanged { (result ≡ OK → ⊥) → values.new.held ≡ values.old.held }
{
    let asked = match settings_in(settings) {
        Ok(asked) => asked,
        Err(status) => return status,
    };
    if asked.names == NameRule::Unique {
        return NO_UNIQUE_NAMES;
    }
    let text = match pointer_in(pointer) {
        Ok(text) => text,
        Err(status) => return status,
    };
    match boxed(alloc, &asked, text) {
        Ok(whole) => {
            let _ = values.replace(alloc, Some(whole));
            OK
        }
        Err(AllocError) => NO_MEMORY,
    }
}

/// Reads the bytes after all that the stream was fed. When out of memory the struct is empty afterwards.
#[unsafe(no_mangle)]
pub extern "C" fn jx_values_feed_non_null(alloc: Global, values: &mut JxValues, bytes: &[u8]) -> u32
    ensures none { values.old.held ≡ None → result ≡ NO_VALUES }
    ensures fed { (s : StreamValue) → values.old.held ≡ Some s → result ≡ OK → IsFed s bytes.now values.new.held }
    ensures status { (s : StreamValue) → values.old.held ≡ Some s → end_of s + length bytes.now < 2 ^ 64 → (result ≡ OK) ⊎ (result ≡ NO_MEMORY) }
    ensures many { (s : StreamValue) → values.old.held ≡ Some s → 2 ^ 64 ≤ end_of s + length bytes.now → result ≡ TOO_MANY_BYTES }
    ensures lost { result ≡ NO_MEMORY → values.new.held ≡ None }
    ensures unchanged { (result ≡ OK → ⊥) → (result ≡ NO_MEMORY → ⊥) → values.new.held ≡ values.old.held }
{
    let Some(mut whole) = values.replace(alloc, None) else {
        return NO_VALUES;
    };
    if bytes.len() > usize::MAX - whole.end() {
        let _ = values.replace(alloc, Some(whole));
        return TOO_MANY_BYTES;
    }
    match whole.feed(bytes) {
        Ok(()) => {
            let _ = values.replace(alloc, Some(whole));
            OK
        }
        Err(AllocError) => NO_MEMORY,
    }
}

/// Moves the lines that wait into the buffer, if that has room for all, and puts their size into `size`.
fn move_out(whole: &mut ValueStream, lines: &mut [u8], size: &mut usize) -> u32
    ensures size { size.new ≡ length whole.old.each.ready }
    ensures placed { result ≡ OK → IsPlaced whole.old.each.ready lines.old lines.new size.new }
    ensures due { AreDue whole.old whole.old.each.ready }
    ensures taken { result ≡ OK → (settings : Settings) (pointer input given : List ℕ) → HasStreamed settings pointer input given whole.old
        → HasStreamed settings pointer input (given ++ whole.old.each.ready) whole.new }
    ensures none_wait { result ≡ OK → whole.new.each.ready ≡ [] }
    ensures room { result ≡ NO_ROOM → length lines.old < size.new }
    ensures same { (result ≡ OK → ⊥) → whole.new ≡ whole.old }
    ensures status { (result ≡ OK) ⊎ (result ≡ NO_ROOM) }
    ensures unchanged { (result ≡ OK → ⊥) → lines.new ≡ lines.old }
{
    lines_taken_and_waiting();
    let status = put(whole.ready(), lines, size);
    if status == OK {
        whole.clear_ready();
    }
    status
}

/// Moves the lines of the values that are due, and were not moved before, into the buffer: all of them, where it has room. It
/// takes no memory.
#[unsafe(no_mangle)]
pub extern "C" fn jx_values_take_non_null(
    alloc: Global,
    values: &mut JxValues,
    lines: &mut [u8],
    size: &mut usize,
) -> u32
    ensures none { values.old.held ≡ None → result ≡ NO_VALUES }
    ensures taken { (s : StreamValue) → values.old.held ≡ Some s → result ≡ OK → IsTaken s lines.old lines.new size.new values.new.held }
    ensures room { (s : StreamValue) → values.old.held ≡ Some s → result ≡ NO_ROOM → (size.new ≡ length s.each.ready) × (length lines.old < size.new) }
    ensures status { (s : StreamValue) → values.old.held ≡ Some s → (result ≡ OK) ⊎ (result ≡ NO_ROOM) }
    ensures same { (result ≡ OK → ⊥) → values.new.held ≡ values.old.held }
    ensures unchanged_lines { (result ≡ OK → ⊥) → lines.new ≡ lines.old }
    ensures unchanged_size { result ≡ NO_VALUES → size.new ≡ size.old }
{
    let Some(mut whole) = values.replace(alloc, None) else {
        return NO_VALUES;
    };
    let status = move_out(&mut whole, lines, size);
    let _ = values.replace(alloc, Some(whole));
    status
}

/// Ends the stream: where the pointer leads in the text of all bytes that it was fed, or why that is not valid JSON. The struct has no
/// stream afterwards.
#[unsafe(no_mangle)]
pub extern "C" fn jx_values_end_non_null(
    alloc: Global,
    values: &mut JxValues,
    outcome: &mut JxOutcome,
) -> u32
    ensures none { values.old.held ≡ None → result ≡ NO_VALUES }
    ensures told { (s : StreamValue) → values.old.held ≡ Some s → result ≡ OK → IsOutcomeIn s outcome.new }
    ensures status { (s : StreamValue) → values.old.held ≡ Some s → (result ≡ OK) ⊎ (result ≡ NO_MEMORY) }
    ensures ended { values.new.held ≡ None }
    ensures unchanged { (result ≡ OK → ⊥) → outcome.new ≡ outcome.old }
{
    let Some(whole) = values.replace(alloc, None) else {
        return NO_VALUES;
    };
    match Box::into_inner(whole).outcome() {
        Ok(told) => {
            *outcome = told;
            OK
        }
        Err(AllocError) => NO_MEMORY,
    }
}

/// Frees the stream, if there is one. The struct holds none afterwards.
#[unsafe(no_mangle)]
pub extern "C" fn jx_values_free_non_null(alloc: Global, values: &mut JxValues)
    ensures { values.new.held ≡ None }
{
    let _ = values.replace(alloc, None);
}
