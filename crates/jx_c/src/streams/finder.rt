// Look-ups of pointers in a text that comes slice by slice. Each call takes the look-up out of the caller's struct and puts it
// back. The calls of the C header have these names without `_non_null`, and answer null pointers.
ghost use Rattle.std.specs.Prelude.{◌≡◌, ◌⊎◌, ◌<◌, ◌≤◌, ◌+◌, ◌^◌, [], IfOk, None, Some, length};
ghost use Rattle.jx_run.specs.declared.texts.settings.NameRule.TheVariants.{Any};
ghost use Rattle.jx_c.specs.Seeks.{AreAnswersIn, HasSought, IsBegun, IsFed, SeekingValue, end_of};
ghost use Rattle.jx_c.specs.Settings.{settings_in};

use crate::shapes::settings::{JxSettings, settings_in};
use crate::shapes::status::{
    DEPTH_TOO_GREAT, NO_FINDER, NO_MEMORY, NO_UNIQUE_NAMES, OK, TOO_MANY_BYTES, UNKNOWN_FLAG,
};
use crate::shapes::unboxed::sent;
use crate::streams::held_finder::JxFinder;
use crate::streams::seeking::Seeking;
use crate::texts::all::JxPointer;
use crate::texts::look_up::JxAnswer;
use jx_run::{NameRule, Settings};
use std::alloc::{AllocError, Global};

/// A look-up of these pointers that was fed no byte.
fn boxed(
    alloc: Global,
    settings: &Settings,
    pointers: &'static [JxPointer<'static>],
) -> Result<Box<Seeking>, AllocError>
    requires { settings.now.names ≡ Any }
    ensures { IfOk result (λ whole. HasSought settings.now pointers.now [] whole.value) }
{
    let seeking = Seeking::new(alloc, settings, pointers)?;
    Ok(Box::new(alloc, sent(seeking))?)
}

/// Begins a look-up of pointers (RFC 6901) in a text by settings. The one that the struct held is freed. The pointers have to stand
/// as they are until the look-up ends or is freed: C says so by calling this. Unique names are refused, as it keeps no names.
#[unsafe(no_mangle)]
pub extern "C" fn jx_finder_new_non_null(
    alloc: Global,
    pointers: &'static [JxPointer<'static>],
    settings: &JxSettings,
    finder: &mut JxFinder,
) -> u32
    ensures made { result ≡ OK → IsBegun (settings_in settings.now) pointers.now finder.new.held }
    ensures depth { 65535 < settings.now.depth → result ≡ DEPTH_TOO_GREAT }
    ensures flags { settings.now.depth ≤ 65535 → 3 < settings.now.flags → result ≡ UNKNOWN_FLAG }
    ensures names { settings.now.depth ≤ 65535 → 1 < settings.now.flags → settings.now.flags ≤ 3 → result ≡ NO_UNIQUE_NAMES }
    ensures status { settings.now.depth ≤ 65535 → settings.now.flags ≤ 1 → (result ≡ OK) ⊎ (result ≡ NO_MEMORY) }
    ensures unchanged { (result ≡ OK → ⊥) → finder.new.held ≡ finder.old.held }
{
    let asked = match settings_in(settings) {
        Ok(asked) => asked,
        Err(status) => return status,
    };
    if asked.names == NameRule::Unique {
        return NO_UNIQUE_NAMES;
    }
    match boxed(alloc, &asked, pointers) {
        Ok(whole) => {
            let _ = finder.replace(alloc, Some(whole));
            OK
        }
        Err(AllocError) => NO_MEMORY,
    }
}

/// Reads the bytes after all that the look-up was fed. When out of memory the struct is empty afterwards.
#[unsafe(no_mangle)]
pub extern "C" fn jx_finder_feed_non_null(alloc: Global, finder: &mut JxFinder, bytes: &[u8]) -> u32
    ensures none { finder.old.held ≡ None → result ≡ NO_FINDER }
    ensures fed { (s : SeekingValue) → finder.old.held ≡ Some s → result ≡ OK → IsFed s bytes.now finder.new.held }
    ensures status { (s : SeekingValue) → finder.old.held ≡ Some s → end_of s + length bytes.now < 2 ^ 64 → (result ≡ OK) ⊎ (result ≡ NO_MEMORY) }
    ensures many { (s : SeekingValue) → finder.old.held ≡ Some s → 2 ^ 64 ≤ end_of s + length bytes.now → result ≡ TOO_MANY_BYTES }
    ensures lost { result ≡ NO_MEMORY → finder.new.held ≡ None }
    ensures unchanged { (result ≡ OK → ⊥) → (result ≡ NO_MEMORY → ⊥) → finder.new.held ≡ finder.old.held }
{
    let Some(mut whole) = finder.replace(alloc, None) else {
        return NO_FINDER;
    };
    if bytes.len() > usize::MAX - whole.end() {
        let _ = finder.replace(alloc, Some(whole));
        return TOO_MANY_BYTES;
    }
    match whole.feed(bytes) {
        Ok(()) => {
            let _ = finder.replace(alloc, Some(whole));
            OK
        }
        Err(AllocError) => NO_MEMORY,
    }
}

/// Ends the look-up: the value of each pointer in the text of all bytes that it was fed, as by `jx_at`, as many answers as
/// the buffer has room for. The struct holds no look-up afterwards.
#[unsafe(no_mangle)]
pub extern "C" fn jx_finder_end_non_null(
    alloc: Global,
    finder: &mut JxFinder,
    answers: &mut [JxAnswer],
) -> u32
    ensures none { finder.old.held ≡ None → result ≡ NO_FINDER }
    ensures answers { (s : SeekingValue) → finder.old.held ≡ Some s → result ≡ OK → AreAnswersIn s answers.old answers.new }
    ensures status { (s : SeekingValue) → finder.old.held ≡ Some s → (result ≡ OK) ⊎ (result ≡ NO_MEMORY) }
    ensures ended { finder.new.held ≡ None }
    ensures unchanged { (result ≡ OK → ⊥) → answers.new ≡ answers.old }
{
    let Some(whole) = finder.replace(alloc, None) else {
        return NO_FINDER;
    };
    match Box::into_inner(whole).answer(answers) {
        Ok(()) => OK,
        Err(AllocError) => NO_MEMORY,
    }
}

/// Frees the look-up, if there is one. The struct holds none afterwards.
#[unsafe(no_mangle)]
pub extern "C" fn jx_finder_free_non_null(alloc: Global, finder: &mut JxFinder)
    ensures { finder.new.held ≡ None }
{
    let _ = finder.replace(alloc, None);
}
