// Numbers by which most names that differ are distinguished.
ghost use Rattle.std.specs.Prelude.{◌≡◌, ℕ, ◌<◌, false, get_or, length, map, IsTrue, IfOk};
ghost use Rattle.jx_index.specs.declared.units.Spelling.TheVariants.{InText};
ghost use Rattle.jx_index.specs.Units.{chars_units};
ghost use Rattle.jx_index.specs.inside.NameKeys.{key_behind, key_in, next_key, AreApart};

use crate::names::{first_plain, string_bytes};
use crate::units::{Spelling, Units, skip};
use jx_lex::Span;
use std::alloc::AllocError;

/// The key of units with one more.
fn next_key(key: u64, unit: u64) -> u64
    ensures { result ≡ next_key key unit }
{
    key.wrapping_mul(31).wrapping_add(unit)
}

/// The key of a name of which the units of these bytes are left.
fn key_of_rest(start: u64, bytes: &[u8]) -> u64
    ensures { result ≡ key_behind start (chars_units InText 0 bytes.now) }
{
    let mut key = start;
    let mut units = Units::new(bytes, Spelling::InText);
    while let Some(unit) = units.next_unit() {
        key = next_key(key, u64::from(unit));
    }
    key
}

/// The key of a name. Its bytes are its units up to the first one that is not.
fn key_of(text: &[u8], name: Span) -> u64
    ensures { result ≡ key_in text.now name }
{
    let bytes = string_bytes(text, name);
    let mut key = 0;
    for at in 0..bytes.len() {
        let rest = skip(bytes, at);
        match first_plain(rest, Spelling::InText) {
            Some(byte) => key = next_key(key, u64::from(byte)),
            None => return key_of_rest(key, rest),
        }
    }
    key
}

/// Lists the keys of names.
fn list_keys(text: &[u8], names: &[Span], keys: &mut Vec<u64>) -> Result<(), AllocError>
    ensures { IfOk result (λ _. keys.new.items ≡ map (key_in text.now) names.now) }
{
    keys.clear();
    for name in names {
        keys.push(key_of(text, *name))?;
    }
    Ok(())
}

/// Whether a key is among these.
fn is_among(keys: &[u64], key: u64) -> bool
    ensures { result ≡ false → (k : ℕ) → k < length keys.now → get_or keys.now k 0 ≡ key → ⊥ }
{
    for at in 0..keys.len() {
        if keys[at] == key {
            return true;
        }
    }
    false
}

/// Whether no two keys are equal.
fn are_apart(keys: &[u64]) -> bool
    ensures { IsTrue result → AreApart keys.now }
{
    for at in 0..keys.len() {
        if is_among(&keys[..at], keys[at]) {
            return false;
        }
    }
    true
}

/// Whether no two names have the same key, and so no two the same units. The keys stand in a list that is used again.
pub(crate) fn keys_are_apart(
    text: &[u8],
    names: &[Span],
    keys: &mut Vec<u64>,
) -> Result<bool, AllocError>
    ensures { IfOk result (λ apart. IsTrue apart → AreApart (map (key_in text.now) names.now)) }
{
    list_keys(text, names, keys)?;
    Ok(are_apart(keys))
}
