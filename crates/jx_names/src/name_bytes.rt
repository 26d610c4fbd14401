// The bytes that stand for names, one name after another in one list.
ghost use Rattle.std.specs.Prelude.{◌≡◌, ◌++◌, ◌∷◌, ◌+◌, ◌-◌, ◌≤◌, [], length, slice_range, IfOk, IsTrue};
ghost use Rattle.jx_index.specs.declared.units.Spelling.TheVariants.{InText};
ghost use Rattle.jx_index.specs.Units.{chars_units};
ghost use Rattle.jx_string.specs.Texts.{string_units};
ghost use Rattle.jx_names.specs.inside.KeptNames.{bytes_in};
ghost use Rattle.jx_names.specs.inside.NameBytes.{are_ascii, by_two, key_of_bytes, name_bytes};

use crate::name_key::key_of_bytes;
use jx_lex::plain_end;
use jx_string::{Units, between_marks};
use std::alloc::AllocError;

/// A name of an open object: where it begins in the text, which bytes of a list stand for it, and their key.
#[derive(Clone, Copy, Debug)]
pub struct Name {
    pub at: usize,
    pub from: usize,
    pub to: usize,
    pub key: u64,
}

/// The bytes of a name.
pub(crate) fn bytes_in(bytes: &[u8], name: Name) -> &[u8]
    ensures { result.now ≡ bytes_in bytes.now name }
{
    let behind = if name.from < bytes.len() {
        &bytes[name.from..]
    } else {
        &[]
    };
    let count = name.to.saturating_sub(name.from);
    if count < behind.len() {
        &behind[..count]
    } else {
        behind
    }
}

/// Whether each unit that some bytes of a string spell is ASCII.
fn is_ascii(bytes: &[u8]) -> bool
    ensures { result ≡ are_ascii (chars_units InText 0 bytes.now) }
{
    let mut left = Units::new(bytes);
    while let Some(unit) = left.next_unit() {
        if unit >= 0x80 {
            return false;
        }
    }
    true
}

/// Appends a number that is a byte. No string that a scan ends spells a unit of more than 16 bits: another number is
/// refused, as when out of memory.
fn push_byte(bytes: &mut Vec<u8>, number: u32) -> Result<(), AllocError>
    ensures { IfOk result (λ _. bytes.new.items ≡ bytes.old.items ++ number ∷ []) }
{
    if number > 0xff {
        return Err(AllocError);
    }
    bytes.push(number as u8)?;
    Ok(())
}

/// Appends the units of a string, a byte for each.
fn add_ascii(kept: &mut Vec<u8>, bytes: &[u8]) -> Result<(), AllocError>
    ensures { IfOk result (λ _. kept.new.items ≡ kept.old.items ++ chars_units InText 0 bytes.now) }
{
    let mut left = Units::new(bytes);
    while let Some(unit) = left.next_unit() {
        push_byte(kept, unit)?;
    }
    Ok(())
}

/// Appends the units of a string, two bytes for each.
fn add_by_two(kept: &mut Vec<u8>, bytes: &[u8]) -> Result<(), AllocError>
    ensures { IfOk result (λ _. kept.new.items ≡ kept.old.items ++ by_two (chars_units InText 0 bytes.now)) }
{
    let mut left = Units::new(bytes);
    while let Some(unit) = left.next_unit() {
        push_byte(kept, unit / 256)?;
        push_byte(kept, unit % 256)?;
    }
    Ok(())
}

/// Appends the bytes of a name that is not ASCII as it stands.
fn add_units(kept: &mut Vec<u8>, bytes: &[u8]) -> Result<(), AllocError>
    ensures { IfOk result (λ _. kept.new.items ≡ kept.old.items ++ name_bytes (chars_units InText 0 bytes.now)) }
{
    if is_ascii(bytes) {
        return add_ascii(kept, bytes);
    }
    kept.push(0xff)?;
    add_by_two(kept, bytes)
}

/// The same. Returns their key.
fn add_other(kept: &mut Vec<u8>, string: &[u8]) -> Result<u64, AllocError>
    ensures bytes { IfOk result (λ _. kept.new.items ≡ kept.old.items ++ name_bytes (string_units string.now)) }
    ensures key { IfOk result (λ key. key ≡ key_of_bytes (name_bytes (string_units string.now))) }
{
    let start = kept.len();
    add_units(kept, between_marks(string))?;
    if start < kept.len() {
        Ok(key_of_bytes(&kept[start..]))
    } else {
        Ok(key_of_bytes(&[]))
    }
}

/// Whether the string from one offset to another is ASCII without an escape.
#[inline(always)]
fn is_plain(text: &[u8], from: usize, to: usize) -> bool
    requires { (from ≤ to) × (to ≤ length text.now) }
    ensures long { IsTrue result → from + 2 ≤ to }
    ensures plain { IsTrue result → name_bytes (string_units (slice_range text.now from to)) ≡ slice_range text.now (from + 1) (to - 1) }
{
    if to - from < 2 {
        return false;
    }
    let end = plain_end(text, from + 1, to - 1);
    if end < to - 1 {
        return false;
    }
    true
}

/// How many bytes are appended at once, so that a short name needs no call.
const AT_ONCE: usize = 16;

/// Appends the bytes from one offset to another.
#[inline(always)]
#[tactic(auto, using(crate::proofs::PlainNames::short_part))]
fn append(kept: &mut Vec<u8>, text: &[u8], from: usize, to: usize) -> Result<(), AllocError>
    requires { (from ≤ to) × (to ≤ length text.now) }
    ensures { IfOk result (λ _. kept.new.items ≡ kept.old.items ++ slice_range text.now from to) }
{
    if to - from > AT_ONCE || text.len() - from < AT_ONCE {
        kept.extend_from_slice(&text[from..to])?;
        return Ok(());
    }
    let end = kept.len() + (to - from);
    kept.extend_from_slice(&text[from..from + AT_ONCE])?;
    kept.truncate(end);
    Ok(())
}

/// Appends the bytes of a name, by where it stands in a text with its quotation marks. Returns their key.
#[inline(always)]
pub(crate) fn add_name(
    kept: &mut Vec<u8>,
    text: &[u8],
    from: usize,
    to: usize,
) -> Result<u64, AllocError>
    requires { (from ≤ to) × (to ≤ length text.now) }
    ensures bytes { IfOk result (λ _. kept.new.items ≡ kept.old.items ++ name_bytes (string_units (slice_range text.now from to))) }
    ensures key { IfOk result (λ key. key ≡ key_of_bytes (name_bytes (string_units (slice_range text.now from to)))) }
{
    if !is_plain(text, from, to) {
        return add_other(kept, &text[from..to]);
    }
    append(kept, text, from + 1, to - 1)?;
    Ok(key_of_bytes(&text[from + 1..to - 1]))
}
