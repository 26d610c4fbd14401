// The tokens of a value, one after another.
ghost use Rattle.std.specs.Prelude.{◌≡◌, ◌+◌, ◌≤◌, ◌++◌, IfOk, length, true, vec_len, vec_capacity};
ghost use Rattle.jx_compact.specs.declared.place.Place.TheVariants.{Between};
ghost use Rattle.jx_compact.specs.Compact.{compact, compact_from, kept, place_behind};

use crate::alone::stands_alone;
use crate::place::{Place, is_kept, next};
use std::alloc::{AllocError, Global};

/// Appends a byte where it stays. There is room for it.
fn push_kept(out: &mut Vec<u8>, place: Place, byte: u8)
    requires { vec_len out.old + 1 ≤ vec_capacity out.old }
    ensures items { out.new.items ≡ out.old.items ++ kept place byte }
    ensures len { vec_len out.new ≤ vec_len out.old + 1 }
    ensures room { vec_capacity out.old ≤ vec_capacity out.new }
{
    if is_kept(place, byte) {
        if out.push(byte).is_err() {
            unreachable!();
        }
    }
}

/// Appends the bytes that stay, one after another, and answers where the byte after them stands. There is room for all of them.
fn compact_each(out: &mut Vec<u8>, place: Place, bytes: &[u8]) -> Place
    requires { vec_len out.old + length bytes.now ≤ vec_capacity out.old }
    ensures items { out.new.items ≡ out.old.items ++ compact_from place bytes.now }
    ensures place { result ≡ place_behind place bytes.now }
    ensures room { vec_capacity out.old ≤ vec_capacity out.new }
{
    let mut place = place;
    for byte in bytes {
        push_kept(out, place, *byte);
        place = next(place, *byte);
    }
    place
}

/// Whether bytes outside of strings are one token, so that all of them stay.
fn stay_all(place: Place, bytes: &[u8]) -> bool
    ensures place { result ≡ true → place ≡ Between }
    ensures stays { result ≡ true → compact_from place bytes.now ≡ bytes.now }
    ensures behind { result ≡ true → place_behind place bytes.now ≡ Between }
{
    match place {
        Place::Between => stands_alone(bytes),
        Place::Inside | Place::Escaped => false,
    }
}

/// Appends the bytes that stay, where the first one stands there, and answers where the byte after them stands. There
/// is room for all of them, so that no memory is taken. Bytes of one token are mostly taken at once.
pub fn compact_onto(out: &mut Vec<u8>, place: Place, bytes: &[u8]) -> Place
    requires { vec_len out.old + length bytes.now ≤ vec_capacity out.old }
    ensures items { out.new.items ≡ out.old.items ++ compact_from place bytes.now }
    ensures place { result ≡ place_behind place bytes.now }
    ensures room { vec_capacity out.old ≤ vec_capacity out.new }
{
    if stay_all(place, bytes) {
        if out.extend_from_slice(bytes).is_err() {
            unreachable!();
        }
        return Place::Between;
    }
    compact_each(out, place, bytes)
}

/// The bytes of a value without the white space between its tokens (RFC 8259, section 2). Each token has the bytes that
/// it had.
pub fn compact(alloc: Global, bytes: &[u8]) -> Result<Vec<u8>, AllocError>
    ensures { IfOk result (λ out. out.items ≡ compact bytes.now) }
{
    let mut out = Vec::with_capacity(alloc, bytes.len())?;
    compact_onto(&mut out, Place::Between, bytes);
    Ok(out)
}
