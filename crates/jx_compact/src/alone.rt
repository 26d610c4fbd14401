// Values of one token, which are compact as they stand.
ghost use Rattle.std.specs.Prelude.{◌≡◌, true};
ghost use Rattle.std.specs.List.{list_all};
ghost use Rattle.jx_compact.specs.declared.place.Place.TheVariants.{Between};
ghost use Rattle.jx_compact.specs.Compact.{compact_from, place_behind};
ghost use Rattle.jx_compact.specs.inside.Alone.{is_bare, is_inner};

use crate::place::{Place, is_kept};

/// Whether a byte outside of strings stays, and begins none.
#[inline(always)]
fn is_bare(byte: u8) -> bool
    ensures { result ≡ is_bare byte }
{
    if byte == b'"' {
        false
    } else {
        is_kept(Place::Between, byte)
    }
}

/// Whether each byte does.
fn are_bare(bytes: &[u8]) -> bool
    ensures { result ≡ list_all is_bare bytes.now }
{
    for byte in bytes {
        if !is_bare(*byte) {
            return false;
        }
    }
    true
}

/// Whether a byte in a string neither ends it nor begins an escape.
#[inline(always)]
fn is_inner(byte: u8) -> bool
    ensures { result ≡ is_inner byte }
{
    if byte == b'"' { false } else { byte != b'\\' }
}

/// Whether each byte is one of those.
fn are_inner(bytes: &[u8]) -> bool
    ensures { result ≡ list_all is_inner bytes.now }
{
    for byte in bytes {
        if !is_inner(*byte) {
            return false;
        }
    }
    true
}

/// Whether the bytes are a string without an escape, or have neither white space nor a string. All of them stay then.
pub(crate) fn stands_alone(bytes: &[u8]) -> bool
    ensures stays { result ≡ true → compact_from Between bytes.now ≡ bytes.now }
    ensures place { result ≡ true → place_behind Between bytes.now ≡ Between }
{
    let len = bytes.len();
    if len >= 2 && bytes[0] == b'"' && bytes[len - 1] == b'"' {
        return are_inner(&bytes[1..len - 1]);
    }
    are_bare(bytes)
}
