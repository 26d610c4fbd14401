// Bytes that are known to be JSON without being read.
ghost use Rattle.std.specs.Prelude.{◌≡◌, ◌∷◌, ◌++◌, ◌&&◌, [], true, IfSome, IsUtf8};
ghost use Rattle.jx_serve.specs.inside.Sound.{are_digits, are_ordinary, are_plain, is_digit, is_natural, is_ordinary, is_plain, IsAString, IsPlain, IsPlainValue};

use std::str;

/// Whether a byte is ASCII that stands for itself in a string.
fn is_plain(byte: u8) -> bool
    ensures { result ≡ is_plain byte }
{
    0x20 <= byte && byte <= 0x7e && byte != b'"' && byte != b'\\'
}

/// Whether all bytes are.
fn are_plain(bytes: &[u8]) -> bool
    ensures { result ≡ are_plain bytes.now }
{
    bytes.iter().all(|byte| is_plain(*byte))
}

/// The bytes between quotation marks at both ends of some bytes; none where they are not there.
fn between_quotes(bytes: &[u8]) -> Option<&[u8]>
    ensures { IfSome result (λ inside. bytes.now ≡ 0x22 ∷ (inside.now ++ (0x22 ∷ []))) }
{
    let last = bytes.len().saturating_sub(1);
    if last == 0 || bytes[0] != b'"' || bytes[last] != b'"' {
        return None;
    }
    Some(&bytes[1..last])
}

/// The bytes of a string between its quotation marks, where it has no other characters; none where the bytes are no such string.
pub(crate) fn plain_inside(bytes: &[u8]) -> Option<&[u8]>
    ensures { IfSome result (λ inside. IsPlain bytes.now) }
{
    let inside = between_quotes(bytes)?;
    if are_plain(inside) {
        Some(inside)
    } else {
        None
    }
}

/// Whether a byte may stand for itself in a string, alone or in a character.
fn is_ordinary(byte: u8) -> bool
    ensures { result ≡ is_ordinary byte }
{
    0x20 <= byte && byte != b'"' && byte != b'\\'
}

/// Whether all bytes are.
fn are_ordinary(bytes: &[u8]) -> bool
    ensures { result ≡ are_ordinary bytes.now }
{
    bytes.iter().all(|byte| is_ordinary(*byte))
}

/// Whether bytes are text in UTF-8.
fn is_utf8(bytes: &[u8]) -> bool
    ensures { result ≡ true → IsUtf8 bytes.now }
{
    match str::from_utf8(bytes) {
        Ok(_) => true,
        Err(_) => false,
    }
}

/// Whether bytes are a string in which each character stands for itself.
pub(crate) fn is_unescaped_string(bytes: &[u8]) -> bool
    ensures { result ≡ true → IsAString bytes.now }
{
    match between_quotes(bytes) {
        None => false,
        Some(inside) => are_ordinary(inside) && is_utf8(inside),
    }
}

/// Whether both hold.
pub(crate) fn both(one: bool, other: bool) -> bool
    ensures { result ≡ one && other }
{
    one && other
}

fn is_digit(byte: u8) -> bool
    ensures { result ≡ is_digit byte }
{
    b'0' <= byte && byte <= b'9'
}

/// Whether all bytes are digits.
fn are_digits(bytes: &[u8]) -> bool
    ensures { result ≡ are_digits bytes.now }
{
    bytes.iter().all(|byte| is_digit(*byte))
}

/// Whether bytes are a number without a sign, a fraction and an exponent.
fn is_natural(bytes: &[u8]) -> bool
    ensures { result ≡ is_natural bytes.now }
{
    let Some((first, others)) = bytes.split_first() else {
        return false;
    };
    if *first == b'0' {
        others.is_empty()
    } else {
        b'1' <= *first && *first <= b'9' && are_digits(others)
    }
}

/// Whether bytes are such a number or such a string.
pub(crate) fn is_plain_value(bytes: &[u8]) -> bool
    ensures { result ≡ true → IsPlainValue bytes.now }
{
    plain_inside(bytes).is_some() || is_natural(bytes)
}
