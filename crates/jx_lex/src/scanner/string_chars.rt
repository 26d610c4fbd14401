// Where whole characters and escapes inside a string end.
ghost use Rattle.std.specs.Prelude.{◌≡◌, ◌≤◌, ◌<◌, ◌+◌, IsTrue, length, take, slice_range};
ghost use Rattle.jx_lex.specs.declared.alphabet.state.LexState.TheVariants as state;
ghost use Rattle.jx_lex.specs.Ahead.{IsSound};
ghost use Rattle.jx_lex.specs.Uneventful.{Leads, is_tail, is_two, is_three, is_four, is_escaped, is_escape, is_hex, is_unit};

use crate::scanner::ahead::{Ahead, LEAST};
use crate::scanner::byte_sets::{plain_end, unescaped_end};
use crate::scanner::escape_blocks::escaped_blocks_end;

/// Whether the byte is one of those after the first of a character above 7F: 80 up to BF.
#[inline(always)]
fn is_tail(byte: u8) -> bool
    ensures { result ≡ is_tail byte }
{
    byte >= 0x80 && byte <= 0xbf
}

/// Whether these bytes are a whole character of two bytes in UTF-8.
#[inline(always)]
fn is_two(a: u8, b: u8) -> bool
    ensures { result ≡ is_two a b }
{
    a >= 0xc2 && a <= 0xdf && is_tail(b)
}

/// Whether these bytes are a whole character of three bytes in UTF-8.
#[inline(always)]
fn is_three(a: u8, b: u8, c: u8) -> bool
    ensures { result ≡ is_three a b c }
{
    a >= 0xe0
        && a <= 0xef
        && is_tail(b)
        && is_tail(c)
        && (a != 0xe0 || b >= 0xa0)
        && (a != 0xed || b <= 0x9f)
}

/// Whether these bytes are a whole character of four bytes in UTF-8.
#[inline(always)]
fn is_four(a: u8, b: u8, c: u8, d: u8) -> bool
    ensures { result ≡ is_four a b c d }
{
    a >= 0xf0
        && a <= 0xf4
        && is_tail(b)
        && is_tail(c)
        && is_tail(d)
        && (a != 0xf0 || b >= 0x90)
        && (a != 0xf4 || b <= 0x8f)
}

/// Whether a backslash and this byte are an escape of two bytes.
#[inline(always)]
fn is_escaped(byte: u8) -> bool
    ensures { result ≡ is_escaped byte }
{
    byte == b'"'
        || byte == b'\\'
        || byte == b'/'
        || byte == b'b'
        || byte == b'f'
        || byte == b'n'
        || byte == b'r'
        || byte == b't'
}

/// Whether the byte is a hexadecimal digit.
#[inline(always)]
fn is_hex(byte: u8) -> bool
    ensures { result ≡ is_hex byte }
{
    (byte >= b'0' && byte <= b'9')
        || (byte >= b'A' && byte <= b'F')
        || (byte >= b'a' && byte <= b'f')
}

/// Whether these bytes are an escape of two bytes.
#[inline(always)]
fn is_escape(a: u8, b: u8) -> bool
    ensures { result ≡ is_escape a b }
{
    a == b'\\' && is_escaped(b)
}

/// Whether these bytes are an escape of six bytes: a backslash, `u` and four hexadecimal digits.
#[inline(always)]
fn is_unit(a: u8, b: u8, c: u8, d: u8, e: u8, f: u8) -> bool
    ensures { result ≡ is_unit a b c d e f }
{
    a == b'\\' && b == b'u' && is_hex(c) && is_hex(d) && is_hex(e) && is_hex(f)
}

/// How many bytes the escape has with which the bytes begin; 0 where none stands whole.
#[inline(always)]
fn escape_len(bytes: &[u8]) -> usize
    ensures within { result ≤ length bytes.now }
    ensures led { Leads state.Str (take result bytes.now) state.Str }
{
    match bytes {
        [a, b, ..] if is_escape(*a, *b) => 2,
        [a, b, c, d, e, f, ..] if is_unit(*a, *b, *c, *d, *e, *f) => 6,
        _ => 0,
    }
}

/// How many bytes the character above 7F has with which the bytes begin; 0 where none stands whole.
#[inline(always)]
fn character_len(bytes: &[u8]) -> usize
    ensures within { result ≤ length bytes.now }
    ensures led { Leads state.Str (take result bytes.now) state.Str }
{
    match bytes {
        [a, b, ..] if is_two(*a, *b) => 2,
        [a, b, c, ..] if is_three(*a, *b, *c) => 3,
        [a, b, c, d, ..] if is_four(*a, *b, *c, *d) => 4,
        _ => 0,
    }
}

/// The end of the escapes that follow one another, those of two bytes and those of six.
#[inline(always)]
fn escapes_end(text: &[u8], from: usize, to: usize) -> usize
    requires { (from ≤ to) × (to ≤ length text.now) }
    ensures bounds { (from ≤ result) × (result ≤ to) }
    ensures led { Leads state.Str (slice_range text.now from result) state.Str }
{
    let mut i = from;
    while to - i >= 2 && text[i] == b'\\' {
        let len = escape_len(&text[i..to]);
        if len == 0 {
            break;
        }
        i += len;
    }
    i
}

/// Whether a character above 7F may begin with this byte. It only excludes tail bytes: C0, C1 and those above F4, with
/// which no character begins, pass too.
#[inline(always)]
pub(crate) fn is_lead(byte: u8) -> bool
    ensures { IsTrue result → 0xc0 ≤ byte }
{
    byte >= 0xc0
}

/// The end of the ordinary ASCII from an offset on. After an escape or a character there is often none.
#[inline(always)]
fn ascii_end(text: &[u8], from: usize, to: usize) -> usize
    requires { (from ≤ to) × (to ≤ length text.now) }
    ensures bounds { (from ≤ result) × (result ≤ to) }
    ensures led { Leads state.Str (slice_range text.now from result) state.Str }
{
    if from < to && (text[from] == b'"' || text[from] > 0x7f) {
        return from;
    }
    plain_end(text, from, to)
}

/// The end of escapes and of the ordinary ASCII between them and after them. Where fewer than 64 bytes are left, and
/// where a block has anything else, it reads one escape after another.
#[inline(never)]
fn escaped_end(text: &[u8], from: usize, to: usize) -> usize
    requires { (from ≤ to) × (to ≤ length text.now) }
    ensures bounds { (from ≤ result) × (result ≤ to) }
    ensures led { Leads state.Str (slice_range text.now from result) state.Str }
{
    let mut i = escaped_blocks_end(text, from, to);
    while i < to && text[i] == b'\\' {
        let end = escapes_end(text, i, to);
        if end == i {
            break;
        }
        i = ascii_end(text, end, to);
    }
    i
}

/// The end of characters above 7F, read one after another as long as they begin before `most`, and of the ordinary
/// ASCII between them.
#[inline(always)]
fn sequences_end(text: &[u8], from: usize, most: usize, to: usize) -> usize
    requires { (from ≤ to) × (most ≤ to) × (to ≤ length text.now) }
    ensures bounds { (from ≤ result) × (result ≤ to) }
    ensures led { Leads state.Str (slice_range text.now from result) state.Str }
{
    let mut i = from;
    while i < most && text[i] > 0x7f {
        let length = character_len(&text[i..to]);
        if length == 0 {
            break;
        }
        i = ascii_end(text, i + length, to);
    }
    i
}

/// The end of characters from a byte above 7F on, or `from` where no whole one follows. Takes all characters that need
/// no escape in bytes known to be UTF-8, else a few.
#[inline(always)]
fn characters_end(text: &[u8], from: usize, to: usize, ahead: Ahead) -> (usize, Ahead)
    requires bounds { (from < to) × (to ≤ length text.now) }
    requires sound { IsSound text.now ahead }
    ensures bounds { (from ≤ result.0) × (result.0 ≤ to) }
    ensures led { Leads state.Str (slice_range text.now from result.0) state.Str }
    ensures sound { IsSound text.now result.1 }
{
    let ahead = ahead.at(text, from, to);
    if ahead.covers(from, to) && is_lead(text[from]) {
        return (unescaped_end(text, from, ahead.to), ahead);
    }
    let most = if to - from < LEAST { to } else { from + LEAST };
    let end = sequences_end(text, from, most, to);
    (end, ahead.past(end - from))
}

/// The end of escapes or of characters above 7F, and of the ordinary ASCII after them, or `from`.
#[inline(always)]
fn char_end(text: &[u8], from: usize, to: usize, ahead: Ahead) -> (usize, Ahead)
    requires bounds { (from < to) × (to ≤ length text.now) }
    requires sound { IsSound text.now ahead }
    ensures bounds { (from ≤ result.0) × (result.0 ≤ to) }
    ensures led { Leads state.Str (slice_range text.now from result.0) state.Str }
    ensures sound { IsSound text.now result.1 }
{
    if text[from] <= 0x7f {
        return (escaped_end(text, from, to), ahead);
    }
    let (end, known) = characters_end(text, from, to, ahead);
    (ascii_end(text, end, to), known)
}

/// `string_end_ahead`, from a byte above 7F on.
#[inline(never)]
pub(crate) fn chars_end(text: &[u8], from: usize, to: usize, ahead: Ahead) -> (usize, Ahead)
    requires bounds { (from ≤ to) × (to ≤ length text.now) }
    requires sound { IsSound text.now ahead }
    ensures bounds { (from ≤ result.0) × (result.0 ≤ to) }
    ensures led { Leads state.Str (slice_range text.now from result.0) state.Str }
    ensures sound { IsSound text.now result.1 }
{
    let mut i = from;
    let mut ahead = ahead;
    while i < to && text[i] != b'"' {
        let (end, known) = char_end(text, i, to, ahead);
        ahead = known;
        if end == i {
            break;
        }
        i = end;
    }
    (i, ahead)
}

/// The end of ordinary ASCII and of escapes.
#[inline(always)]
fn ascii_string_end(text: &[u8], from: usize, to: usize) -> usize
    requires { (from ≤ to) × (to ≤ length text.now) }
    ensures bounds { (from ≤ result) × (result ≤ to) }
    ensures led { Leads state.Str (slice_range text.now from result) state.Str }
{
    let end = plain_end(text, from, to);
    if end < to && text[end] == b'\\' {
        return escaped_end(text, end, to);
    }
    end
}

/// The end of whole characters and escapes of a string from `from` on, or `to`. It is at a quotation mark, a fault, or
/// the first character that isn't whole before `to`. What was learnt of the UTF-8 ahead serves the strings that follow.
#[inline(always)]
pub(crate) fn string_end_ahead(text: &[u8], from: usize, to: usize, ahead: &mut Ahead) -> usize
    requires bounds { (from ≤ to) × (to ≤ length text.now) }
    requires sound { IsSound text.now ahead.old }
    ensures bounds { (from ≤ result) × (result ≤ to) }
    ensures led { Leads state.Str (slice_range text.now from result) state.Str }
    ensures sound { IsSound text.now ahead.new }
{
    let end = ascii_string_end(text, from, to);
    if end < to && text[end] > 0x7f {
        let (last, known) = chars_end(text, end, to, *ahead);
        *ahead = known;
        return last;
    }
    end
}
