// Bytes of a text as a terminal shows them.
ghost use Rattle.std.specs.Prelude.{◌≡◌, ◌++◌, ◌<◌, ◌≤◌, IfOk, OnOk, Some, encode_utf8, is_some, length};
ghost use Rattle.std.specs.String.{string_bytes};
ghost use Rattle.jx_sentence.specs.Shown.{escaped, escaped_byte, first_size, is_printed, shown, shown_first, shown_piece};

use bstr::{ByteSlice, decode_utf8};
use std::alloc::AllocError;
use std::fmt::Write;
use unicode_width::UnicodeWidthChar;

/// How many columns a byte takes that is shown as `\xHH`.
const ESCAPED: usize = 4;

/// U+FFFD in UTF-8, which a decoder puts in place of bytes that are not UTF-8.
const REPLACEMENT: &[u8] = b"\xEF\xBF\xBD";

/// How many columns a character takes; none where it is not printed.
#[tactic(auto, unfolding(crate::specs::Shown::is_printed))]
fn printed_columns(character: char) -> Option<usize>
    ensures { is_some result ≡ is_printed character }
{
    let width = character.width()?;
    if width > 0 { Some(width) } else { None }
}

/// How many columns a part takes as it is shown.
fn piece_columns(piece: &[u8], character: char) -> usize {
    let escaped = piece.len().saturating_mul(ESCAPED);
    if character == '\u{FFFD}' && piece != REPLACEMENT {
        return escaped;
    }
    printed_columns(character).unwrap_or(escaped)
}

/// Appends a byte as `\xHH`.
#[tactic(auto, using(std::proofs::lemmas::Fmt::hex_byte))]
fn push_byte(out: &mut String, byte: u8) -> Result<(), AllocError>
    ensures { OnOk result (string_bytes out.new ≡ string_bytes out.old ++ escaped_byte byte) }
{
    write!(out, "\\x{byte:02X}")
}

/// Appends each byte as `\xHH`.
fn push_escaped(out: &mut String, piece: &[u8]) -> Result<(), AllocError>
    ensures { OnOk result (string_bytes out.new ≡ string_bytes out.old ++ escaped piece.now) }
{
    for byte in piece {
        push_byte(out, *byte)?;
    }
    Ok(())
}

/// Appends a character, which these bytes encode, as it is shown.
fn push_character(out: &mut String, character: char, bytes: &[u8]) -> Result<(), AllocError>
    requires { encode_utf8 character ≡ bytes.now }
    ensures { OnOk result (string_bytes out.new ≡ string_bytes out.old ++ shown_piece (Some character) bytes.now) }
{
    if printed_columns(character).is_some() {
        out.push(character)
    } else {
        push_escaped(out, bytes)
    }
}

/// How many bytes the first character has, or what stands there in place of one.
#[tactic(auto, using(crate::proofs::ShownPieces::within), unfolding(crate::specs::Shown::first_size))]
pub(crate) fn first_size(bytes: &[u8]) -> usize
    ensures value { result ≡ first_size bytes.now }
    ensures within { result ≤ length bytes.now }
{
    let (_, size) = decode_utf8(bytes);
    size
}

/// Appends the first character of bytes, or what stands there in place of one, as it is shown. Gives how many bytes that is.
#[tactic(auto, using(crate::proofs::ShownPieces::spelt, crate::proofs::ShownPieces::bounds, crate::proofs::ShownPieces::cut), unfolding(crate::specs::Shown::shown_first, crate::specs::Shown::first_size))]
fn push_first(out: &mut String, bytes: &[u8]) -> Result<usize, AllocError>
    requires { 0 < length bytes.now }
    ensures size { IfOk result (λ size. (size ≡ first_size bytes.now) × ((0 < size) × (size ≤ length bytes.now))) }
    ensures shown { OnOk result (string_bytes out.new ≡ string_bytes out.old ++ shown_first bytes.now) }
{
    let (character, size) = decode_utf8(bytes);
    let first = &bytes[..size];
    match character {
        Some(printed) => push_character(out, printed, first)?,
        None => push_escaped(out, first)?,
    }
    Ok(size)
}

/// Appends bytes as they are shown: a printed character as it is, and each byte of anything else as `\xHH`.
pub fn push_shown(out: &mut String, bytes: &[u8]) -> Result<(), AllocError>
    ensures { OnOk result (string_bytes out.new ≡ string_bytes out.old ++ shown bytes.now) }
{
    let mut rest = bytes;
    while !rest.is_empty() {
        let size = push_first(out, rest)?;
        rest = &rest[size..];
    }
    Ok(())
}

/// The number of columns that bytes take as they are shown.
pub fn columns(bytes: &[u8]) -> usize {
    let mut total = 0usize;
    for (start, end, character) in bytes.char_indices() {
        let piece = bytes.get(start..end).unwrap_or(&[]);
        total = total.saturating_add(piece_columns(piece, character));
    }
    total
}

/// The end of the bytes that is shown in so many columns at most.
pub fn last_columns(bytes: &[u8], most: usize) -> &[u8] {
    let mut total = columns(bytes);
    for (start, end, character) in bytes.char_indices() {
        if total <= most {
            return bytes.get(start..).unwrap_or(&[]);
        }
        let piece = bytes.get(start..end).unwrap_or(&[]);
        total = total.saturating_sub(piece_columns(piece, character));
    }
    &[]
}

/// The beginning of the bytes that is shown in so many columns at most.
pub fn first_columns(bytes: &[u8], most: usize) -> &[u8] {
    let mut total = 0usize;
    for (start, end, character) in bytes.char_indices() {
        let piece = bytes.get(start..end).unwrap_or(&[]);
        total = total.saturating_add(piece_columns(piece, character));
        if total > most {
            return bytes.get(..start).unwrap_or(&[]);
        }
    }
    bytes
}
