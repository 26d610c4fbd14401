// The fields of a header.
ghost use Rattle.std.specs.Prelude.{◌≡◌, ◌≤◌, ◌<◌, drop, length, position, IfSome};
ghost use Rattle.std.specs.List.{list_all};
ghost use Rattle.jx_wire.specs.Frames.{field_of, first_ink, if_given, is_blank, length_by_word, length_from, length_in, names_length, without_blanks, word_end};

use crate::frame_fault::FrameFault;
use crate::number::number_of;

/// The greatest length of a body that is read, 1 GiB.
const GREATEST_BODY: usize = 1_073_741_824;

/// The name of the field that gives the length of a body, with its colon, in lower case.
const LENGTH_NAME: [u8; 15] = *b"content-length:";

/// The bytes after the first so many.
pub(crate) fn behind(bytes: &[u8], count: usize) -> &[u8]
    ensures { result.now ≡ drop count bytes.now }
{
    if count < bytes.len() {
        &bytes[count..]
    } else {
        &[]
    }
}

/// Whether a byte is optional white space round a value (RFC 9110, section 5.6.3).
fn is_blank(byte: u8) -> bool
    ensures { result ≡ is_blank byte }
{
    byte == b' ' || byte == b'\t'
}

/// The offset of the first byte that is not white space.
fn first_ink(bytes: &[u8]) -> Option<usize>
    ensures { result ≡ first_ink bytes.now }
{
    bytes.iter().position(|byte| !is_blank(*byte))
}

/// The bytes after the white space in front.
fn without_blanks(bytes: &[u8]) -> &[u8]
    ensures { result.now ≡ without_blanks bytes.now }
{
    match first_ink(bytes) {
        Some(start) => behind(bytes, start),
        None => &[],
    }
}

fn length_from(number: Option<usize>) -> Result<usize, FrameFault>
    ensures { result ≡ length_from number }
{
    match number {
        None => Err(FrameFault::NoNumber),
        Some(length) => {
            if GREATEST_BODY < length {
                Err(FrameFault::LongFrame)
            } else {
                Ok(length)
            }
        }
    }
}

/// The offset of the first white space, if there is any.
fn first_blank(bytes: &[u8]) -> Option<usize>
    ensures first { result ≡ position is_blank bytes.now }
    ensures within { IfSome result (λ at. at < length bytes.now) }
{
    bytes.iter().position(|byte| is_blank(*byte))
}

/// Whether there is nothing but white space.
fn are_blanks(bytes: &[u8]) -> bool
    ensures { result ≡ list_all is_blank bytes.now }
{
    bytes.iter().all(|byte| is_blank(*byte))
}

/// The offset of the first white space, or the end.
fn word_end(bytes: &[u8]) -> usize
    ensures end { result ≡ word_end bytes.now }
    ensures within { result ≤ length bytes.now }
{
    match first_blank(bytes) {
        Some(end) => end,
        None => bytes.len(),
    }
}

/// The length in decimal digits up to this end. Nothing but white space may follow it.
fn length_by_word(end: usize, bytes: &[u8]) -> Result<usize, FrameFault>
    requires { end ≤ length bytes.now }
    ensures { result ≡ length_by_word end bytes.now }
{
    let word = &bytes[..end];
    if are_blanks(behind(bytes, end)) {
        length_from(number_of(word))
    } else {
        Err(FrameFault::NoNumber)
    }
}

/// The length that the value of a field gives: decimal digits with white space around them.
fn length_in(value: &[u8]) -> Result<usize, FrameFault>
    ensures { result ≡ length_in value.now }
{
    let ink = without_blanks(value);
    length_by_word(word_end(ink), ink)
}

/// Whether a field has the name of the one that gives a length.
fn names_length(line: &[u8]) -> bool
    ensures { result ≡ names_length line.now }
{
    let name = &line[..LENGTH_NAME.len().min(line.len())];
    name.eq_ignore_ascii_case(&LENGTH_NAME)
}

fn if_given(length: Result<usize, FrameFault>) -> Result<Option<usize>, FrameFault>
    ensures { result ≡ if_given length }
{
    match length {
        Ok(length) => Ok(Some(length)),
        Err(fault) => Err(fault),
    }
}

/// The length that a field of a header gives; none where it gives another thing.
pub(crate) fn field_of(line: &[u8]) -> Result<Option<usize>, FrameFault>
    ensures { result ≡ field_of line.now }
{
    if !line.contains(&b':') {
        return Err(FrameFault::NoColon);
    }
    if !names_length(line) {
        return Ok(None);
    }
    if_given(length_in(behind(line, 15)))
}
