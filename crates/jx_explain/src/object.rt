// The report on a text as a JSON object in one line.
use bstr::ByteSlice;
use jx_run::Refusal;
use jx_sentence::Place;
use std::alloc::{AllocError, Global};
use std::fmt::Write;

/// Appends a character as it stands in a string (RFC 8259, section 7).
fn push_character(out: &mut String, character: char) -> Result<(), AllocError> {
    match character {
        '"' => out.push_str("\\\""),
        '\\' => out.push_str("\\\\"),
        '\0'..='\x1f' => {
            let code = character as u32;
            write!(out, "\\u{code:04X}")
        }
        _ => out.push(character),
    }
}

/// Appends bytes of UTF-8 as a string.
fn push_string(out: &mut String, bytes: &[u8]) -> Result<(), AllocError> {
    out.push('"')?;
    for (_, _, character) in bytes.char_indices() {
        push_character(out, character)?;
    }
    out.push('"')
}

/// Appends the beginning of an object, up to what follows the name.
fn push_name(out: &mut String, name: &[u8]) -> Result<(), AllocError> {
    out.push_str("{\"name\":")?;
    push_string(out, name)?;
    out.push(',')
}

/// The beginning of an object of an input of this name, up to what follows the name.
pub fn object_front(alloc: Global, name: &[u8]) -> Result<Vec<u8>, AllocError> {
    let mut front = String::new(alloc);
    push_name(&mut front, name)?;
    Vec::from_slice(alloc, front.as_bytes())
}

/// Appends the beginning of an object, up to the verdict.
pub fn push_front(out: &mut String, name: &[u8], verdict: &str) -> Result<(), AllocError> {
    push_name(out, name)?;
    out.push_str("\"verdict\":\"")?;
    out.push_str(verdict)?;
    out.push('"')
}

/// Appends the object of a text that is accepted.
pub fn push_accepted_object(out: &mut String, name: &[u8]) -> Result<(), AllocError> {
    push_front(out, name, "accepted")?;
    out.push_str("}\n")
}

/// The word for a refusal, as `check` has it.
pub fn word_of(refusal: Refusal) -> &'static str {
    match refusal {
        Refusal::Stopped { .. } => "stopped",
        Refusal::Truncated => "truncated",
        Refusal::TooDeep { .. } => "too deep",
        Refusal::RepeatedName { .. } => "repeated name",
    }
}

/// Appends an offset and the place of its byte.
pub fn push_place(out: &mut String, at: usize, place: Place) -> Result<(), AllocError> {
    let line = place.line;
    let column = place.column;
    write!(out, ",\"offset\":{at},\"line\":{line},\"column\":{column}")
}

/// Appends a sentence and a pointer, if there is one, and ends the object.
pub fn push_words(
    out: &mut String,
    sentence: &[u8],
    pointer: Option<&[u8]>,
) -> Result<(), AllocError> {
    out.push_str(",\"sentence\":")?;
    push_string(out, sentence)?;
    out.push_str(",\"pointer\":")?;
    match pointer {
        Some(pointer) => push_string(out, pointer)?,
        None => out.push_str("null")?,
    }
    out.push_str("}\n")
}
