// The sentence that says what is wrong with a document.
use crate::standing::standing_in;
use jx_edit::{Document, Encoding};
use jx_run::{Refusal, Settings};
use jx_sentence::{
    Place, is_in_string, push_sentence, push_stopped, push_string_open, push_too_deep,
    push_truncated,
};
use jx_wire::quoted;
use std::alloc::{AllocError, Global};

/// The most bytes that a character has.
const CHARACTER: usize = 4;

/// How many bytes before the end the beginning of a string is looked for in.
const NEAR: usize = 65536;

/// A copy of the bytes from one offset up to another, as far as there are so many.
pub(crate) fn bytes_between(
    document: &Document,
    start: usize,
    end: usize,
) -> Result<Vec<u8>, AllocError> {
    let end = end.min(document.len());
    match document.copy(start.min(end), end) {
        Ok(bytes) => Ok(bytes),
        Err(_) => Err(AllocError),
    }
}

/// Where the string begins in which bytes end, if it begins among them: at the last quotation mark after no backslash. Another
/// byte stands in front of the bytes.
fn string_start(front: u8, bytes: &[u8]) -> Option<usize> {
    let mut start = None;
    let mut before = front;
    for (place, byte) in bytes.iter().enumerate() {
        if *byte == b'"' && before != b'\\' {
            start = Some(place);
        }
        before = *byte;
    }
    start
}

/// Where an offset stands, in the lines and columns of the client.
pub(crate) fn place_at(document: &Document, encoding: Encoding, at: usize) -> Place {
    let began = document.position_of(at, encoding);
    Place {
        line: began.line.saturating_add(1),
        column: began.character.saturating_add(1),
    }
}

/// Where the string begins in which a document ends, in the lines and columns of the client, if it begins near the end.
fn string_place(document: &Document, encoding: Encoding) -> Result<Option<Place>, AllocError> {
    let near = document.len().saturating_sub(NEAR);
    let bytes = bytes_between(document, near, document.len())?;
    // The byte in front of the bytes may be a backslash, but not in front of a text.
    let front = if near == 0 { b' ' } else { b'\\' };
    let Some(start) = string_start(front, &bytes) else {
        return Ok(None);
    };
    let at = near.saturating_add(start);
    Ok(Some(place_at(document, encoding, at)))
}

/// Appends the sentence for a document that ends too early.
fn push_end(out: &mut String, document: &Document, encoding: Encoding) -> Result<(), AllocError> {
    match standing_in(document, document.len())? {
        Some(standing) if is_in_string(standing.state) => {
            let began = string_place(document, encoding)?;
            push_string_open(out, began)
        }
        standing => push_truncated(out, standing.as_ref()),
    }
}

/// Appends the sentence for a name that was used before.
fn push_name(
    alloc: Global,
    out: &mut String,
    document: &Document,
    settings: &Settings,
    refusal: Refusal,
) -> Result<(), AllocError> {
    let text = bytes_between(document, 0, document.len())?;
    push_sentence(alloc, out, &text, refusal, settings)
}

/// A sentence as the inside of a JSON string, without the quotation marks.
pub(crate) fn inside_quotes(alloc: Global, sentence: &String) -> Result<Vec<u8>, AllocError> {
    let spelt = quoted(alloc, sentence.as_bytes())?;
    let inside = spelt.get(1..spelt.len().saturating_sub(1)).unwrap_or(&[]);
    Vec::from_slice(alloc, inside)
}

/// The sentence on a document that settings refuse, as the inside of a JSON string. After a verdict of the document
/// a few bytes are read, and all bytes where a name is repeated.
pub(crate) fn sentence_on(
    alloc: Global,
    document: &Document,
    settings: &Settings,
    encoding: Encoding,
    refusal: Refusal,
) -> Result<Vec<u8>, AllocError> {
    let mut out = String::new(alloc);
    match refusal {
        Refusal::Stopped { at } => {
            let standing = standing_in(document, at)?;
            let rest = bytes_between(document, at, at.saturating_add(CHARACTER))?;
            push_stopped(&mut out, &rest, at, standing.as_ref())?;
        }
        Refusal::Truncated => push_end(&mut out, document, encoding)?,
        Refusal::TooDeep { .. } => push_too_deep(&mut out, settings.depth)?,
        Refusal::RepeatedName { .. } => push_name(alloc, &mut out, document, settings, refusal)?,
    }
    inside_quotes(alloc, &out)
}
