// Where a refusal is shown in a document.
ghost use Rattle.std.specs.Prelude.{◌≡◌, ◌≤◌, ◌<◌, ◌+◌, IfOk, IfSome};
ghost use Rattle.jx_serve.specs.Marks.{shown_at, told, IsPlaced};

use crate::sentence::sentence_on;
use jx_edit::{Document, Encoding, Position};
use jx_run::{Refusal, Settings, Verdict};
use std::alloc::{AllocError, Global};

/// Where a refusal is shown, and how.
#[derive(Debug, Drop)]
pub struct Mark {
    pub refusal: Refusal,
    /// The sentence on what is wrong there, as the inside of a JSON string.
    pub sentence: Vec<u8>,
    pub start: Position,
    pub end: Position,
}

/// The byte there, or 0 past the end.
fn byte_at(document: &Document, offset: usize) -> u8 {
    match document.chunk_at(offset) {
        [byte, ..] => *byte,
        [] => 0,
    }
}

/// Whether a byte goes on with a character that an earlier one began (RFC 3629, section 3).
fn is_tail(byte: u8) -> bool {
    matches!(byte, 0x80..=0xbf)
}

/// How many bytes a character has that begins with this one, and 1 where none does.
fn length_by(first: u8) -> usize
    ensures { result ≤ 4 }
{
    match first {
        0xc2..=0xdf => 2,
        0xe0..=0xef => 3,
        0xf0..=0xf4 => 4,
        _ => 1,
    }
}

/// Where the character begins that the byte at an offset is of. It is the byte itself where no character has it: an edit may cut
/// one.
pub(crate) fn character_start(document: &Document, offset: usize) -> usize
    ensures before { result ≤ offset }
    ensures near { offset ≤ result + 3 }
{
    if !is_tail(byte_at(document, offset)) {
        return offset;
    }
    for back in 1..4 {
        let Some(start) = offset.checked_sub(back) else {
            return offset;
        };
        let first = byte_at(document, start);
        if !is_tail(first) {
            return if back < length_by(first) {
                start
            } else {
                offset
            };
        }
    }
    offset
}

/// Where a character ends that begins at an offset, as far as its bytes are there.
pub(crate) fn character_end(document: &Document, start: usize) -> usize
    ensures { result ≤ start + 4 }
{
    let count = length_by(byte_at(document, start));
    for more in 1..count {
        if !is_tail(byte_at(document, start.saturating_add(more))) {
            return start.saturating_add(more);
        }
    }
    start.saturating_add(count)
}

/// The offset at which a refusal is shown: that of its byte, and the last byte where more has to follow.
fn shown_at(document: &Document, refusal: Refusal) -> usize
    ensures { result ≡ shown_at document.now.bytes refusal }
{
    match refusal {
        Refusal::Stopped { at } | Refusal::TooDeep { at } | Refusal::RepeatedName { at } => at,
        Refusal::Truncated => document.len().saturating_sub(1),
    }
}

/// The diagnostic of a verdict by settings: a refusal at the character at its offset, with a sentence; none where it is accepted.
pub fn mark_of(
    alloc: Global,
    document: &Document,
    settings: &Settings,
    encoding: Encoding,
    verdict: Verdict,
) -> Result<Option<Mark>, AllocError>
    ensures told { IfOk result (λ mark. told mark ≡ verdict) }
    ensures placed { IfOk result (λ mark. IfSome mark (IsPlaced encoding document.now.bytes)) }
{
    let Verdict::Refused(refusal) = verdict else {
        return Ok(None);
    };
    let sentence = sentence_on(alloc, document, settings, encoding, refusal)?;
    let offset = shown_at(document, refusal);
    let start = character_start(document, offset);
    let behind = offset.saturating_add(1).min(document.len());
    let end = character_end(document, start).max(behind);
    Ok(Some(Mark {
        refusal,
        sentence,
        start: document.position_of(start, encoding),
        end: document.position_of(end, encoding),
    }))
}
