// Values of a document in messages.
ghost use Rattle.std.specs.Prelude.{◌≡◌, ◌++◌, ℕ, suc, OnOk, decimal};
ghost use Rattle.std.specs.List.{flat_map};
ghost use Rattle.jx_lex.specs.Token.{IsNumber};
ghost use Rattle.jx_serve.specs.Words.{ends, range};
ghost use Rattle.jx_serve.specs.inside.Sound.{comma, list_head, IsWhole};

use crate::hover::Hover;
use itoa::Buffer;
use jx_edit::Position;
use jx_lex::Kind;
use jx_wire::quoted;
use std::alloc::{AllocError, Global};

pub(crate) fn add_all(out: &mut Vec<u8>, parts: &[&[u8]]) -> Result<(), AllocError>
    ensures { OnOk result (out.new.items ≡ out.old.items ++ flat_map (λ part. part.now) parts.now) }
{
    for part in parts {
        out.extend_from_slice(part)?;
    }
    Ok(())
}

/// Adds a number in decimal digits.
pub(crate) fn add_number(out: &mut Vec<u8>, number: usize) -> Result<(), AllocError>
    ensures words { OnOk result (out.new.items ≡ out.old.items ++ decimal number) }
    ensures number { IsNumber (decimal number) }
{
    let mut buffer = Buffer::new();
    out.extend_from_slice(buffer.format(number).as_bytes())
}

/// Adds the positions of both ends of a value. An outline has thousands, so what stands between two numbers is added at once.
pub(crate) fn add_ends(out: &mut Vec<u8>, start: Position, end: Position) -> Result<(), AllocError>
    ensures words { OnOk result (out.new.items ≡ out.old.items ++ ends start end) }
    ensures value { OnOk result ((limit : ℕ) → IsWhole (suc (suc limit)) (ends start end)) }
{
    out.extend_from_slice(b"{\"start\":{\"line\":")?;
    add_number(out, start.line)?;
    out.extend_from_slice(b",\"character\":")?;
    add_number(out, start.character)?;
    out.extend_from_slice(b"},\"end\":{\"line\":")?;
    add_number(out, end.line)?;
    out.extend_from_slice(b",\"character\":")?;
    add_number(out, end.character)?;
    out.extend_from_slice(b"}}")?;
    Ok(())
}

/// Adds the member `range`.
pub(crate) fn add_range(out: &mut Vec<u8>, start: Position, end: Position) -> Result<(), AllocError>
    ensures words { OnOk result (out.new.items ≡ out.old.items ++ range start end) }
    ensures value { OnOk result ((limit : ℕ) → IsWhole (suc (suc limit)) (ends start end)) }
{
    out.extend_from_slice(b"\"range\":")?;
    add_ends(out, start, end)
}

/// The word for a kind, as `jx at` prints it.
fn word_of_kind(kind: Kind) -> &'static str {
    match kind {
        Kind::Object => "object",
        Kind::Array => "array",
        Kind::String => "string",
        Kind::Number => "number",
        Kind::True => "true",
        Kind::False => "false",
        Kind::Null => "null",
    }
}

/// The words on a value: its kind and its span as `jx at` prints them, and its pointer in a line of its own. They say so where
/// the value goes on after the fault, or is cut short.
fn words_of_value(alloc: Global, hover: &Hover) -> Result<Vec<u8>, AllocError> {
    let value = &hover.value;
    let kind = word_of_kind(value.row.kind);
    let start = value.row.span.start;
    let end = value.row.span.end.min(hover.kept);
    let first = format!(in alloc; "{kind} {start}..{end}")?;
    let mut words = Vec::from_slice(alloc, first.as_bytes())?;
    if hover.kept < value.row.span.end {
        words.extend_from_slice(b", as far as the fault")?;
    }
    match &value.pointer {
        None => words.extend_from_slice(b"\nno pointer")?,
        Some(pointer) => match pointer.as_slice() {
            [] => words.extend_from_slice(b"\nempty pointer")?,
            pointer => add_all(&mut words, &[b"\npointer ", pointer])?,
        },
    }
    Ok(words)
}

/// Adds the answer that shows a value.
pub(crate) fn add_hovered(
    alloc: Global,
    out: &mut Vec<u8>,
    id: &[u8],
    hover: &Hover,
) -> Result<(), AllocError> {
    let words = words_of_value(alloc, hover)?;
    let words = quoted(alloc, &words)?;
    add_all(
        out,
        &[
            b"{\"jsonrpc\":\"2.0\",\"id\":",
            id,
            b",\"result\":{\"contents\":{\"kind\":\"plaintext\",\"value\":",
            &words,
            b"},",
        ],
    )?;
    add_range(out, hover.start, hover.end)?;
    out.extend_from_slice(b"}}")
}

/// Begins the answer to a request that is a list.
pub(crate) fn begin_list(out: &mut Vec<u8>, id: &[u8]) -> Result<(), AllocError>
    ensures { OnOk result (out.new.items ≡ out.old.items ++ list_head id.now) }
{
    out.extend_from_slice(b"{\"jsonrpc\":\"2.0\",\"id\":")?;
    out.extend_from_slice(id)?;
    out.extend_from_slice(b",\"result\":[")?;
    Ok(())
}

/// Adds the comma before an element, unless it is the first.
pub(crate) fn add_comma(out: &mut Vec<u8>, is_first: bool) -> Result<(), AllocError>
    ensures { OnOk result (out.new.items ≡ out.old.items ++ comma is_first) }
{
    if !is_first {
        out.extend_from_slice(b",")?;
    }
    Ok(())
}
