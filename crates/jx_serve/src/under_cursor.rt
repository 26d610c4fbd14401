// The innermost value at an offset of a text.
ghost use Rattle.std.specs.Prelude.{◌≡◌, ◌<◌, None, IfOk, IfSome, length};
ghost use Rattle.jx_around.specs.Around.{AreAround};
ghost use Rattle.jx_serve.specs.Values.{holds, start_of, IsFoundAt, IsInNone, IsInnermost};

use crate::pointer_to::pointer_to;
use jx_around::{Around, values_around};
use jx_index::verdict_with_unique_names;
use jx_lex::Span;
use jx_run::{NameRule, NoPause, Settings, Verdict};
use std::alloc::{AllocError, Global};

/// A value of a text.
#[derive(Debug, Drop)]
pub struct ValueAt {
    pub row: Around,
    /// A JSON Pointer to it (RFC 6901), unless none leads to it alone.
    pub pointer: Option<Vec<u8>>,
}

/// Where a member begins, at its name, or a value that has none.
pub(crate) fn start_of(name: Option<Span>, value: Span) -> usize
    ensures { result ≡ start_of name value }
{
    match name {
        Some(name) => name.start,
        None => value.start,
    }
}

/// Whether a value, or the member that it is of, holds an offset.
fn holds(row: &Around, offset: usize) -> bool
    ensures { result ≡ holds offset row.now }
{
    start_of(row.name, row.span) <= offset && offset < row.span.end
}

/// The number of the innermost value that holds an offset, or whose member does, if there is one.
fn innermost(rows: &[Around], offset: usize) -> Option<usize>
    ensures some { IfSome result (IsInnermost rows.now offset) }
    ensures within { IfSome result (λ number. number < length rows.now) }
    ensures none { result ≡ None → IsInNone rows.now offset }
{
    let mut last = None;
    for (number, row) in rows.iter().enumerate() {
        if holds(row, offset) {
            last = Some(number);
        }
    }
    last
}

/// The value of a number among those around an offset, with its pointer.
fn value_of(
    alloc: Global,
    text: &[u8],
    settings: &Settings,
    rows: &[Around],
    offset: usize,
    number: usize,
) -> Result<Option<ValueAt>, AllocError>
    requires around { AreAround settings.now text.now offset rows.now }
    requires innermost { IsInnermost rows.now offset number }
    requires within { number < length rows.now }
    ensures { IfOk result (IsFoundAt settings.now text.now offset) }
{
    let row = rows[number];
    let pointer = pointer_to(alloc, text, settings, &rows[..number + 1], &row)?;
    Ok(Some(ValueAt { row, pointer }))
}

/// The innermost of the values around an offset that holds it, with its pointer.
fn value_among(
    alloc: Global,
    text: &[u8],
    settings: &Settings,
    rows: &[Around],
    offset: usize,
) -> Result<Option<ValueAt>, AllocError>
    requires { AreAround settings.now text.now offset rows.now }
    ensures { IfOk result (IsFoundAt settings.now text.now offset) }
{
    match innermost(rows, offset) {
        None => Ok(None),
        Some(number) => value_of(alloc, text, settings, rows, offset, number),
    }
}

/// The same, whatever names the objects of the text have.
fn value_of_any(
    alloc: Global,
    text: &[u8],
    settings: &Settings,
    offset: usize,
) -> Result<Option<ValueAt>, AllocError>
    ensures { IfOk result (IsFoundAt settings.now text.now offset) }
{
    match values_around(alloc, text, settings, offset)? {
        Err(_) => Ok(None),
        Ok(rows) => value_among(alloc, text, settings, &rows, offset),
    }
}

/// Reads a JSON text (RFC 8259) by settings, and finds the innermost value that holds an offset. A member's value holds those of its
/// name too, and those between both. None where the text is refused, or no value holds it. `Err` when out of memory.
///
/// The value has no pointer where an object on the way to it repeats the name that leads on, and where such a name has half of
/// a surrogate pair without the other half.
pub fn value_at(
    alloc: Global,
    text: &[u8],
    settings: &Settings,
    offset: usize,
) -> Result<Option<ValueAt>, AllocError>
    ensures { IfOk result (IsFoundAt settings.now text.now offset) }
{
    match settings.names {
        NameRule::Any => value_of_any(alloc, text, settings, offset),
        NameRule::Unique => {
            let verdict = verdict_with_unique_names(alloc, text, settings, &mut NoPause)?;
            match verdict {
                Verdict::Refused(_) => Ok(None),
                Verdict::Accepted => value_of_any(alloc, text, settings, offset),
            }
        }
    }
}
