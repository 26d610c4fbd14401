// The messages on a line, or on a pointer that leads nowhere in it.
ghost use Rattle.std.specs.Prelude.{◌≡◌, ◌++◌, [], codes, decimal, if◌then◌else◌, length, map, string_bytes, OnOk};
ghost use Rattle.jx_words.specs.Showing.{shown};
ghost use Rattle.jx_words.specs.Words.{line};
ghost use Rattle.jx_line_values.specs.Cells.{lacks_text};
ghost use Rattle.jx_line_values.specs.LineValues.{told_of_found, told_of_verdict, told_words};
ghost use Rattle.jx_line_values.specs.inside.Adding.{exit_past, told_of_all};

use crate::adding::{bytes_at, found_at};
use crate::pointers::spelt_at;
use crate::row_form::RowForm;
use crate::texts::lacks_text;
use jx_ends::Exit;
use jx_index::{FindFault, Found};
use jx_lex::Kind;
use jx_ndjson::LineVerdict;
use jx_words::{PointerAnswer, add_answer, add_number, add_refusal, shown_name};
use std::alloc::AllocError;

/// Appends `line `, the number, a colon and a space.
fn add_front(told: &mut Vec<u8>, number: usize) -> Result<(), AllocError>
    ensures { OnOk result (told.new.items ≡ told.old.items ++ (codes "line " ++ decimal number ++ codes ": ")) }
{
    told.extend_from_slice(b"line ")?;
    add_number(told, number)?;
    told.extend_from_slice(b": ")
}

/// Appends why a line has no values.
pub(crate) fn add_verdict(
    told: &mut Vec<u8>,
    skips_blank: bool,
    number: usize,
    verdict: LineVerdict,
) -> Result<(), AllocError>
    ensures { OnOk result (told.new.items ≡ told.old.items ++ told_of_verdict skips_blank number verdict) }
{
    match verdict {
        LineVerdict::Accepted => Ok(()),
        LineVerdict::Refused(refusal) => {
            add_front(told, number)?;
            add_refusal(told, refusal)
        }
        LineVerdict::MayBeCut => {
            add_front(told, number)?;
            told.extend_from_slice(b"may be cut\n")
        }
        LineVerdict::Blank => {
            if skips_blank {
                return Ok(());
            }
            add_front(told, number)?;
            told.extend_from_slice(b"blank\n")
        }
    }
}

/// Appends `line N: `, the pointer, a colon and a space.
fn add_pointer_front(told: &mut Vec<u8>, number: usize, pointer: &str) -> Result<(), AllocError>
    ensures { OnOk result (told.new.items ≡ told.old.items ++ (codes "line " ++ decimal number ++ codes ": " ++ shown pointer.now ++ codes ": ")) }
{
    add_front(told, number)?;
    let name = shown_name(*told.allocator(), pointer)?;
    told.extend_from_slice(&name)?;
    told.extend_from_slice(b": ")
}

/// Appends that a string has half of a surrogate pair.
fn add_half(told: &mut Vec<u8>) -> Result<(), AllocError>
    ensures { OnOk result (told.new.items ≡ told.old.items ++ line (codes "half a surrogate pair")) }
{
    told.extend_from_slice(b"half a surrogate pair\n")
}

/// Appends that a pointer leads to such a string.
fn add_half_at(told: &mut Vec<u8>, number: usize, pointer: &str) -> Result<(), AllocError>
    ensures { OnOk result (told.new.items ≡ told.old.items ++ told_words number (shown pointer.now ++ codes ": " ++ codes "half a surrogate pair")) }
{
    add_pointer_front(told, number, pointer)?;
    add_half(told)
}

/// Appends that a value lacks a text that is asked for, if so.
fn add_lacking(
    told: &mut Vec<u8>,
    form: RowForm,
    number: usize,
    pointer: &str,
    kind: Kind,
    bytes: &[u8],
) -> Result<(), AllocError>
    ensures { OnOk result (told.new.items ≡ told.old.items ++ (if lacks_text form kind bytes.now then told_words number (shown pointer.now ++ codes ": " ++ codes "half a surrogate pair") else [])) }
{
    if lacks_text(form, kind, bytes) {
        add_half_at(told, number, pointer)
    } else {
        Ok(())
    }
}

/// Appends why a pointer has no value in a line, if it has none.
fn add_found(
    told: &mut Vec<u8>,
    form: RowForm,
    number: usize,
    line: &[u8],
    pointer: &str,
    found: Result<Found, FindFault>,
) -> Result<(), AllocError>
    ensures { OnOk result (told.new.items ≡ told.old.items ++ told_of_found form number line.now pointer.now found) }
{
    match found {
        Ok(found) => {
            add_lacking(
                told,
                form,
                number,
                pointer,
                found.kind,
                bytes_at(line, found.span),
            )
        }
        Err(fault) => {
            add_pointer_front(told, number, pointer)?;
            add_answer(told, PointerAnswer::Lost(fault))
        }
    }
}

/// Appends the same of each pointer, in order.
pub(crate) fn add_all_found(
    told: &mut Vec<u8>,
    form: RowForm,
    number: usize,
    line: &[u8],
    pointers: &[String],
    found: &[Result<Found, FindFault>],
) -> Result<(), AllocError>
    requires { length pointers.now ≡ length found.now }
    ensures { OnOk result (told.new.items ≡ told.old.items ++ told_of_all form number line.now (map string_bytes pointers.now) found.now) }
{
    for place in 0..found.len() {
        add_found(
            told,
            form,
            number,
            line,
            spelt_at(pointers, place),
            found_at(found, place),
        )?;
    }
    Ok(())
}

/// Bad where something is reported now, else the status that there was before.
pub(crate) fn exit_past(exit: Exit, told: &[u8]) -> Exit
    ensures { result ≡ exit_past exit told.now }
{
    if told.is_empty() { exit } else { Exit::Bad }
}
