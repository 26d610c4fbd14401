// The cells of one row, one after another.
ghost use Rattle.std.specs.Prelude.{◌≡◌, ◌<◌, ◌++◌, ◌∷◌, Some, List, ℕ, [], length, map, slice_get, slice_range, OnOk};
ghost use Rattle.jx_line_values.specs.Cells.{separator, text_cell};
ghost use Rattle.jx_line_values.specs.LineValues.{joined, none_word, pointers_of, value_bytes, header};
ghost use Rattle.jx_line_values.specs.inside.Adding.{between_before};

use crate::cells::{add_none_word, add_separator, add_text_cell};
use crate::pointers::spelt_at;
use crate::task::LineValuesTask;
use crate::texts::add_cell;
use jx_index::{FindFault, Found};
use jx_lex::Span;
use std::alloc::AllocError;

/// The bytes of a span, as far as the line has them.
pub(crate) fn bytes_at(line: &[u8], span: Span) -> &[u8]
    ensures { result.now ≡ slice_range line.now span.start span.end }
{
    let end = span.end.min(line.len());
    if span.start < end {
        &line[span.start..end]
    } else {
        &[]
    }
}

/// Appends the cell of what a pointer leads to in a line, or the word that stands for no value.
fn add_value(
    out: &mut Vec<u8>,
    text: &mut Vec<u8>,
    task: &LineValuesTask,
    line: &[u8],
    found: Result<Found, FindFault>,
) -> Result<(), AllocError>
    ensures { OnOk result (out.new.items ≡ out.old.items ++ value_bytes task.now line.now found) }
{
    match found {
        Ok(found) => add_cell(out, text, task, found.kind, bytes_at(line, found.span)),
        Err(_) => add_none_word(out, task),
    }
}

/// Appends the cell with this place among those of a line.
fn add_next(
    out: &mut Vec<u8>,
    text: &mut Vec<u8>,
    task: &LineValuesTask,
    line: &[u8],
    place: usize,
    found: Result<Found, FindFault>,
) -> Result<(), AllocError>
    ensures { OnOk result (out.new.items ≡ out.old.items ++ (between_before task.now.form place ++ value_bytes task.now line.now found)) }
{
    add_separator(out, task.form, place)?;
    add_value(out, text, task, line, found)
}

/// The answer to the pointer with this place, counted from 0.
pub(crate) fn found_at(found: &[Result<Found, FindFault>], place: usize) -> Result<Found, FindFault>
    requires { place < length found.now }
    ensures { slice_get found.now place ≡ Some result }
{
    found[place]
}

/// Appends the cells of a line, a separator between, and a line feed. The text of a value is made in `text`.
pub(crate) fn add_values(
    out: &mut Vec<u8>,
    text: &mut Vec<u8>,
    task: &LineValuesTask,
    line: &[u8],
    found: &[Result<Found, FindFault>],
) -> Result<(), AllocError>
    ensures { OnOk result (out.new.items ≡ out.old.items ++ (joined (separator task.now.form) (map (value_bytes task.now line.now) found.now) ++ 10 ∷ [])) }
{
    for place in 0..found.len() {
        add_next(out, text, task, line, place, found_at(found, place))?;
    }
    out.push(b'\n')?;
    Ok(())
}

/// Appends the word that stands for no value, with this place in a row.
fn add_next_none(out: &mut Vec<u8>, task: &LineValuesTask, place: usize) -> Result<(), AllocError>
    ensures { OnOk result (out.new.items ≡ out.old.items ++ (between_before task.now.form place ++ none_word task.now)) }
{
    add_separator(out, task.form, place)?;
    add_none_word(out, task)
}

/// Appends a row without a value for any of the pointers.
pub(crate) fn add_no_values(out: &mut Vec<u8>, task: &LineValuesTask) -> Result<(), AllocError>
    ensures { OnOk result (out.new.items ≡ out.old.items ++ (joined (separator task.now.form) (map (λ (pointer : List ℕ). none_word task.now) (pointers_of task.now)) ++ 10 ∷ [])) }
{
    for place in 0..task.pointers.len() {
        add_next_none(out, task, place)?;
    }
    out.push(b'\n')?;
    Ok(())
}

/// Appends a pointer as the cell of a text, with this place in a row.
fn add_next_pointer(
    out: &mut Vec<u8>,
    task: &LineValuesTask,
    place: usize,
    pointer: &str,
) -> Result<(), AllocError>
    ensures { OnOk result (out.new.items ≡ out.old.items ++ (between_before task.now.form place ++ text_cell task.now.form (none_word task.now) pointer.now)) }
{
    add_separator(out, task.form, place)?;
    add_text_cell(out, task, pointer.as_bytes())
}

/// Appends the first line of a table.
pub(crate) fn add_header(out: &mut Vec<u8>, task: &LineValuesTask) -> Result<(), AllocError>
    ensures { OnOk result (out.new.items ≡ out.old.items ++ header task.now) }
{
    for place in 0..task.pointers.len() {
        add_next_pointer(out, task, place, spelt_at(&task.pointers, place))?;
    }
    out.push(b'\n')?;
    Ok(())
}
