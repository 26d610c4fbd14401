// Cells of texts by the escapes of their form.
ghost use Rattle.std.specs.Prelude.{◌≡◌, ◌++◌, ◌∷◌, [], flat_map, OnOk};
ghost use Rattle.std.specs.List.{list_all};
ghost use Rattle.jx_line_values.specs.declared.row_form.RowForm.TheVariants.{Csv};
ghost use Rattle.jx_line_values.specs.Cells.{doubled, escaped, is_bare, is_plain, quoted, separator, text_cell};
ghost use Rattle.jx_line_values.specs.inside.Adding.{between_before, is_escaped_as_itself};
ghost use Rattle.jx_line_values.specs.LineValues.{none_word};

use crate::row_form::RowForm;
use crate::task::LineValuesTask;
use std::alloc::AllocError;

/// The byte between the cells of a row.
fn separator(form: RowForm) -> u8
    ensures { result ≡ separator form }
{
    match form {
        RowForm::Json => b'\t',
        RowForm::Tsv => b'\t',
        RowForm::Csv => b',',
    }
}

/// Appends the separator in front of a cell that is not the first.
pub(crate) fn add_separator(
    out: &mut Vec<u8>,
    form: RowForm,
    place: usize,
) -> Result<(), AllocError>
    ensures { OnOk result (out.new.items ≡ out.old.items ++ between_before form place) }
{
    if place > 0 {
        out.push(separator(form))?;
    }
    Ok(())
}

/// Appends bytes as they are.
fn add_bytes(out: &mut Vec<u8>, bytes: &[u8]) -> Result<(), AllocError>
    ensures { OnOk result (out.new.items ≡ out.old.items ++ bytes.now) }
{
    out.extend_from_slice(bytes)?;
    Ok(())
}

/// Appends a byte as it is.
fn add_byte(out: &mut Vec<u8>, byte: u8) -> Result<(), AllocError>
    ensures { OnOk result (out.new.items ≡ out.old.items ++ byte ∷ []) }
{
    out.push(byte)?;
    Ok(())
}

/// Whether a byte of a text stands for itself between tabs.
fn is_escaped_as_itself(byte: u8) -> bool
    ensures { result ≡ is_escaped_as_itself byte }
{
    if byte == b'\t' {
        false
    } else if byte == b'\n' {
        false
    } else if byte == b'\r' {
        false
    } else {
        byte != b'\\'
    }
}

/// Whether each byte does.
fn are_escaped_as_themselves(text: &[u8]) -> bool
    ensures { result ≡ list_all is_escaped_as_itself text.now }
{
    for byte in text {
        if !is_escaped_as_itself(*byte) {
            return false;
        }
    }
    true
}

/// Appends a byte of a text, or its escape.
fn add_escaped_byte(out: &mut Vec<u8>, byte: u8) -> Result<(), AllocError>
    ensures { OnOk result (out.new.items ≡ out.old.items ++ escaped byte) }
{
    if byte == b'\t' {
        add_bytes(out, b"\\t")
    } else if byte == b'\n' {
        add_bytes(out, b"\\n")
    } else if byte == b'\r' {
        add_bytes(out, b"\\r")
    } else if byte == b'\\' {
        add_bytes(out, b"\\\\")
    } else {
        add_byte(out, byte)
    }
}

/// Appends a text with its escapes, byte by byte.
fn add_each_escaped(out: &mut Vec<u8>, text: &[u8]) -> Result<(), AllocError>
    ensures { OnOk result (out.new.items ≡ out.old.items ++ flat_map escaped text.now) }
{
    for byte in text {
        add_escaped_byte(out, *byte)?;
    }
    Ok(())
}

/// Appends a text with its escapes.
fn add_escaped(out: &mut Vec<u8>, text: &[u8]) -> Result<(), AllocError>
    ensures { OnOk result (out.new.items ≡ out.old.items ++ flat_map escaped text.now) }
{
    if are_escaped_as_themselves(text) {
        add_bytes(out, text)
    } else {
        add_each_escaped(out, text)
    }
}

/// Whether a byte may stand in a bare cell.
fn is_plain(byte: u8) -> bool
    ensures { result ≡ is_plain byte }
{
    if byte == b',' {
        false
    } else if byte == b'"' {
        false
    } else if byte == b'\n' {
        false
    } else if byte == b'\r' {
        false
    } else {
        byte != b'\\'
    }
}

/// Whether each byte may.
fn are_plain(text: &[u8]) -> bool
    ensures { result ≡ list_all is_plain text.now }
{
    for byte in text {
        if !is_plain(*byte) {
            return false;
        }
    }
    true
}

/// Whether a text stands bare, where the word stands for no value.
fn is_bare(none: &str, text: &[u8]) -> bool
    ensures { result ≡ is_bare none.now text.now }
{
    if text.is_empty() {
        false
    } else if text == none.as_bytes() {
        false
    } else {
        are_plain(text)
    }
}

/// Appends a byte of a text between quotation marks.
fn add_doubled_byte(out: &mut Vec<u8>, byte: u8) -> Result<(), AllocError>
    ensures { OnOk result (out.new.items ≡ out.old.items ++ doubled byte) }
{
    if byte == b'"' {
        add_bytes(out, b"\"\"")
    } else {
        add_byte(out, byte)
    }
}

/// Appends each byte.
fn add_each_doubled(out: &mut Vec<u8>, text: &[u8]) -> Result<(), AllocError>
    ensures { OnOk result (out.new.items ≡ out.old.items ++ flat_map doubled text.now) }
{
    for byte in text {
        add_doubled_byte(out, *byte)?;
    }
    Ok(())
}

/// Appends a text between quotation marks.
fn add_quoted(out: &mut Vec<u8>, text: &[u8]) -> Result<(), AllocError>
    ensures { OnOk result (out.new.items ≡ out.old.items ++ quoted text.now) }
{
    add_byte(out, b'"')?;
    add_each_doubled(out, text)?;
    add_byte(out, b'"')
}

/// Appends a text between commas, bare or between quotation marks.
fn add_between_commas(out: &mut Vec<u8>, none: &str, text: &[u8]) -> Result<(), AllocError>
    ensures { OnOk result (out.new.items ≡ out.old.items ++ text_cell Csv none.now text.now) }
{
    if is_bare(none, text) {
        add_bytes(out, text)
    } else {
        add_quoted(out, text)
    }
}

/// Appends the word that stands for no value.
pub(crate) fn add_none_word(out: &mut Vec<u8>, task: &LineValuesTask) -> Result<(), AllocError>
    ensures { OnOk result (out.new.items ≡ out.old.items ++ none_word task.now) }
{
    add_bytes(out, task.none.as_bytes())
}

/// Appends the cell of a text.
pub(crate) fn add_text_cell(
    out: &mut Vec<u8>,
    task: &LineValuesTask,
    text: &[u8],
) -> Result<(), AllocError>
    ensures { OnOk result (out.new.items ≡ out.old.items ++ text_cell task.now.form (none_word task.now) text.now) }
{
    match task.form {
        RowForm::Json => add_bytes(out, text),
        RowForm::Tsv => add_escaped(out, text),
        RowForm::Csv => add_between_commas(out, task.none.as_str(), text),
    }
}
