// The texts of values, and their cells.
ghost use Rattle.std.specs.Prelude.{◌≡◌, ◌++◌, [], None, Some, if◌then◌else◌, true, unwrap_or, IfOk, OnOk};
ghost use Rattle.std.specs.Char.{encode_utf8};
ghost use Rattle.std.specs.List.{list_all};
ghost use Rattle.std.specs.Option.{option_map};
ghost use Rattle.jx_compact.specs.Compact.{compact};
ghost use Rattle.jx_index.specs.Units.{between_marks};
ghost use Rattle.jx_string.specs.Texts.{text_of};
ghost use Rattle.jx_line_values.specs.Cells.{cell, is_half_alone, lacks_text, text_cell, text_in};
ghost use Rattle.jx_line_values.specs.LineValues.{none_word};
ghost use Rattle.jx_line_values.specs.inside.Texts.{is_itself};

use crate::cells::{add_none_word, add_text_cell};
use crate::row_form::RowForm;
use crate::task::LineValuesTask;
use jx_compact::{Place, compact_onto};
use jx_lex::Kind;
use jx_string::{Characters, between_marks, has_text};
use std::alloc::AllocError;

/// Appends the compact form of a value.
fn add_compact(out: &mut Vec<u8>, bytes: &[u8]) -> Result<(), AllocError>
    ensures { OnOk result (out.new.items ≡ out.old.items ++ compact bytes.now) }
{
    out.reserve(bytes.len())?;
    compact_onto(out, Place::Between, bytes);
    Ok(())
}

/// Whether a byte of a string is a character of its text: ASCII, and no backslash.
fn is_itself(byte: u8) -> bool
    ensures { result ≡ is_itself byte }
{
    if byte == b'\\' { false } else { byte < 0x80 }
}

/// Whether each byte is.
fn are_themselves(bytes: &[u8]) -> bool
    ensures { result ≡ list_all is_itself bytes.now }
{
    for byte in bytes {
        if !is_itself(*byte) {
            return false;
        }
    }
    true
}

/// Whether the bytes of a string between its quotation marks are its text.
fn is_its_text(string: &[u8]) -> bool
    ensures { result ≡ true → text_of string.now ≡ Some (between_marks string.now) }
{
    are_themselves(between_marks(string))
}

/// Appends a character in UTF-8.
fn add_character(text: &mut Vec<u8>, character: char) -> Result<(), AllocError>
    ensures { OnOk result (text.new.items ≡ text.old.items ++ encode_utf8 character) }
{
    let mut bytes = [0; 4];
    text.extend_from_slice(character.encode_utf8(&mut bytes).as_bytes())
}

/// Appends the text of a string after nothing, and answers whether there is one.
fn add_characters(text: &mut Vec<u8>, string: &[u8]) -> Result<bool, AllocError>
    requires { text.old.items ≡ [] }
    ensures { IfOk result (λ is_there. text_of string.now ≡ (if is_there then Some text.new.items else None)) }
{
    let mut characters = Characters::of_string(string);
    while let Some(character) = characters.next_character() {
        let Some(character) = character else {
            return Ok(false);
        };
        add_character(text, character)?;
    }
    Ok(true)
}

/// Appends the cell of a string. The room for its text stays for the next one.
fn add_string(
    out: &mut Vec<u8>,
    text: &mut Vec<u8>,
    task: &LineValuesTask,
    string: &[u8],
) -> Result<(), AllocError>
    ensures { OnOk result (out.new.items ≡ out.old.items ++ unwrap_or (option_map (text_cell task.now.form (none_word task.now)) (text_of string.now)) (none_word task.now)) }
{
    if is_its_text(string) {
        return add_text_cell(out, task, between_marks(string));
    }
    text.clear();
    if add_characters(text, string)? {
        add_text_cell(out, task, text)
    } else {
        add_none_word(out, task)
    }
}

/// Appends the cell of a value that is no string, with the same room.
fn add_tokens(
    out: &mut Vec<u8>,
    text: &mut Vec<u8>,
    task: &LineValuesTask,
    bytes: &[u8],
) -> Result<(), AllocError>
    ensures { OnOk result (out.new.items ≡ out.old.items ++ text_cell task.now.form (none_word task.now) (compact bytes.now)) }
{
    text.clear();
    add_compact(text, bytes)?;
    add_text_cell(out, task, text)
}

/// Appends the cell of a value's text, or the word where it has none.
fn add_text(
    out: &mut Vec<u8>,
    text: &mut Vec<u8>,
    task: &LineValuesTask,
    kind: Kind,
    bytes: &[u8],
) -> Result<(), AllocError>
    ensures { OnOk result (out.new.items ≡ out.old.items ++ unwrap_or (option_map (text_cell task.now.form (none_word task.now)) (text_in kind bytes.now)) (none_word task.now)) }
{
    match kind {
        Kind::String => add_string(out, text, task, bytes),
        Kind::Null => add_none_word(out, task),
        Kind::Object | Kind::Array | Kind::Number | Kind::True | Kind::False => {
            add_tokens(out, text, task, bytes)
        }
    }
}

/// Appends the cell of a value, or the word where it has none.
pub(crate) fn add_cell(
    out: &mut Vec<u8>,
    text: &mut Vec<u8>,
    task: &LineValuesTask,
    kind: Kind,
    bytes: &[u8],
) -> Result<(), AllocError>
    ensures { OnOk result (out.new.items ≡ out.old.items ++ unwrap_or (cell task.now.form (none_word task.now) kind bytes.now) (none_word task.now)) }
{
    match task.form {
        RowForm::Json => add_compact(out, bytes),
        RowForm::Tsv => add_text(out, text, task, kind, bytes),
        RowForm::Csv => add_text(out, text, task, kind, bytes),
    }
}

/// Whether a value is a string with half of a surrogate pair alone.
fn is_half_alone(kind: Kind, bytes: &[u8]) -> bool
    ensures { result ≡ is_half_alone kind bytes.now }
{
    match kind {
        Kind::String => !(is_its_text(bytes) || has_text(bytes)),
        Kind::Object | Kind::Array | Kind::Number | Kind::True | Kind::False | Kind::Null => false,
    }
}

/// Whether it is one where texts are asked for.
pub(crate) fn lacks_text(form: RowForm, kind: Kind, bytes: &[u8]) -> bool
    ensures { result ≡ lacks_text form kind bytes.now }
{
    match form {
        RowForm::Json => false,
        RowForm::Tsv => is_half_alone(kind, bytes),
        RowForm::Csv => is_half_alone(kind, bytes),
    }
}
