// The report on a text, or of pointers for which nothing is written.
ghost use Rattle.std.specs.Prelude.{◌≡◌, ◌<◌, ◌++◌, Some, false, codes, length, map, slice_get, string_bytes, IfOk, OnOk};
ghost use Rattle.std.specs.Io.KnownBytes.{Appends};
ghost use Rattle.jx_words.specs.Words.{line, refusal_words};
ghost use Rattle.jx_values.specs.Values.{exit_by, shown_pointer, told_line, told_lines, told_of_value, value_written};

use crate::form::Form;
use crate::value::{bytes_at, is_written};
use jx_ends::{Exit, Sink};
use jx_lex::Kind;
use jx_run::Refusal;
use jx_words::{PointerAnswer, add_answer, add_refusal, shown_name};
use std::alloc::{AllocError, Global};

/// The report on a text that is refused.
pub fn told_of_refusal(alloc: Global, refusal: Refusal) -> Result<Vec<u8>, AllocError>
    ensures { IfOk result (λ told. told.items ≡ line (refusal_words refusal)) }
{
    let mut told = Vec::new(alloc);
    add_refusal(&mut told, refusal)?;
    Ok(told)
}

/// A pointer as it is shown: one without a byte, which leads to the whole text, as two quotation marks.
fn shown_pointer(alloc: Global, pointer: &str) -> Result<Vec<u8>, AllocError>
    ensures { IfOk result (λ name. name.items ≡ shown_pointer pointer.now) }
{
    if pointer.is_empty() {
        return Vec::from_slice(alloc, b"''");
    }
    shown_name(alloc, pointer)
}

/// Appends the pointer as it is shown, a colon and a space.
pub(crate) fn add_front(told: &mut Vec<u8>, pointer: &str) -> Result<(), AllocError>
    ensures { OnOk result (told.new.items ≡ told.old.items ++ (shown_pointer pointer.now ++ codes ": ")) }
{
    let name = shown_pointer(*told.allocator(), pointer)?;
    told.extend_from_slice(&name)?;
    told.extend_from_slice(b": ")
}

/// Appends the report on a value of this kind: nothing where it is written, or why it is not.
fn add_told_of_value(
    told: &mut Vec<u8>,
    form: Form,
    pointer: &str,
    kind: Kind,
    bytes: &[u8],
) -> Result<(), AllocError>
    ensures { OnOk result (told.new.items ≡ told.old.items ++ told_of_value pointer.now (value_written form kind bytes.now)) }
{
    if is_written(form, kind, bytes) {
        return Ok(());
    }
    add_front(told, pointer)?;
    told.extend_from_slice(b"half a surrogate pair\n")
}

/// Appends the report on a pointer with this answer in a text.
pub fn add_told(
    told: &mut Vec<u8>,
    form: Form,
    text: &[u8],
    pointer: &str,
    answer: PointerAnswer,
) -> Result<(), AllocError>
    ensures { OnOk result (told.new.items ≡ told.old.items ++ told_line form text.now pointer.now answer) }
{
    match answer {
        PointerAnswer::Found { kind, span } => {
            add_told_of_value(told, form, pointer, kind, bytes_at(text, span))
        }
        PointerAnswer::Unread(_) | PointerAnswer::Lost(_) => {
            add_front(told, pointer)?;
            add_answer(told, answer)
        }
    }
}

/// The pointer with this number, counted from 0, as it was written.
fn pointer_at(pointers: &[String], number: usize) -> &str
    requires { number < length pointers.now }
    ensures { slice_get (map string_bytes pointers.now) number ≡ Some result.now }
{
    pointers[number].as_str()
}

/// The answer with this number, counted from 0.
pub(crate) fn answer_at(answers: &[PointerAnswer], number: usize) -> PointerAnswer
    requires { number < length answers.now }
    ensures { slice_get answers.now number ≡ Some result }
{
    answers[number]
}

/// The report on pointers with these answers, in their order.
pub(crate) fn told_of_answers(
    alloc: Global,
    form: Form,
    text: &[u8],
    pointers: &[String],
    answers: &[PointerAnswer],
) -> Result<Vec<u8>, AllocError>
    requires { length pointers.now ≡ length answers.now }
    ensures { IfOk result (λ told. told.items ≡ told_lines form text.now (map string_bytes pointers.now) answers.now) }
{
    let mut told = Vec::new(alloc);
    for number in 0..answers.len() {
        add_told(
            &mut told,
            form,
            text,
            pointer_at(pointers, number),
            answer_at(answers, number),
        )?;
    }
    Ok(told)
}

/// Writes the report, unless reporting has failed before. Where reporting fails, no more is reported.
pub fn tell<E: Sink>(errors: &mut E, told: &[u8])
    ensures { E.has_failed errors.new ≡ false → Appends (E.contents errors.old) (E.contents errors.new) told.now }
{
    jx_drive::tell(errors, told);
}

/// The exit of a report: good where nothing is reported.
pub fn exit_by(told: &[u8]) -> Exit
    ensures { result ≡ exit_by told.now }
{
    if told.is_empty() {
        Exit::Good
    } else {
        Exit::Bad
    }
}
