// Words and lines of reports on a text or a pointer, in memory that grows.
ghost use Rattle.std.specs.Prelude.{◌≡◌, ◌++◌, decimal, OnOk};
ghost use Rattle.jx_words.specs.Pointers.{answer_words};
ghost use Rattle.jx_words.specs.Words.{line, refusal_words, span_words};

use crate::pointer_answer::PointerAnswer;
use crate::pointer_words::push_pointer;
use crate::words::{push_byte, push_refusal};
use itoa::Buffer;
use jx_lex::Span;
use jx_run::Refusal;
use std::alloc::AllocError;

/// How many bytes the line of a refusal has at most.
const REFUSAL: usize = 38;

/// How many bytes the line of a pointer has at most.
const POINTER: usize = 56;

/// Appends a number in plain decimal.
pub fn add_number(out: &mut Vec<u8>, number: usize) -> Result<(), AllocError>
    ensures { OnOk result (out.new.items ≡ out.old.items ++ decimal number) }
{
    let mut buffer = Buffer::new();
    out.extend_from_slice(buffer.format(number).as_bytes())
}

/// Appends a span, as `S..E`.
pub fn add_span(out: &mut Vec<u8>, span: Span) -> Result<(), AllocError>
    ensures { OnOk result (out.new.items ≡ out.old.items ++ span_words span) }
{
    add_number(out, span.start)?;
    out.extend_from_slice(b"..")?;
    add_number(out, span.end)
}

/// Appends the line that is written for a refused text.
pub fn add_refusal(lines: &mut Vec<u8>, refusal: Refusal) -> Result<(), AllocError>
    ensures { OnOk result (lines.new.items ≡ lines.old.items ++ line (refusal_words refusal)) }
{
    lines.reserve(REFUSAL)?;
    push_refusal(lines, refusal);
    push_byte(lines, b'\n');
    Ok(())
}

/// Appends the line that is written for a pointer.
pub fn add_answer(lines: &mut Vec<u8>, answer: PointerAnswer) -> Result<(), AllocError>
    ensures { OnOk result (lines.new.items ≡ lines.old.items ++ line (answer_words answer)) }
{
    lines.reserve(POINTER)?;
    push_pointer(lines, answer);
    Ok(())
}
