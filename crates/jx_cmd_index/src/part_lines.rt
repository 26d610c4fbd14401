// The lines for parts.
ghost use Rattle.std.specs.Prelude.{◌≡◌, ◌++◌, IfOk, OnOk};
ghost use Rattle.jx_words.specs.Words.{line};
ghost use Rattle.jx_cmd_index.specs.PartReports.{part_lines, part_words, told_words};

use jx_file_query::ContainerPart;
use jx_lex::Span;
use jx_words::{PointerAnswer, add_answer, add_span, shown_name};
use std::alloc::{AllocError, Global};

/// Appends the line of a part.
fn add_part(out: &mut Vec<u8>, part: ContainerPart) -> Result<(), AllocError>
    ensures { OnOk result (out.new.items ≡ out.old.items ++ line (part_words part)) }
{
    let children = Span {
        start: part.first,
        end: part.end,
    };
    add_span(out, part.span)?;
    out.extend_from_slice(b" ")?;
    add_span(out, children)?;
    out.extend_from_slice(b"\n")
}

/// A line for each part, in their order.
pub(crate) fn part_lines(alloc: Global, parts: &[ContainerPart]) -> Result<Vec<u8>, AllocError>
    ensures { IfOk result (λ lines. lines.items ≡ part_lines parts.now) }
{
    let mut lines = Vec::new(alloc);
    for part in parts {
        add_part(&mut lines, *part)?;
    }
    Ok(lines)
}

/// The report on a string that leads to no parts.
pub(crate) fn told_of(
    alloc: Global,
    pointer: &str,
    answer: PointerAnswer,
) -> Result<Vec<u8>, AllocError>
    ensures { IfOk result (λ told. told.items ≡ told_words pointer.now answer) }
{
    let mut told = shown_name(alloc, pointer)?;
    told.extend_from_slice(b": ")?;
    add_answer(&mut told, answer)?;
    Ok(told)
}
