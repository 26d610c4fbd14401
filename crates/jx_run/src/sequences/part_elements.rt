// The elements of a part of a JSON text sequence, at their offsets in the whole one.
ghost use Rattle.std.specs.Prelude.{◌+◌, ◌<◌, ◌^◌, length, IfOk};
ghost use Rattle.std.specs.List.{AllZip};
ghost use Rattle.jx_run.specs.Elements.{elements};
ghost use Rattle.jx_run.specs.ElementVerdict.{IsJudgedElement};
ghost use Rattle.jx_run.specs.SequenceRead.{StartsWithSeparator};

use crate::sequences::element_verdict::JudgedElement;
use crate::sequences::marked_elements::read_element;
use crate::sequences::separators::next_separator;
use jx_lex::Depth;
use jx_reduce::KnownStack;
use std::alloc::{AllocError, Global};

/// Judges the elements of a part of a text sequence, which begins with a record separator and is after so many bytes.
/// One stack reads them, each at its offset in the whole sequence. The last one ends with the part.
pub fn elements_of_part(
    alloc: Global,
    part: &[u8],
    before: usize,
    depth: Depth,
) -> Result<Vec<JudgedElement>, AllocError>
    requires starts { StartsWithSeparator part.now }
    requires fits { before + length part.now < 2 ^ 64 }
    ensures elements { IfOk result (λ judged. AllZip (IsJudgedElement depth) (elements before part.now) judged.items) }
{
    let mut judged = Vec::new(alloc);
    if part.is_empty() {
        return Ok(judged);
    }
    let mut stack = KnownStack::new(alloc, depth);
    // After the separator in front.
    let mut from = 1;
    while let Some(at) = next_separator(part, from, part.len()) {
        if from < at {
            judged.push(read_element(&mut stack, part, from, at, before + from)?)?;
        }
        from = at + 1;
    }
    if from < part.len() {
        judged.push(read_element(&mut stack, part, from, part.len(), before + from)?)?;
    }
    Ok(judged)
}
