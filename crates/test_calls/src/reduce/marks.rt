// Lists of token starts, as words have them.
ghost use Rattle.std.specs.Prelude.{◌≤◌, ◌<◌, ◌^◌, IfOk, IfSome};
ghost use Rattle.jx_reduce.specs.Offsets.{EachIn, RisingFrom};

use jx_lex::Mark;
use std::alloc::Global;
use test_words::{Line, LineFault, kind_of};

/// The offset in these digits, below 2^32.
fn offset_of(digits: &[u8]) -> Option<usize>
    ensures { IfSome result (λ at. at < 2 ^ 32) }
{
    let digits = std::str::from_utf8(digits).ok()?;
    let at = digits.parse::<u32>().ok()?;
    Some(at as usize)
}

/// The token start of a letter and an offset below 2^32.
fn mark_of(spelt: &str) -> Option<Mark>
    ensures { IfSome result (λ mark. mark.at < 2 ^ 32) }
{
    let (letter, digits) = spelt.as_bytes().split_first()?;
    let kind = kind_of(*letter)?;
    let at = offset_of(digits)?;
    Some(Mark { kind, at })
}

/// The token starts in the next word. Their offsets rise, and are below 2^32.
pub(crate) fn marks(line: &mut Line<'_>) -> Vec<Mark>
    ensures rising { RisingFrom 0 result.items }
    ensures low { EachIn (λ m. (0 ≤ m.at) × (m.at < 2 ^ 32)) result.items }
{
    match marks_of(line.alloc, line.word()) {
        Ok(marks) => marks,
        Err(fault) => {
            line.note(fault);
            Vec::new(line.alloc)
        }
    }
}

fn marks_of(alloc: Global, word: &str) -> Result<Vec<Mark>, LineFault>
    ensures rising { IfOk result (λ marks. RisingFrom 0 marks.items) }
    ensures low { IfOk result (λ marks. EachIn (λ m. (0 ≤ m.at) × (m.at < 2 ^ 32)) marks.items) }
{
    let mut marks = Vec::new(alloc);
    if word == "-" {
        return Ok(marks);
    }
    let mut low = 0usize;
    for spelt in word.split('+') {
        let mark = mark_of(spelt).ok_or(LineFault::NoSuchCall)?;
        if mark.at < low {
            return Err(LineFault::NoSuchCall);
        }
        low = mark.at + 1;
        marks.push(mark)?;
    }
    Ok(marks)
}
