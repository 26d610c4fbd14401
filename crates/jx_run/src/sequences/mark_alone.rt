// A byte order mark that stands alone before the first record separator of a text sequence.
ghost use Rattle.std.specs.Prelude.{◌≡◌, ◌≤◌, ℕ, List, length};
ghost use Rattle.std.specs.List.{AllZip};
ghost use Rattle.jx_run.specs.declared.texts.settings.FrontMark.TheVariants.{Ignored};
ghost use Rattle.jx_run.specs.Elements.{elements as elements_of};
ghost use Rattle.jx_run.specs.ElementVerdict.{IsJudgedElement};
ghost use Rattle.jx_run.specs.Front.{front_of};
ghost use Rattle.jx_run.specs.MarkAlone.{elements_by, is_mark_alone, part_of};

use crate::sequences::element_verdict::JudgedElement;
use crate::texts::settings::{Front, FrontMark};
use jx_lex::Span;

/// Whether the bytes at a span are just the byte order mark at the input's start. `seen` is what stands there where a
/// byte order mark is ignored (`front`).
pub fn is_mark_alone(seen: Front, span: Span) -> bool
    ensures alone { (input : List ℕ) → seen ≡ front_of Ignored input → span.end ≤ length input → result ≡ is_mark_alone (part_of input span) }
{
    if span.start != 0 || span.end != 3 {
        return false;
    }
    match seen {
        Front::Skip(count) => count == 3,
        Front::Refused(_) => false,
    }
}

/// The elements without a byte order mark alone, before the first record separator.
fn without_mark(seen: Front, mut elements: Vec<JudgedElement>) -> Vec<JudgedElement>
    ensures { (input : List ℕ) (limit : ℕ) → seen ≡ front_of Ignored input → AllZip (IsJudgedElement limit) (elements_of 0 input) elements.items
        → AllZip (IsJudgedElement limit) (elements_by Ignored input) result.items }
{
    if elements.is_empty() {
        return elements;
    }
    if !is_mark_alone(seen, elements[0].span) {
        return elements;
    }
    elements.remove(0);
    elements
}

/// The verdicts on the elements of a sequence by what becomes of a byte order mark, from those on all of them. Where it
/// is ignored, one that stands alone before the first record separator is no element (RFC 7464, section 2.1; RFC 8259,
/// section 8.1). `seen` is what stands at the sequence's start where a byte order mark is ignored (`front`). It takes
/// no memory.
pub fn judged_by_mark(
    mark: FrontMark,
    seen: Front,
    elements: Vec<JudgedElement>,
) -> Vec<JudgedElement>
    ensures by_mark { (input : List ℕ) (limit : ℕ) → seen ≡ front_of Ignored input → AllZip (IsJudgedElement limit) (elements_of 0 input) elements.items
        → AllZip (IsJudgedElement limit) (elements_by mark input) result.items }
{
    match mark {
        FrontMark::Refused => elements,
        FrontMark::Ignored => without_mark(seen, elements),
    }
}
