// The lines that stand for the elements of a text sequence.
ghost use Rattle.std.specs.Prelude.{◌≡◌, ◌<◌, ◌++◌, Some, length, slice_get};
ghost use Rattle.jx_report.specs.Elements.{exit_past_judged, exit_past_verdict, judged_line, verdict_words};
ghost use Rattle.jx_words.specs.inside.Room.{HasRoom, TakesRoom};
ghost use Rattle.jx_ends.specs.declared.exit.Exit.TheVariants.{Good};

use jx_ends::Exit;
use jx_run::{ElementVerdict, JudgedElement};
use jx_words::{push_bytes, push_refusal, push_span};

/// Appends the words for the verdict on an element.
fn push_word(out: &mut Vec<u8>, verdict: ElementVerdict)
    requires { HasRoom out.old 37 }
    ensures words { out.new.items ≡ out.old.items ++ verdict_words verdict }
    ensures room { TakesRoom out.old out.new 37 }
{
    match verdict {
        ElementVerdict::Accepted => push_bytes(out, b"accepted"),
        ElementVerdict::Refused(refusal) => push_refusal(out, refusal),
        ElementVerdict::MayBeCut => push_bytes(out, b"may be cut"),
        ElementVerdict::Unmarked => push_bytes(out, b"unmarked"),
    }
}

/// Appends the line of an element.
pub fn push_element(out: &mut Vec<u8>, element: JudgedElement)
    requires { HasRoom out.old 81 }
    ensures words { out.new.items ≡ out.old.items ++ judged_line element }
    ensures room { TakesRoom out.old out.new 81 }
{
    push_span(out, element.span);
    push_bytes(out, b" ");
    push_word(out, element.verdict);
    push_bytes(out, b"\n");
}

/// Bad where the element is not accepted, and otherwise the exit that there was before it.
fn exit_past(exit: Exit, verdict: ElementVerdict) -> Exit
    ensures { result ≡ exit_past_verdict exit verdict }
{
    match verdict {
        ElementVerdict::Accepted => exit,
        _ => Exit::Bad,
    }
}

/// The element with this number, counted from 0.
pub fn element_at(elements: &[JudgedElement], number: usize) -> JudgedElement
    requires { number < length elements.now }
    ensures { slice_get elements.now number ≡ Some result }
{
    elements[number]
}

/// The exit for elements: good where each of them is accepted.
pub fn exit_of_elements(elements: &[JudgedElement]) -> Exit
    ensures { result ≡ exit_past_judged Good elements.now }
{
    let mut exit = Exit::Good;
    for number in 0..elements.len() {
        let element = element_at(elements, number);
        exit = exit_past(exit, element.verdict);
    }
    exit
}
