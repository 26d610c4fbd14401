// Answers in a form that can be compared, without taking memory.
use jx_answer::{Answer, Element, ElementAnswer, TextAnswer};
use jx_index::FindFault;
use jx_lex::{Kind, Span};
use jx_run::{ElementVerdict, JudgedElement, NameRule, Refusal, Verdict};
use test_memory_of_runs::inputs::{Worked, WorkedRow};
use test_memory_of_runs::rows::are_rows;

/// The answer on an element: its rows, or why it has none.
#[derive(Clone, Copy)]
pub enum Told {
    Accepted(&'static [WorkedRow]),
    Refused(Refusal),
    MayBeCut,
    Unmarked,
}

/// An element that begins and ends there, with its answer.
pub type ToldElement = (usize, usize, Told);

fn is_answer(answer: &ElementAnswer<'_>, told: Told) -> bool {
    match (answer, told) {
        (ElementAnswer::Accepted(index), Told::Accepted(rows)) => are_rows(index.rows(), rows, 0),
        (ElementAnswer::Refused(refusal), Told::Refused(want)) => *refusal == want,
        (ElementAnswer::MayBeCut, Told::MayBeCut) => true,
        (ElementAnswer::Unmarked, Told::Unmarked) => true,
        _ => false,
    }
}

fn is_told(element: &Element<'_>, want: &ToldElement) -> bool {
    let (start, end, told) = *want;
    element.span == Span { start, end } && is_answer(&element.answer, told)
}

/// Whether these are the elements, in order, with their rows.
pub fn are_told(elements: &[Element<'_>], want: &[ToldElement]) -> bool {
    elements.len() == want.len()
        && elements
            .iter()
            .zip(want)
            .all(|(element, want)| is_told(element, want))
}

fn is_judged(element: &JudgedElement, want: &ToldElement) -> bool {
    let (start, end, told) = *want;
    let verdict = match told {
        Told::Accepted(_) => ElementVerdict::Accepted,
        Told::Refused(refusal) => ElementVerdict::Refused(refusal),
        Told::MayBeCut => ElementVerdict::MayBeCut,
        Told::Unmarked => ElementVerdict::Unmarked,
    };
    element.span == Span { start, end } && element.verdict == verdict
}

/// Whether these are the elements, in order, without their rows.
pub fn are_judged(elements: &[JudgedElement], want: &[ToldElement]) -> bool {
    elements.len() == want.len()
        && elements
            .iter()
            .zip(want)
            .all(|(element, want)| is_judged(element, want))
}

/// Whether two answers are the same refusal, or have the same rows.
pub fn are_equal(one: &TextAnswer<'_>, other: &TextAnswer<'_>) -> bool {
    match (one, other) {
        (TextAnswer::Accepted(one), TextAnswer::Accepted(other)) => one.rows() == other.rows(),
        (TextAnswer::Refused(one), TextAnswer::Refused(other)) => one == other,
        _ => false,
    }
}

/// An answer less its rows.
pub fn verdict_in(answer: &TextAnswer<'_>) -> Verdict {
    match answer {
        TextAnswer::Accepted(_) => Verdict::Accepted,
        TextAnswer::Refused(refusal) => Verdict::Refused(*refusal),
    }
}

// The refusal of a worked text by a rule for names, if it is refused: where names have to be unique, also for the first one that an
// object repeats.
fn refusal_of(worked: &Worked, names: NameRule) -> Option<Refusal> {
    match (worked.answer, names, worked.repeated) {
        (Err(refusal), _, _) => Some(refusal),
        (Ok(_), NameRule::Unique, Some(at)) => {
            let at = at.saturating_add(worked.front);
            Some(Refusal::RepeatedName { at })
        }
        _ => None,
    }
}

/// The verdict on a worked text by a rule for names.
pub fn worked_verdict(worked: &Worked, names: NameRule) -> Verdict {
    match refusal_of(worked, names) {
        Some(refusal) => Verdict::Refused(refusal),
        None => Verdict::Accepted,
    }
}

/// Whether it is the answer on a worked text by a rule for names, with all its rows.
pub fn is_worked(answer: &TextAnswer<'_>, worked: &Worked, names: NameRule) -> bool {
    match (answer, refusal_of(worked, names), worked.answer) {
        (TextAnswer::Refused(refusal), Some(want), _) => *refusal == want,
        (TextAnswer::Accepted(index), None, Ok(rows)) => {
            are_rows(index.rows(), rows, worked.front)
        }
        _ => false,
    }
}

/// A value's row number, kind and span, or why a pointer leads nowhere.
pub type LookUp = Result<(usize, Kind, (usize, usize)), FindFault>;

fn is_look_up(answer: &Answer, want: &LookUp) -> bool {
    match (answer, want) {
        (Answer::Found { node, kind, span }, Ok((number, wanted, (start, end)))) => {
            node.number() == *number && kind == wanted && span.start == *start && span.end == *end
        }
        (Answer::Fault(fault), Err(want)) => fault == want,
        _ => false,
    }
}

/// Whether these are the answers on pointers, in order.
pub fn are_found(found: &[Answer], want: &[LookUp]) -> bool {
    found.len() == want.len()
        && found
            .iter()
            .zip(want)
            .all(|(answer, want)| is_look_up(answer, want))
}
