// Verdicts on elements of a JSON text sequence.
ghost use Rattle.std.specs.Prelude.{◌≡◌, map};
ghost use Rattle.jx_run.specs.inside.Moved.{moved, moved_refusal, moved_verdict};
ghost use Rattle.jx_run.specs.SequenceRead.{ended_there};

use crate::sequences::open_end::told;
use crate::texts::verdict::{Refusal, Verdict};
use jx_lex::Span;

/// The verdict on an element of a JSON text sequence.
#[derive(Clone, Copy, Debug, PartialEq, Eq)]
pub enum ElementVerdict {
    /// It is a text within the depth.
    Accepted,
    /// It is not a text within the depth. Offsets are in the whole input.
    Refused(Refusal),
    /// Its value is a number, `true`, `false` or `null` with nothing after it, so it may be the beginning of a longer
    /// one that was cut (RFC 7464, section 2.4).
    MayBeCut,
    /// It is before the first record separator.
    Unmarked,
}

/// An element of a JSON text sequence (RFC 7464, section 2.1), and the verdict on it.
#[derive(Clone, Copy, Debug, PartialEq, Eq)]
pub struct JudgedElement {
    /// Where it stands, as offsets in the whole input.
    pub span: Span,
    pub verdict: ElementVerdict,
}

/// The refusal of bytes so much further on.
fn moved_refusal(by: usize, refusal: Refusal) -> Refusal
    ensures { result ≡ moved_refusal by refusal }
{
    match refusal {
        Refusal::Stopped { at } => Refusal::Stopped {
            at: by.saturating_add(at),
        },
        Refusal::Truncated => Refusal::Truncated,
        Refusal::TooDeep { at } => Refusal::TooDeep {
            at: by.saturating_add(at),
        },
        Refusal::RepeatedName { at } => Refusal::RepeatedName {
            at: by.saturating_add(at),
        },
    }
}

/// The verdict on bytes so much further on.
fn moved_verdict(by: usize, verdict: ElementVerdict) -> ElementVerdict
    ensures { result ≡ moved_verdict by verdict }
{
    match verdict {
        ElementVerdict::Refused(refusal) => ElementVerdict::Refused(moved_refusal(by, refusal)),
        ElementVerdict::Accepted => ElementVerdict::Accepted,
        ElementVerdict::MayBeCut => ElementVerdict::MayBeCut,
        ElementVerdict::Unmarked => ElementVerdict::Unmarked,
    }
}

/// The element so many bytes further on.
fn moved(by: usize, element: JudgedElement) -> JudgedElement
    ensures { result ≡ moved by element }
{
    let span = Span {
        start: by.saturating_add(element.span.start),
        end: by.saturating_add(element.span.end),
    };
    JudgedElement {
        span,
        verdict: moved_verdict(by, element.verdict),
    }
}

/// The elements so many bytes further on.
pub(crate) fn all_moved(by: usize, mut elements: Vec<JudgedElement>) -> Vec<JudgedElement>
    ensures { result.items ≡ map (moved by) elements.items }
{
    for at in 0..elements.len() {
        elements[at] = moved(by, elements[at]);
    }
    elements
}

/// The element of a sequence that has this span, by the verdict on its bytes and by whether their last one is open; none
/// where the span is empty. What stands at the start has no record separator before it.
pub fn ended_there(span: Span, verdict: Verdict, open_ended: bool) -> Option<JudgedElement>
    ensures { result ≡ ended_there span verdict open_ended }
{
    if span.start == span.end {
        return None;
    }
    let verdict = if span.start == 0 {
        ElementVerdict::Unmarked
    } else {
        told(verdict, open_ended)
    };
    Some(JudgedElement { span, verdict })
}
