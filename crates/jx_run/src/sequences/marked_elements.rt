// Elements of a JSON text sequence that stand between two record separators, of which verdicts alone are kept.
ghost use Rattle.std.specs.Prelude.{◌≡◌, ◌<◌, ◌≤◌, ◌+◌, ◌-◌, ◌^◌, ℕ, List, length, map, slice_range, IfOk, OnOk};
ghost use Rattle.std.specs.List.{AllZip};
ghost use Rattle.jx_run.specs.Elements.{Part, filled, part};
ghost use Rattle.jx_run.specs.ElementsRun.{IsPartRun};
ghost use Rattle.jx_run.specs.inside.MarkedElements.{AreMarked};
ghost use Rattle.jx_run.specs.inside.Moved.{moved};
ghost use Rattle.jx_run.specs.ElementVerdict.{IsJudgedElement};

use crate::laws::verdicts_with_a_refused_mark;
use crate::readers::progress::{progress_at_start, read_beginning, verdict_at};
use crate::runs::part_run::PartRun;
use crate::runs::parted::Marked;
use crate::runs::piece::Piece;
use crate::sequences::element_verdict::{JudgedElement, all_moved};
use crate::sequences::open_end::{ends_open, told};
use crate::sequences::separators::next_separator;
use crate::texts::settings::FrontMark;
use jx_lex::{Depth, Span};
use jx_reduce::KnownStack;
use jx_summary::Summary;
use std::alloc::{AllocError, Global};

/// The verdict on an element after a record separator: the bytes of a text between two places, the first of which has
/// the offset `start`. The stack begins anew, and takes what follows as room, so that it takes the last tokens as fast
/// as the others.
#[inline(always)]
pub(crate) fn read_element(
    stack: &mut KnownStack,
    text: &[u8],
    from: usize,
    to: usize,
    start: usize,
) -> Result<JudgedElement, AllocError>
    requires ordered { from ≤ to }
    requires within { to ≤ length text.now }
    requires marked { 0 < start }
    requires fits { start + (to - from) < 2 ^ 64 }
    ensures depth { OnOk result (stack.new.depth ≡ stack.old.depth) }
    ensures judged { IfOk result (IsJudgedElement stack.old.depth (part start (slice_range text.now from to))) }
{
    verdicts_with_a_refused_mark();
    stack.reset();
    let begun = progress_at_start(FrontMark::Refused);
    let came = read_beginning(stack, begun, &text[from..], to - from, start)?;
    let end = start + (to - from);
    Ok(JudgedElement {
        span: Span { start, end },
        verdict: told(verdict_at(came, stack.whole()), ends_open(&text[from..to])),
    })
}

impl Piece for PartRun {
    type Finished = JudgedElement;

    ghost is_finished = { IsJudgedElement };

    ghost long = { λ bytes run h. h.outcomes.long };

    fn finished_with(&self, right: &Self) -> Result<JudgedElement, AllocError> {
        self.judged_with(right)
    }

    // One stack serves every element.
    fn behind(
        alloc: Global,
        text: &[u8],
        start: usize,
        end: usize,
        depth: Depth,
    ) -> Result<(Vec<JudgedElement>, Self), AllocError> {
        let mut stack = KnownStack::new(alloc, depth);
        let mut done = Vec::new(alloc);
        let mut from = start;
        while let Some(at) = next_separator(text, from, end) {
            if from < at {
                done.push(read_element(&mut stack, text, from, at, from)?)?;
            }
            from = at + 1;
        }
        let after = PartRun::of(alloc, text, from, end, depth)?;
        Ok((done, after))
    }
}

/// The elements after the first separator, in order, the last one after the others unless it is empty.
pub(crate) fn elements_behind(marked: Marked<PartRun>) -> Result<Vec<JudgedElement>, AllocError>
    ensures { (limit : ℕ) (behind : List Part) → AreMarked limit behind marked → IfOk result (λ es. AllZip (IsJudgedElement limit) (filled behind) es.items) }
{
    let Marked {
        done: mut elements,
        after,
    } = marked;
    let span = after.span();
    if span.start < span.end {
        elements.push(after.judged())?;
    }
    Ok(elements)
}

/// The same elements, and the same run after them, so much further on. It takes no memory.
pub(crate) fn shifted_behind(marked: Marked<PartRun>, by: usize) -> Marked<PartRun>
    requires fits { marked.after.outcomes.end + by < 2 ^ 64 }
    ensures done { result.done ≡ map (moved by) marked.done }
    ensures start { result.after.outcomes.start ≡ by + marked.after.outcomes.start }
    ensures end { result.after.outcomes.end ≡ by + marked.after.outcomes.end }
    ensures depth { result.after.outcomes.depth ≡ marked.after.outcomes.depth }
    ensures after { (bytes : List ℕ) → IsPartRun bytes marked.after → IsPartRun bytes result.after }
{
    Marked {
        done: all_moved(by, marked.done),
        after: marked.after.shifted(by),
    }
}
