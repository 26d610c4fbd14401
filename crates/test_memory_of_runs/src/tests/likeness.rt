// Whether two runs over the same bytes show the same, looked at without taking memory.
use jx_lex::{LexExit, LexState};
use jx_reduce::{Expect, Whole};
use jx_run::{OutcomeRun, SeqRun, Shape, Started, Summary, TextRun};
use std::alloc::{AllocError, Global};
use test_words::EXPECTS;

/// A run that can be compared with another.
pub trait Likeness: Summary {
    /// Whether both have the same span and the same verdict, and for each state the same exit and from each expectation the
    /// same end over no open container. A sequence's run has such runs of its first and its last bytes, and between them the
    /// same readings from the start.
    fn is_like(&self, other: &Self) -> bool;
}

// A run as it is read from each state and expectation.
trait Readings: Summary {
    fn exit_of(&self, state: LexState) -> LexExit;

    fn whole_of(&self, state: LexState, expect: Expect) -> Whole;
}

impl Readings for OutcomeRun {
    fn exit_of(&self, state: LexState) -> LexExit {
        self.exit(state)
    }

    fn whole_of(&self, state: LexState, expect: Expect) -> Whole {
        self.entry(state, expect).whole()
    }
}

impl Readings for TextRun {
    fn exit_of(&self, state: LexState) -> LexExit {
        self.exit(state)
    }

    fn whole_of(&self, state: LexState, expect: Expect) -> Whole {
        self.entry(state, expect).whole()
    }
}

fn are_alike_from<S: Readings>(one: &S, other: &S, state: LexState) -> bool {
    for expect in &EXPECTS {
        if one.whole_of(state, *expect) != other.whole_of(state, *expect) {
            return false;
        }
    }
    one.exit_of(state) == other.exit_of(state)
}

fn are_alike<S: Readings>(one: &S, other: &S) -> bool {
    let states = LexState::all();
    for state in &states {
        if !are_alike_from(one, other, *state) {
            return false;
        }
    }
    one.span() == other.span()
}

impl Likeness for OutcomeRun {
    fn is_like(&self, other: &Self) -> bool {
        self.verdict() == other.verdict() && are_alike(self, other)
    }
}

impl Likeness for TextRun {
    fn is_like(&self, other: &Self) -> bool {
        self.verdict() == other.verdict() && are_alike(self, other)
    }
}

fn started_are_alike(one: &Started, other: &Started) -> bool {
    one.span() == other.span()
        && one.verdict() == other.verdict()
        && one.marks() == other.marks()
        && one.ends() == other.ends()
}

fn all_are_alike(ones: &[Started], others: &[Started]) -> bool {
    ones.len() == others.len()
        && ones
            .iter()
            .zip(others)
            .all(|(one, other)| started_are_alike(one, other))
}

impl Likeness for SeqRun {
    fn is_like(&self, other: &Self) -> bool {
        match (self.shape(), other.shape()) {
            (Shape::Plain(one), Shape::Plain(other)) => one.is_like(other),
            (
                Shape::Marked {
                    before,
                    done,
                    after,
                },
                Shape::Marked {
                    before: other_before,
                    done: other_done,
                    after: other_after,
                },
            ) => {
                before.is_like(other_before)
                    && all_are_alike(done, other_done)
                    && after.is_like(other_after)
            }
            _ => false,
        }
    }
}

/// Whether a run over part of a text is like the one that reading that part at once gives.
pub fn is_as_read<S: Likeness>(alloc: Global, text: &[u8], run: &S) -> Result<bool, AllocError> {
    let span = run.span();
    if span.end < span.start || text.len() < span.end {
        return Ok(false);
    }
    let read = S::of(alloc, text, span.start, span.end, run.depth())?;
    Ok(run.is_like(&read))
}
