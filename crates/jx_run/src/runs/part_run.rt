// Runs over parts of the elements of a JSON text sequence.
ghost use Rattle.std.specs.Prelude.{◌≡◌, ◌<◌, ◌+◌, ◌^◌, ℕ, List, ◌++◌, IfOk};
ghost use Rattle.jx_run.specs.Elements.{part};
ghost use Rattle.jx_run.specs.ElementsRun.{IsPartRun};
ghost use Rattle.jx_run.specs.ElementVerdict.{IsJudgedElement};
ghost use Rattle.jx_run.specs.OutcomeRun.{outcome_span};
ghost use Rattle.jx_run.specs.Tree.{span};
ghost use Rattle.jx_run.specs.Unclosed.{ends_open};

use crate::runs::outcome_run::OutcomeRun;
use crate::sequences::element_verdict::JudgedElement;
use crate::sequences::open_end::{ends_open, told};
use jx_lex::{Depth, JoinFault, Span};
use jx_summary::Summary;
use std::alloc::{AllocError, Global};
use std::marker::Model;

/// The partial result of a part of an element, or of all of it. No byte of it is a record separator.
#[derive(Drop)]
pub(crate) struct PartRun {
    outcomes: OutcomeRun,
    // whether its last byte is open, so that more of a value may follow
    open_ended: bool,
}

impl Model for PartRun {
    ghost use Rattle.jx_run.specs.ElementsRun.{PartRunValue};

    ghost Value = { PartRunValue };

    ghost view = { λ r. record { outcomes = r.outcomes; open_ended = r.open_ended } };
}

impl PartRun {
    /// Where its memory comes from.
    pub(crate) fn allocator(&self) -> Global {
        self.outcomes.allocator()
    }

    /// Whether the last byte of the joined bytes is open.
    fn open_ended_with(&self, right: &PartRun) -> bool
        requires neighbours { self.now.outcomes.end ≡ right.now.outcomes.start }
        ensures { (xs ys : List ℕ) → IsPartRun xs self.now → IsPartRun ys right.now → result ≡ ends_open (xs ++ ys) }
    {
        let span = right.outcomes.span();
        if span.start < span.end {
            right.open_ended
        } else {
            self.open_ended
        }
    }

    /// The part with its bytes so much further on. It takes no memory.
    pub(crate) fn shifted(self, by: usize) -> PartRun
        requires fits { self.outcomes.end + by < 2 ^ 64 }
        ensures start { result.outcomes.start ≡ by + self.outcomes.start }
        ensures end { result.outcomes.end ≡ by + self.outcomes.end }
        ensures depth { result.outcomes.depth ≡ self.outcomes.depth }
        ensures of { (bytes : List ℕ) → IsPartRun bytes self → IsPartRun bytes result }
    {
        PartRun {
            outcomes: self.outcomes.shifted(by),
            open_ended: self.open_ended,
        }
    }

    /// The element that has these bytes and follows a record separator. It takes no memory.
    pub(crate) fn judged(&self) -> JudgedElement
        ensures { (bytes : List ℕ) → 0 < self.now.outcomes.start → IsPartRun bytes self.now
            → IsJudgedElement self.now.outcomes.depth (part self.now.outcomes.start bytes) result }
    {
        JudgedElement {
            span: self.outcomes.span(),
            verdict: told(self.outcomes.verdict(), self.open_ended),
        }
    }

    /// The element that has the joined bytes and follows a record separator; neither part changes.
    pub(crate) fn judged_with(&self, right: &PartRun) -> Result<JudgedElement, AllocError>
        requires neighbours { self.now.outcomes.end ≡ right.now.outcomes.start }
        requires depth { self.now.outcomes.depth ≡ right.now.outcomes.depth }
        ensures { (xs ys : List ℕ) → 0 < self.now.outcomes.start → IsPartRun xs self.now → IsPartRun ys right.now
            → IfOk result (IsJudgedElement self.now.outcomes.depth (part self.now.outcomes.start (xs ++ ys))) }
    {
        let verdict = self.outcomes.verdict_with(&right.outcomes)?;
        let span = Span {
            start: self.outcomes.span().start,
            end: right.outcomes.span().end,
        };
        Ok(JudgedElement {
            span,
            verdict: told(verdict, self.open_ended_with(right)),
        })
    }
}

impl Summary for PartRun {
    ghost span = { λ r. outcome_span r.outcomes };

    ghost depth = { λ r. r.outcomes.depth };

    ghost is_of = { λ r bytes. IsPartRun bytes r };

    fn of(
        alloc: Global,
        text: &[u8],
        start: usize,
        end: usize,
        depth: Depth,
    ) -> Result<Self, AllocError> {
        let outcomes = OutcomeRun::of(alloc, text, start, end, depth)?;
        let open_ended = ends_open(&text[start..end]);
        Ok(PartRun {
            outcomes,
            open_ended,
        })
    }

    fn join(self, right: Self) -> Result<Self, JoinFault<Self>> {
        let open_ended = self.open_ended_with(&right);
        match self.outcomes.joined(&right.outcomes) {
            Ok(outcomes) => Ok(PartRun {
                outcomes,
                open_ended,
            }),
            Err(AllocError) => Err(JoinFault { left: self, right }),
        }
    }

    fn span(&self) -> Span {
        self.outcomes.span()
    }

    fn depth(&self) -> Depth {
        self.outcomes.depth()
    }
}
