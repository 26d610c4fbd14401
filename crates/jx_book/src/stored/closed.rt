ghost use Rattle.std.specs.Prelude.{◌≡◌};
ghost use Rattle.jx_book.specs.Runs.{IsApart, spans_of};
ghost use Rattle.jx_book.specs.Gaps.{AreGaps};

use crate::stored::gaps::Gaps;
use crate::stored::held::Held;
use jx_summary::{Span, Summary};
use std::marker::Model;

/// The runs of a finished accumulator, in rising order, no two overlapping or touching.
#[derive(Drop)]
pub struct Closed<'a, S: Summary> {
    runs: Vec<Held<'a, S>>,
}

impl<'a, S: Summary> Model for Closed<'a, S> {
    ghost use Rattle.std.specs.Prelude.{List};
    ghost use Rattle.jx_book.specs.Runs.{HeldValue, IsApart};

    ghost Value = { List (HeldValue S) };

    ghost view = { λ c. c.runs.items };

    ghost invariant = { λ c. IsApart c.runs.items };
}

impl<'a, S: Summary> Closed<'a, S> {
    /// The runs of a finished accumulator, given in rising order, no two overlapping or touching.
    pub(crate) fn new(runs: Vec<Held<'a, S>>) -> Closed<'a, S>
        requires { IsApart runs.items }
        ensures { result ≡ runs.entry.items }
    {
        Closed { runs }
    }

    /// The runs.
    pub fn runs(&self) -> &[Held<'a, S>]
        ensures runs { result.now ≡ self.now }
        ensures apart { IsApart self.now }
    {
        self.runs.as_slice()
    }

    /// The runs themselves.
    pub fn into_runs(self) -> Vec<Held<'a, S>>
        ensures runs { result.items ≡ self.entry }
        ensures apart { IsApart self.entry }
    {
        let Closed { runs } = self;
        runs
    }

    /// The gaps of a span: the parts of it that no run covers, in order. It takes no memory.
    pub fn gaps(&self, span: Span) -> Gaps<'_, 'a, S>
        ensures { AreGaps (spans_of self.now) span result }
    {
        Gaps::new(self.runs.as_slice(), span)
    }
}
