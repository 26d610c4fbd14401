ghost use Rattle.std.specs.Prelude.{◌≡◌, ◌≤◌, length, drop};
ghost use Rattle.std.specs.Iterator.{YieldsFirst, item_count};
ghost use Rattle.jx_book.specs.Runs.{spans_of};
ghost use Rattle.jx_book.specs.Gaps.{gaps_from};

use crate::stored::held::Held;
use jx_summary::{Span, Summary};
use std::marker::Model;

/// The parts of a span that no run covers, in order.
#[derive(Drop)]
pub struct Gaps<'r, 'a, S: Summary> {
    runs: &'r [Held<'a, S>],
    // The number of the first run after the next gap.
    number: usize,
    // Where the next gap begins.
    start: usize,
    end: usize,
}

impl<'r, 'a, S: Summary> Model for Gaps<'r, 'a, S> {
    ghost use Rattle.std.specs.Prelude.{List, drop, length, ◌≤◌};
    ghost use Rattle.jx_summary.specs.declared.span.Span.{Span};
    ghost use Rattle.jx_book.specs.Runs.{spans_of};
    ghost use Rattle.jx_book.specs.Gaps.{gaps_from};

    ghost Value = { List Span };

    ghost view = { λ g. gaps_from g.start (spans_of (drop g.number g.runs.now)) g.end };

    ghost invariant = { λ g. g.number ≤ length g.runs.now };
}

impl<'r, 'a, S: Summary> Gaps<'r, 'a, S> {
    /// All parts of a span that none of these runs covers.
    pub(crate) fn new(runs: &'r [Held<'a, S>], span: Span) -> Gaps<'r, 'a, S>
        ensures { result ≡ gaps_from span.start (spans_of runs.entry.now) span.end }
    {
        Gaps {
            runs,
            number: 0,
            start: span.start,
            end: span.end,
        }
    }
}

impl<'r, 'a, S: Summary> Iterator for Gaps<'r, 'a, S> {
    type Item = Span;

    ghost next_gives = { YieldsFirst (λ gaps. gaps) };

    ghost remaining = { item_count (λ gaps. gaps) };

    fn next(&mut self) -> Option<Span> {
        let (gap, number, start) = first_gap(self.runs, self.number, self.start, self.end);
        self.number = number;
        self.start = start;
        gap
    }
}

/// The first gap from an offset on, with this run and later ones after it; then the number and the offset from which
/// the other gaps are found.
fn first_gap<S: Summary>(
    runs: &[Held<'_, S>],
    number: usize,
    start: usize,
    end: usize,
) -> (Option<Span>, usize, usize)
    requires { number ≤ length runs.now }
    ensures first { YieldsFirst (λ gaps. gaps) (gaps_from start (spans_of (drop number runs.now)) end) result.0 (gaps_from result.2 (spans_of (drop result.1 runs.now)) end) }
    ensures bound { result.1 ≤ length runs.now }
{
    let mut at = start;
    let mut next = number;
    while next < runs.len() {
        let span = runs[next].span();
        let from = at;
        let to = span.start.min(end);
        at = at.max(span.end);
        next += 1;
        if from < to {
            return (
                Some(Span {
                    start: from,
                    end: to,
                }),
                next,
                at,
            );
        }
    }
    if at < end {
        (Some(Span { start: at, end }), next, end)
    } else {
        (None, next, at)
    }
}
