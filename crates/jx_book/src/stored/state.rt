ghost use Rattle.std.specs.Prelude.{◌≡◌, ℕ, ◌<◌, ◌≤◌, [], length, Some, slice_get, slice_index_or};
ghost use Rattle.jx_book.specs.Runs.{StateValue, IsLawful};
ghost use Rattle.jx_book.specs.Puts.{IsPut, IsPosition, IsFree, IsNeighbour, NoOverlap};

use crate::stored::held::Held;
use jx_summary::{Span, Summary};
use std::alloc::{AllocFailed, Global};
use std::marker::Model;

/// The answer to a run that was put. The first that fits is given.
#[derive(Drop)]
pub enum Put<'a, S: Summary> {
    /// A stored run has a byte of it: the run.
    Overlaps(Held<'a, S>),
    /// In place of `Touches` or `Stored`, since a total would pass the greatest `u128`: the run.
    Full(Held<'a, S>),
    /// The run, and a neighbour that was taken out, the left one if both sides touch.
    Touches(Held<'a, S>, Held<'a, S>),
    /// In place of `Stored`, when out of memory: the run.
    Memory(Held<'a, S>),
    /// The run stands among the others now.
    Stored,
}

/// Where a run belongs among the stored ones.
pub(crate) enum Position {
    /// It overlaps one.
    Overlapping,
    /// The run with this number ends where it begins.
    Left(usize),
    /// The run with this number begins where it ends, and none touches it on the left.
    Right(usize),
    /// It touches none, and is before the run with this number.
    Free(usize),
}

/// Runs in rising order, no two overlapping or touching, and how many bytes were put and taken out.
#[derive(Drop)]
pub struct BookState<'a, S: Summary> {
    runs: Vec<Held<'a, S>>,
    put: u128,
    taken: u128,
}

impl<'a, S: Summary> Model for BookState<'a, S> {
    ghost use Rattle.jx_book.specs.Runs.{StateValue, IsLawful, state};

    ghost Value = { StateValue S };

    ghost view = { λ s. state s.runs.items s.put s.taken };

    ghost invariant = { λ s. IsLawful (state s.runs.items s.put s.taken) };
}

impl<'a, S: Summary> BookState<'a, S> {
    /// The state with no runs, and nothing put or taken. It takes no memory.
    pub fn new(alloc: Global) -> BookState<'a, S>
        ensures runs { result.runs ≡ [] }
        ensures totals { (result.put ≡ 0) × (result.taken ≡ 0) }
    {
        BookState {
            runs: Vec::new(alloc),
            put: 0,
            taken: 0,
        }
    }

    /// The stored runs in rising order. No two overlap or touch, and their lengths are the bytes put minus those taken.
    pub fn runs(&self) -> &[Held<'a, S>]
        ensures runs { result.now ≡ self.now.runs }
        ensures lawful { IsLawful self.now }
    {
        self.runs.as_slice()
    }

    /// The runs themselves.
    pub(crate) fn into_runs(self) -> Vec<Held<'a, S>>
        ensures runs { result.items ≡ self.entry.runs }
        ensures lawful { IsLawful self.entry }
    {
        let BookState {
            runs,
            put: _,
            taken: _,
        } = self;
        runs
    }

    /// The number of bytes that were put.
    pub fn total_put(&self) -> u128
        ensures { result ≡ self.now.put }
    {
        self.put
    }

    /// The number of bytes that were taken out.
    pub fn total_taken(&self) -> u128
        ensures { result ≡ self.now.taken }
    {
        self.taken
    }

    /// The number of the first run that ends at this offset or after it, found by halving.
    fn first_from(&self, start: usize) -> usize
        ensures bound { result ≤ length self.now.runs }
        ensures below { (k : ℕ) (d : _) → k < result → (slice_index_or self.now.runs k d).span.end < start }
        ensures here { (d : _) → result < length self.now.runs → start ≤ (slice_index_or self.now.runs result d).span.end }
    {
        let mut low = 0;
        let mut high = self.runs.len();
        while low < high {
            let middle = low + (high - low) / 2;
            if self.runs[middle].span().end < start {
                low = middle + 1;
            } else {
                high = middle;
            }
        }
        low
    }

    /// Where a run would go.
    fn position(&self, span: Span) -> Position
        requires { span.start < span.end }
        ensures { IsPosition self.now.runs span result }
    {
        let at = self.first_from(span.start);
        if at == self.runs.len() {
            return Position::Free(at);
        }
        let first = self.runs[at].span();
        if first.end == span.start {
            self.left_position(at, span)
        } else if first.start < span.end {
            Position::Overlapping
        } else if first.start == span.end {
            Position::Right(at)
        } else {
            Position::Free(at)
        }
    }

    /// Where it would go, with a neighbour on the left.
    fn left_position(&self, at: usize, span: Span) -> Position
        requires span { span.start < span.end }
        requires bound { at < length self.now.runs }
        requires below { (k : ℕ) (d : _) → k < at → (slice_index_or self.now.runs k d).span.end < span.start }
        requires here { (d : _) → (slice_index_or self.now.runs at d).span.end ≡ span.start }
        ensures { IsPosition self.now.runs span result }
    {
        if self.runs.len() - at == 1 {
            return Position::Left(at);
        }
        let next = self.runs[at + 1].span();
        if next.start < span.end {
            Position::Overlapping
        } else {
            Position::Left(at)
        }
    }

    /// Stores a run that touches no stored one; else takes a neighbour out and hands over both. `Put` has every answer.
    /// Only `Stored` and `Touches` change the state.
    pub fn put(&mut self, run: Held<'a, S>) -> Put<'a, S>
        requires { run.span.start < run.span.end }
        ensures { IsPut self.old run.entry result self.new }
    {
        match self.position(run.span()) {
            Position::Overlapping => Put::Overlaps(run),
            Position::Left(at) => self.take(at, run),
            Position::Right(at) => self.take(at, run),
            Position::Free(at) => self.store(at, run),
        }
    }

    /// Takes out a neighbour.
    fn take(&mut self, at: usize, run: Held<'a, S>) -> Put<'a, S>
        requires bound { at < length self.old.runs }
        requires neighbour { (n : _) → slice_get self.old.runs at ≡ Some n → IsNeighbour self.old.runs run.span at n }
        requires no_overlap { NoOverlap self.old.runs run.span }
        ensures { IsPut self.old run.entry result self.new }
    {
        let span = self.runs[at].span();
        let Some(taken) = self.taken.checked_add((span.end - span.start) as u128) else {
            return Put::Full(run);
        };
        self.taken = taken;
        let neighbour = self.runs.remove(at);
        Put::Touches(run, neighbour)
    }

    /// Stores a run that stands apart.
    fn store(&mut self, at: usize, run: Held<'a, S>) -> Put<'a, S>
        requires filled { run.span.start < run.span.end }
        requires free { IsFree self.old.runs run.span at }
        ensures { IsPut self.old run.entry result self.new }
    {
        let span = run.span();
        let Some(put) = self.put.checked_add((span.end - span.start) as u128) else {
            return Put::Full(run);
        };
        match self.runs.insert(at, run) {
            Ok(()) => {
                self.put = put;
                Put::Stored
            }
            Err(AllocFailed { value }) => Put::Memory(value),
        }
    }
}
