// The structures of the joined bytes of two runs. Transitions that go through the same two structures share what is made of them.
ghost use Rattle.std.specs.Prelude.{◌≡◌, ◌<◌, ◌≤◌, ◌+◌, All, Some, length, slice_get, IfOk, IfSome, OnOk};
ghost use Rattle.jx_run.specs.inside.Joins.{AreMade, IsAbove, IsThere};
ghost use Rattle.jx_run.specs.OutcomeRun.{IsFormWithin};

use crate::runs::outcome_run::OutcomeRun;
use jx_reduce::Structure;
use std::alloc::{AllocError, Global};

/// The number of a structure of the left run, and of the one of the right run with which it goes on, if it does.
#[derive(Clone, Copy, PartialEq, Eq)]
pub(crate) struct Pair {
    pub(crate) left: usize,
    pub(crate) right: Option<usize>,
}

/// Structures, and what each was made of.
#[derive(Drop)]
pub(crate) struct Joins {
    pub(crate) pairs: Vec<Pair>,
    pub(crate) structures: Vec<Structure>,
}

/// Where a pair stands.
fn find(pairs: &[Pair], pair: Pair) -> Option<usize>
    ensures { IfSome result (λ number. slice_get pairs.now number ≡ Some pair) }
{
    pairs.iter().position(|other| *other == pair)
}

impl Joins {
    /// None yet.
    pub(crate) fn new(alloc: Global) -> Joins
        ensures pairs { length result.pairs.items ≡ 0 }
        ensures structures { length result.structures.items ≡ 0 }
    {
        Joins {
            pairs: Vec::new(alloc),
            structures: Vec::new(alloc),
        }
    }

    /// The number of the structure of a pair, which is made unless it was before.
    pub(crate) fn number_of(
        &mut self,
        left: &OutcomeRun,
        right: &OutcomeRun,
        pair: Pair,
    ) -> Result<usize, AllocError>
        requires there { IsThere left.now right.now pair }
        requires neighbours { left.now.end ≡ right.now.start }
        requires depth { left.now.depth ≡ right.now.depth }
        requires made { AreMade left.now right.now self.old.pairs.items self.old.structures.items }
        requires within { All (IsFormWithin left.now.depth left.now.start right.now.end) self.old.structures.items }
        ensures made { OnOk result (AreMade left.now right.now self.new.pairs.items self.new.structures.items) }
        ensures within { OnOk result (All (IsFormWithin left.now.depth left.now.start right.now.end) self.new.structures.items) }
        ensures few { OnOk result (length self.new.structures.items ≤ length self.old.structures.items + 1) }
        ensures above { OnOk result (IsAbove self.old.structures.items self.new.structures.items) }
        ensures number { IfOk result (λ number. slice_get self.new.pairs.items number ≡ Some pair) }
        ensures last { IfOk result (λ number. length self.old.structures.items < length self.new.structures.items → length self.new.structures.items ≡ number + 1) }
    {
        if let Some(number) = find(&self.pairs, pair) {
            return Ok(number);
        }
        self.add(left, right, pair)
    }

    /// The number of the structure of a pair, which is made.
    // Apart, since a structure is large: a pair that is known then costs nothing.
    #[inline(never)]
    fn add(
        &mut self,
        left: &OutcomeRun,
        right: &OutcomeRun,
        pair: Pair,
    ) -> Result<usize, AllocError>
        requires there { IsThere left.now right.now pair }
        requires neighbours { left.now.end ≡ right.now.start }
        requires depth { left.now.depth ≡ right.now.depth }
        requires made { AreMade left.now right.now self.old.pairs.items self.old.structures.items }
        requires within { All (IsFormWithin left.now.depth left.now.start right.now.end) self.old.structures.items }
        ensures made { OnOk result (AreMade left.now right.now self.new.pairs.items self.new.structures.items) }
        ensures within { OnOk result (All (IsFormWithin left.now.depth left.now.start right.now.end) self.new.structures.items) }
        ensures few { OnOk result (length self.new.structures.items ≤ length self.old.structures.items + 1) }
        ensures above { OnOk result (IsAbove self.old.structures.items self.new.structures.items) }
        ensures number { IfOk result (λ number. slice_get self.new.pairs.items number ≡ Some pair) }
        ensures last { IfOk result (λ number. length self.old.structures.items < length self.new.structures.items → length self.new.structures.items ≡ number + 1) }
    {
        self.structures.push(left.extended(pair, right)?)?;
        self.pairs.push(pair)?;
        Ok(self.pairs.len() - 1)
    }
}
