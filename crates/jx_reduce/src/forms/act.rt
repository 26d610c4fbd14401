// The answer of a reduced form for a list of open containers.

ghost use Rattle.std.specs.Prelude.{◌≡◌, ◌≤◌, ◌+◌, ◌++◌, List, IfOk, MatchResult, length, reverse, take, slice_get};
ghost use Rattle.jx_reduce.specs.Read.{top};
ghost use Rattle.jx_reduce.specs.Form.{Plain, halt, leading, acts};
ghost use Rattle.jx_reduce.specs.Fits.{Fits};
ghost use Rattle.jx_reduce.specs.Levels.{form_of};
ghost use Rattle.jx_reduce.specs.Outcome.{reading_of};
ghost use Rattle.jx_reduce.specs.declared.table.holder.Holder.{Holder};

use crate::forms::levels::Levels;
use crate::table::holder::Holder;
use crate::table::outcome::Outcome;
use std::alloc::AllocError;

/// The innermost of these containers, which is the last, or the bottom where there are none.
pub(crate) fn top_of(holders: &[Holder]) -> Holder
    ensures { result ≡ top (reverse holders.now) }
{
    match holders.last() {
        Some(holder) => *holder,
        None => Holder::Bottom,
    }
}

impl Levels {
    /// How many of these containers are left in the last level, or the fault that ends the reading.
    pub(crate) fn reach(&self, holders: &[Holder]) -> Result<usize, usize>
        ensures left { IfOk result (λ left. left + length self.now.ended.items ≡ length holders.now) }
        ensures reach { MatchResult result
            (λ left. (k : List Holder → Plain) → leading (form_of self.now) k (reverse holders.now) ≡ k (reverse self.now.opens.items ++ reverse (take left holders.now)))
            (λ at. (k : List Holder → Plain) → leading (form_of self.now) k (reverse holders.now) ≡ halt at) }
    {
        let mut left = holders.len();
        for level in &self.ended {
            match level.fault(top_of(&holders[..left])) {
                Some(at) => return Err(at),
                None => left -= 1,
            }
        }
        match self.last.fault(top_of(&holders[..left])) {
            Some(at) => Err(at),
            None => Ok(left),
        }
    }

    /// The offset at this index of the heights, if there are so many.
    pub(crate) fn height_at(&self, index: usize) -> Option<usize>
        ensures { result ≡ slice_get self.now.heights.items index }
    {
        self.heights.get(index).copied()
    }

    /// The outcome of the reading in these open containers: where it goes on, its fault, or where it is too deep.
    pub(crate) fn act(&self, depth: usize, holders: &[Holder]) -> Result<Outcome, AllocError>
        requires depth { length holders.now ≤ depth }
        requires fits { Fits depth (form_of self.now) }
        ensures { IfOk result (λ o. reading_of o ≡ acts depth (form_of self.now) (reverse holders.now)) }
    {
        let deep = self.height_at(depth - holders.len());
        match self.reach(holders) {
            Err(at) => match deep {
                Some(height) if height < at => Ok(Outcome::TooDeep(height)),
                _ => Ok(Outcome::Stopped(at)),
            },
            Ok(left) => match deep {
                Some(height) => Ok(Outcome::TooDeep(height)),
                None => match self.exit {
                    Some(entry) => {
                        let mut open = Vec::from_slice(*self.opens.allocator(), &holders[..left])?;
                        open.extend_from_slice(&self.opens)?;
                        let expect = entry.at(top_of(&open));
                        Ok(Outcome::Went {
                            expect,
                            holders: open,
                        })
                    }
                    None => unreachable!(),
                },
            },
        }
    }
}
