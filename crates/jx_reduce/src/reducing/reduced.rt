// The form of tokens from one expectation, for every list of open containers at entry.

ghost use Rattle.std.specs.Prelude.{◌≡◌, ◌≤◌, ◌+◌, ◌++◌, ◌↔◌, [], OnOk, IfOk, IfSome, IsSome, IsTrue, length, reverse, slice_get};
ghost use Rattle.jx_reduce.specs.Entries.{expect_at};
ghost use Rattle.jx_reduce.specs.Form.{levels_of, exit_at};
ghost use Rattle.jx_reduce.specs.Join.{joined};
ghost use Rattle.jx_reduce.specs.Marks.{of_marks, of_nothing};
ghost use Rattle.jx_reduce.specs.Fits.{Fits, GoesOn};
ghost use Rattle.jx_reduce.specs.Levels.{borrowed_form, form_of, HasRoomOf};
ghost use Rattle.jx_reduce.specs.Outcome.{reading_of};
ghost use Rattle.jx_reduce.specs.Read.{top, went};
ghost use Rattle.jx_reduce.specs.Offsets.{OffsetsIn};
ghost use Rattle.jx_reduce.specs.inside.Checked.{IsIn};
ghost use Rattle.jx_reduce.specs.inside.Shifted.{shifted_form};
ghost use Rattle.jx_reduce.specs.Whole.{whole_of};

use crate::forms::act::top_of;
use crate::forms::checks::Bound;
use crate::forms::entry::Entry;
use crate::forms::form_ref::FormRef;
use crate::forms::level::Level;
use crate::forms::levels::Levels;
use crate::table::expect::Expect;
use crate::table::holder::Holder;
use crate::table::outcome::Outcome;
use crate::table::whole::Whole;
use jx_lex::{Depth, Mark};
use std::alloc::{AllocError, Global};

/// The form of a list of tokens from one expectation, for every list of open containers at entry that is no longer than
/// the depth. Level 0 is in the innermost container at entry. Each level but the last ends with the close of its
/// container, and the next is in the container around it.
///
/// Levels, open containers, exits and heights are the parts that `act` reads its answer off. Only that answer is
/// settled by the tokens. Two forms of the same tokens may show different parts where no list of open containers within
/// the depth shows the difference.
#[derive(Drop)]
pub struct Reduced {
    depth: Depth,
    levels: Levels,
    ghost fits: { Fits depth (form_of levels) },
    ghost goes_on: { GoesOn (form_of levels) },
}

impl Reduced {
    ghost use Rattle.jx_reduce.specs.Reduced.{depth_of, form_in, answer_of};
    ghost use Rattle.jx_reduce.specs.inside.Structures.{tail_behind};

    /// The form of no tokens.
    pub(crate) fn new(alloc: Global, entry: Entry, depth: Depth) -> Reduced
        ensures depth { depth_of result ≡ depth }
        ensures form { form_in result ≡ of_nothing entry }
    {
        Reduced {
            depth,
            levels: Levels::new(alloc, entry),
        }
    }

    /// The form of these tokens, read from this entry.
    pub(crate) fn of(
        alloc: Global,
        entry: Entry,
        marks: &[Mark],
        depth: Depth,
    ) -> Result<Reduced, AllocError>
        ensures depth { IfOk result (λ r. depth_of r ≡ depth) }
        ensures form { IfOk result (λ r. form_in r ≡ of_marks depth (of_nothing entry) marks.now) }
    {
        let levels = Levels::of(alloc, entry, marks, depth.containers() as usize)?;
        Ok(Reduced { depth, levels })
    }

    /// The form that these levels are.
    pub(crate) fn with_levels(depth: Depth, levels: Levels) -> Reduced
        requires fits { Fits depth (form_of levels) }
        requires goes_on { GoesOn (form_of levels) }
        ensures depth { depth_of result ≡ depth }
        ensures form { form_in result ≡ form_of levels }
    {
        Reduced { depth, levels }
    }

    /// The levels that the form is.
    pub(crate) fn into_levels(self) -> Levels
        ensures { form_of result ≡ form_in self }
    {
        let Reduced { levels, .. } = self;
        levels
    }

    /// Reads these tokens too, each of them once.
    pub(crate) fn read_on(self, marks: &[Mark]) -> Result<Reduced, AllocError>
        ensures depth { IfOk result (λ r. depth_of r ≡ depth_of self) }
        ensures form { IfOk result (λ r. form_in r ≡ of_marks (depth_of self) (form_in self) marks.now) }
    {
        let Reduced { depth, levels } = self;
        let levels = levels.read_on(marks, depth.containers() as usize)?;
        Ok(Reduced { depth, levels })
    }

    /// Extends the form by the tail, where the form has an exit.
    pub(crate) fn extend(&mut self, tail: &Reduced) -> Result<(), AllocError>
        requires { depth_of self.old ≡ depth_of tail.now }
        ensures depth { depth_of self.new ≡ depth_of self.old }
        ensures form { OnOk result (form_in self.new ≡ tail_behind (depth_of self.old) (form_in self.old) (form_in tail.now) (form_in self.old).exit) }
    {
        if self.exit().is_some() {
            self.reserve(tail)?;
            self.extend_reserved(tail);
        }
        Ok(())
    }

    /// Where its memory comes from.
    pub(crate) fn allocator(&self) -> Global {
        *self.levels.opens.allocator()
    }

    /// The number of containers that may stand open at once.
    pub fn depth(&self) -> Depth
        ensures { result ≡ depth_of self.now }
    {
        self.depth
    }

    /// The number of levels.
    pub fn level_count(&self) -> usize
        ensures count { result ≡ length (levels_of (form_in self.now)) }
        ensures within { result ≤ depth_of self.now + 1 }
    {
        self.levels.ended.len() + 1
    }

    /// The level at this index, with the offset of the first fault for each holder.
    pub fn level(&self, index: usize) -> Option<Level>
        ensures { result ≡ slice_get (levels_of (form_in self.now)) index }
    {
        match self.levels.ended.get(index) {
            Some(ended) => Some(ended.level()),
            None if index == self.levels.ended.len() => Some(self.levels.last),
            None => None,
        }
    }

    /// The containers that were opened in the last level and are still open, outermost first. There are none where
    /// nothing is kept after a fault or after an open that the depth does not allow.
    pub fn opens(&self) -> &[Holder]
        ensures opens { result.now ≡ reverse (form_in self.now).opens }
        ensures within { length result.now ≤ depth_of self.now }
    {
        self.levels.opens.as_slice()
    }

    /// The expectation after the tokens, where this is the holder of the last level. None where that holder has
    /// faulted, or where one container too many was opened for every list of open containers.
    pub fn exit_of(&self, holder: Holder) -> Option<Expect>
        ensures { result ≡ exit_at (form_in self.now) holder }
    {
        match self.levels.last.fault(holder) {
            Some(_) => None,
            None => match self.levels.exit {
                Some(entry) => {
                    Some(entry.at(self.levels.opens.last().copied().unwrap_or(holder)))
                }
                None => None,
            },
        }
    }

    /// The offsets at which one container more than ever before in these tokens was open above the entry: for 1, 2, 3
    /// and so on. An offset that is not below the fault which a list of open containers meets says nothing of it.
    pub fn heights(&self) -> &[usize]
        ensures heights { result.now ≡ (form_in self.now).heights }
        ensures within { length result.now ≤ depth_of self.now + 1 }
    {
        self.levels.heights.as_slice()
    }

    /// The outcome of the tokens over these open containers, outermost first and none of them `Bottom`. The earlier of
    /// two offsets is answered, and `Stopped` where they are equal. It fails only when out of memory.
    pub fn act(&self, holders: &[Holder]) -> Result<Outcome, AllocError>
        requires { length holders.now ≤ depth_of self.now }
        ensures { IfOk result (λ o. reading_of o ≡ answer_of self.now (reverse holders.now)) }
    {
        self.levels.act(self.depth.containers() as usize, holders)
    }

    /// The entry after the tokens, for all holders that have not faulted.
    pub(crate) fn exit(&self) -> Option<Entry>
        ensures { result ≡ (form_in self.now).exit }
    {
        self.levels.exit
    }

    /// Makes room for the right.
    pub(crate) fn reserve(&mut self, right: &Reduced) -> Result<(), AllocError>
        ensures depth { depth_of self.new ≡ depth_of self.old }
        ensures same { form_in self.new ≡ form_in self.old }
        ensures ok { OnOk result (HasRoomOf self.new.levels (form_in right.now)) }
    {
        self.levels.ended.reserve(right.levels.ended.len())?;
        self.levels.opens.reserve(right.levels.opens.len())?;
        self.levels.heights.reserve(right.levels.heights.len())?;
        Ok(())
    }

    /// Extends the form by the right. There is room for it, so that it takes no memory.
    pub(crate) fn extend_reserved(&mut self, right: &Reduced)
        requires room { HasRoomOf self.old.levels (form_in right.now) }
        requires depth { depth_of self.old ≡ depth_of right.now }
        ensures depth { depth_of self.new ≡ depth_of self.old }
        ensures form { form_in self.new ≡ joined (depth_of self.old) (form_in self.old) (form_in right.now) }
    {
        match self
            .levels
            .extend(self.depth.containers() as usize, right.levels.borrowed())
        {
            Ok(()) => {}
            Err(AllocError) => unreachable!(),
        }
    }

    /// The outcome that `act` answers on the empty list, with the number of open containers in place of their list. It
    /// takes no memory.
    pub fn whole(&self) -> Whole
        ensures { result ≡ whole_of (answer_of self.now []) }
    {
        self.whole_over(&[])
    }

    /// The outcome that `act` answers, with the number of open containers in place of their list. It takes no memory.
    pub(crate) fn whole_over(&self, holders: &[Holder]) -> Whole
        requires { length holders.now ≤ depth_of self.now }
        ensures { result ≡ whole_of (answer_of self.now (reverse holders.now)) }
    {
        let depth = self.depth.containers() as usize;
        let deep = self.levels.height_at(depth - holders.len());
        match self.levels.reach(holders) {
            Err(at) => match deep {
                Some(height) if height < at => Whole::TooDeep(height),
                _ => Whole::Stopped(at),
            },
            Ok(left) => match deep {
                Some(height) => Whole::TooDeep(height),
                None => match self.levels.exit {
                    Some(entry) => self.went(entry, &holders[..left]),
                    None => unreachable!(),
                },
            },
        }
    }

    /// Where the tokens lead from these containers in the last level.
    fn went(&self, entry: Entry, left: &[Holder]) -> Whole
        requires { length left.now ≤ depth_of self.now }
        ensures { result ≡ whole_of (went (expect_at entry (top ((form_in self.now).opens ++ reverse left.now))) ((form_in self.now).opens ++ reverse left.now)) }
    {
        let top = match self.levels.opens.last() {
            Some(holder) => *holder,
            None => top_of(left),
        };
        Whole::Went {
            expect: entry.at(top),
            open: left.len() + self.levels.opens.len(),
        }
    }

    /// A value equal to this one.
    pub(crate) fn copy(&self) -> Result<Reduced, AllocError>
        ensures depth { IfOk result (λ r. depth_of r ≡ depth_of self.now) }
        ensures same { IfOk result (λ r. form_in r ≡ form_in self.now) }
    {
        let alloc = self.allocator();
        let ended = Vec::from_slice(alloc, &self.levels.ended)?;
        let opens = Vec::from_slice(alloc, &self.levels.opens)?;
        let heights = Vec::from_slice(alloc, &self.levels.heights)?;
        Ok(Reduced {
            depth: self.depth,
            levels: Levels {
                ended,
                last: self.levels.last,
                opens,
                exit: self.levels.exit,
                heights,
            },
        })
    }

    /// The form of these levels, where the depth allows them and they go on for some holder.
    pub(crate) fn of_levels(depth: Depth, levels: Levels) -> Option<Reduced>
        ensures depth { IfSome result (λ r. depth_of r ≡ depth) }
        ensures form { IfSome result (λ r. form_in r ≡ form_of levels) }
        ensures sound { IsSome result ↔ Fits depth (form_of levels) × GoesOn (form_of levels) }
    {
        if !levels.fit(depth.containers() as usize) {
            return None;
        }
        Some(Reduced { depth, levels })
    }

    /// The form, borrowed.
    pub(crate) fn borrowed(&self) -> FormRef<'_>
        ensures { borrowed_form result ≡ form_in self.now }
    {
        self.levels.borrowed()
    }

    /// Whether each offset that is kept may be.
    pub(crate) fn lies_in(&self, bound: Bound) -> bool
        ensures { IsTrue result ↔ OffsetsIn (IsIn bound) (form_in self.now) }
    {
        self.levels.lie_in(bound)
    }

    /// Moves the form so many bytes further on.
    pub(crate) fn shift(&mut self, by: usize)
        ensures depth { depth_of self.new ≡ depth_of self.old }
        ensures form { form_in self.new ≡ shifted_form by (form_in self.old) }
    {
        self.levels.shift(by);
    }
}
