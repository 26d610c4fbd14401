// Levels that are not known to begin in any container.

ghost use Rattle.std.specs.Prelude.{◌≡◌, ◌≤◌, ◌<◌, ◌+◌, ◌^◌, ℕ, None, OnOk, IfOk, IsOk, is_some, length, reverse, take, true, false, vec_len, vec_capacity};
ghost use Rattle.jx_reduce.specs.Join.{halted, joined, joined_heights};
ghost use Rattle.jx_reduce.specs.Marks.{pushed, of_change, of_marks, of_nothing};
ghost use Rattle.jx_reduce.specs.Table.{same, added, removed};
ghost use Rattle.jx_reduce.specs.Fits.{Fits};
ghost use Rattle.jx_reduce.specs.inside.Quiet.{AreLimits, GoesOn, IsPassed};
ghost use Rattle.jx_reduce.specs.inside.Shifted.{shifted_form};
ghost use Rattle.jx_reduce.specs.Levels.{form_of, borrowed_form, head_of, taken_in, ended_in, IsSameBut, HasRoom};

use crate::forms::ended_level::EndedLevel;
use crate::forms::entry::Entry;
use crate::forms::form_ref::FormRef;
use crate::forms::level::Level;
use crate::forms::quiet::{self, Limits};
use crate::forms::shift::{Shift, shift_all};
use crate::table::holder::Holder;
use jx_lex::{Mark, MarkKind};
use std::alloc::{AllocError, Global};

/// A reduced form: the ended levels and the last one, what is open above it, and the exit. Also the offsets at which
/// one container more than ever was open.
#[derive(Drop)]
pub(crate) struct Levels {
    pub ended: Vec<EndedLevel>,
    pub last: Level,
    pub opens: Vec<Holder>,
    pub exit: Option<Entry>,
    pub heights: Vec<usize>,
}

/// The innermost of these containers, which is the last, if there is one.
fn innermost(opens: &[Holder]) -> Option<Holder>
    ensures { result ≡ head_of (reverse opens.now) }
{
    opens.last().copied()
}

impl Levels {
    /// Moves the form so many bytes further on.
    pub fn shift(&mut self, by: usize)
        ensures { form_of self.new ≡ shifted_form by (form_of self.old) }
    {
        shift_all(&mut self.ended, by);
        self.last = self.last.shifted(by);
        shift_all(&mut self.heights, by);
    }

    /// Ends the reading for every holder of the last level, at these faults.
    fn halt(&mut self, faults: Level)
        ensures { form_of self.new ≡ halted (form_of self.old) faults }
    {
        self.last = faults;
        self.opens.clear();
        self.exit = None;
    }

    /// Extends the heights by those of the right that are greater than any before.
    fn raise(&mut self, depth: usize, heights: &[usize]) -> Result<(), AllocError>
        requires depth { depth < 2 ^ 32 }
        requires few { length self.old.heights.items ≤ depth + 1 }
        requires levels { length self.old.ended.items ≤ depth }
        requires risen { length self.old.opens.items ≤ length self.old.ended.items + length self.old.heights.items }
        ensures ok { OnOk result (self.new.heights.items ≡ joined_heights depth (form_of self.old) heights.now) }
        ensures rest { IsSameBut self.old self.new }
        ensures succeeds { vec_len self.old.heights + length heights.now ≤ vec_capacity self.old.heights → IsOk result }
    {
        let known = self.heights.len() + self.ended.len() - self.opens.len();
        let room = depth + 1 - self.heights.len();
        if known < heights.len() {
            let new = &heights[known..];
            let count = room.min(new.len());
            self.heights.extend_from_slice(&new[..count])?;
        }
        Ok(())
    }

    /// Takes in the levels of the right that end, and then its last level.
    fn take_in(&mut self, depth: usize, right: FormRef<'_>) -> Result<(), AllocError>
        requires depth { depth < 2 ^ 32 }
        requires levels { length self.old.ended.items ≤ depth }
        ensures ok { OnOk result (form_of self.new ≡ taken_in depth (form_of self.old) (borrowed_form right.entry)) }
        ensures succeeds { vec_len self.old.ended + length right.entry.ended.now ≤ vec_capacity self.old.ended
            → vec_len self.old.opens + length right.entry.opens.now ≤ vec_capacity self.old.opens
            → IsOk result }
    {
        for level in right.ended {
            match innermost(&self.opens) {
                Some(top) => match level.fault(top) {
                    Some(at) => {
                        let faults = self.last.filled(at);
                        self.halt(faults);
                        return Ok(());
                    }
                    None => {
                        let _ = self.opens.pop();
                    }
                },
                None => {
                    let closed = self.last.closed(*level);
                    if self.ended.len() < depth && !closed.is_all() {
                        self.ended.push(closed)?;
                        self.last = Level::NONE;
                    } else {
                        self.halt(closed.filled());
                        return Ok(());
                    }
                }
            }
        }
        self.finish(depth, right)
    }

    /// Takes in the last level of the right, where all levels before it have ended.
    fn finish(&mut self, depth: usize, right: FormRef<'_>) -> Result<(), AllocError>
        requires depth { depth < 2 ^ 32 }
        ensures ok { OnOk result (form_of self.new ≡ ended_in depth (form_of self.old) (borrowed_form right.entry)) }
        ensures succeeds { vec_len self.old.opens + length right.entry.opens.now ≤ vec_capacity self.old.opens → IsOk result }
    {
        match innermost(&self.opens) {
            Some(top) => {
                if let Some(at) = right.last.fault(top) {
                    let faults = self.last.filled(at);
                    self.halt(faults);
                    return Ok(());
                }
            }
            None => {
                self.last = self.last.merged(right.last);
            }
        }
        if self.last.is_all() || depth < self.opens.len() + right.opens.len() {
            self.opens.clear();
            self.exit = None;
        } else {
            self.opens.extend_from_slice(right.opens)?;
            self.exit = right.exit;
        }
        Ok(())
    }

    /// Extends these levels by the right.
    pub fn extend(&mut self, depth: usize, right: FormRef<'_>) -> Result<(), AllocError>
        requires depth { depth < 2 ^ 32 }
        requires fits { Fits depth (form_of self.old) }
        ensures ok { OnOk result (form_of self.new ≡ joined depth (form_of self.old) (borrowed_form right.entry)) }
        ensures succeeds { HasRoom self.old right.entry → IsOk result }
    {
        self.raise(depth, right.heights)?;
        self.take_in(depth, right)
    }

    /// The form, borrowed.
    pub fn borrowed(&self) -> FormRef<'_>
        ensures { borrowed_form result ≡ form_of self.now }
    {
        FormRef {
            ended: &self.ended,
            last: self.last,
            opens: &self.opens,
            exit: self.exit,
            heights: &self.heights,
        }
    }

    /// Pushes a token that opens a container.
    fn open(
        &mut self,
        depth: usize,
        entry: Entry,
        mark: Mark,
        holder: Holder,
    ) -> Result<(), AllocError>
        requires depth { depth < 2 ^ 32 }
        requires fits { Fits depth (form_of self.old) }
        ensures ok { OnOk result (form_of self.new ≡ joined depth (form_of self.old) (of_change (added holder) entry mark)) }
    {
        let right = FormRef {
            ended: &[],
            last: entry.faults_at(mark),
            opens: &[holder],
            exit: Some(entry.leads_to(mark.kind)),
            heights: &[mark.at],
        };
        self.extend(depth, right)
    }

    /// Pushes a token that closes a container.
    fn close(&mut self, depth: usize, entry: Entry, mark: Mark) -> Result<(), AllocError>
        requires depth { depth < 2 ^ 32 }
        requires fits { Fits depth (form_of self.old) }
        ensures ok { OnOk result (form_of self.new ≡ joined depth (form_of self.old) (of_change removed entry mark)) }
    {
        let right = FormRef {
            ended: &[entry.end_at(mark)],
            last: Level::NONE,
            opens: &[],
            exit: Some(entry.leads_to(mark.kind)),
            heights: &[],
        };
        self.extend(depth, right)
    }

    /// Pushes a token that leaves the open containers as they are.
    fn pass(&mut self, depth: usize, entry: Entry, mark: Mark) -> Result<(), AllocError>
        requires depth { depth < 2 ^ 32 }
        requires fits { Fits depth (form_of self.old) }
        ensures ok { OnOk result (form_of self.new ≡ joined depth (form_of self.old) (of_change same entry mark)) }
    {
        let right = FormRef {
            ended: &[],
            last: entry.faults_at(mark),
            opens: &[],
            exit: Some(entry.leads_to(mark.kind)),
            heights: &[],
        };
        self.extend(depth, right)
    }

    /// Pushes one more token.
    pub fn push(&mut self, depth: usize, mark: Mark) -> Result<(), AllocError>
        requires depth { depth < 2 ^ 32 }
        requires fits { Fits depth (form_of self.old) }
        ensures ok { OnOk result (form_of self.new ≡ pushed depth (form_of self.old) mark) }
    {
        let Some(entry) = self.exit else {
            return Ok(());
        };
        match mark.kind {
            MarkKind::OpenArray => self.open(depth, entry, mark, Holder::Array),
            MarkKind::OpenObject => self.open(depth, entry, mark, Holder::Object),
            MarkKind::CloseArray | MarkKind::CloseObject => self.close(depth, entry, mark),
            _ => self.pass(depth, entry, mark),
        }
    }

    /// Reads the first tokens, as long as they change at most the open containers and the exit, and answers how many it
    /// read.
    fn read_quiet(&mut self, depth: usize, marks: &[Mark]) -> usize
        requires depth { depth < 2 ^ 32 }
        requires fits { Fits depth (form_of self.old) }
        requires goes_on { GoesOn (form_of self.old) }
        ensures within { result ≤ length marks.now }
        ensures form { form_of self.new ≡ of_marks depth (form_of self.old) (take result marks.now) }
    {
        let Some(entry) = self.exit else {
            return 0;
        };
        let limit = depth.min(self.ended.len() + self.heights.len());
        let base = self.last.unfaulted();
        let (taken, exit) = quiet::pass(&mut self.opens, limit, base, entry, marks);
        self.exit = Some(exit);
        taken
    }

    /// The limits of the form that decide whether a token is quiet.
    pub fn limits(&self, depth: usize) -> Limits
        ensures limits { AreLimits depth (form_of self.now) result }
        ensures room { result.most ≤ vec_capacity self.now.opens }
    {
        let known = self.ended.len().saturating_add(self.heights.len());
        let base = self.last.unfaulted();
        Limits {
            most: depth.min(known).min(self.opens.capacity()),
            base,
            standing: quiet::standing_in(&self.opens, base),
        }
    }

    /// Reads one more token, if that changes at most the open containers and the exit. Answers whether it did.
    #[inline(always)]
    pub fn pass_quiet(&mut self, limits: &mut Limits, mark: Mark) -> bool
        requires room { limits.old.most ≤ vec_capacity self.old.opens }
        ensures room { limits.new.most ≤ vec_capacity self.new.opens }
        ensures went { result ≡ true → is_some self.old.exit ≡ true }
        ensures read { result ≡ true → (d : ℕ) → Fits d (form_of self.old) → GoesOn (form_of self.old) → AreLimits d (form_of self.old) limits.old
            → IsPassed d (form_of self.old) mark (form_of self.new) limits.new }
        ensures same { result ≡ false → (form_of self.new ≡ form_of self.old) × (limits.new ≡ limits.old) }
    {
        let Some(entry) = self.exit else {
            return false;
        };
        if quiet::faults(mark.kind, entry) & limits.standing != 0 {
            return false;
        }
        match mark.kind {
            MarkKind::OpenArray => {
                if !quiet::enter(&mut self.opens, limits.most, Holder::Array) {
                    return false;
                }
                limits.standing = quiet::ARRAY;
            }
            MarkKind::OpenObject => {
                if !quiet::enter(&mut self.opens, limits.most, Holder::Object) {
                    return false;
                }
                limits.standing = quiet::OBJECT;
            }
            MarkKind::CloseArray | MarkKind::CloseObject => {
                if self.opens.pop().is_none() {
                    return false;
                }
                limits.standing = quiet::standing_in(&self.opens, limits.base);
            }
            _ => {}
        }
        self.exit = Some(quiet::lead(mark.kind, entry));
        true
    }

    /// The form of no tokens.
    pub fn new(alloc: Global, entry: Entry) -> Levels
        ensures { form_of result ≡ of_nothing entry }
    {
        Levels {
            ended: Vec::new(alloc),
            last: Level::NONE,
            opens: Vec::new(alloc),
            exit: Some(entry),
            heights: Vec::new(alloc),
        }
    }

    /// Levels after which no token is read.
    pub fn nowhere(alloc: Global) -> Levels
        ensures { (form_of result).exit ≡ None }
    {
        Levels {
            ended: Vec::new(alloc),
            last: Level::NONE,
            opens: Vec::new(alloc),
            exit: None,
            heights: Vec::new(alloc),
        }
    }

    /// The form of these tokens, read from this entry.
    pub fn of(
        alloc: Global,
        entry: Entry,
        marks: &[Mark],
        depth: usize,
    ) -> Result<Levels, AllocError>
        requires { depth < 2 ^ 32 }
        ensures form { IfOk result (λ r. form_of r ≡ of_marks depth (of_nothing entry) marks.now) }
        ensures fits { IfOk result (λ r. Fits depth (form_of r)) }
        ensures goes_on { IfOk result (λ r. GoesOn (form_of r)) }
    {
        Levels::new(alloc, entry).read_on(marks, depth)
    }

    /// Reads these tokens too. It takes the levels by value, since only some of the tokens were read when out of
    /// memory.
    pub fn read_on(self, marks: &[Mark], depth: usize) -> Result<Levels, AllocError>
        requires depth { depth < 2 ^ 32 }
        requires fits { Fits depth (form_of self) }
        requires goes_on { GoesOn (form_of self) }
        ensures form { IfOk result (λ r. form_of r ≡ of_marks depth (form_of self) marks.now) }
        ensures fits { IfOk result (λ r. Fits depth (form_of r)) }
        ensures goes_on { IfOk result (λ r. GoesOn (form_of r)) }
    {
        let mut levels = self;
        let mut done = 0;
        while done < marks.len() && levels.exit.is_some() {
            done += levels.read_quiet(depth, &marks[done..]);
            if done < marks.len() {
                levels.push(depth, marks[done])?;
                done += 1;
            }
        }
        Ok(levels)
    }
}
