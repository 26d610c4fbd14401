// Partial results of a text.
ghost use Rattle.std.specs.Prelude.{◌≡◌, ◌+◌, ◌<◌, ◌^◌, ◌++◌, ◌↔◌, ℕ, List, Option, None, Some, length, unwrap_or, IfOk, IfErr, IsOk};
ghost use Rattle.jx_run.specs.Verdict.{Judged};
ghost use Rattle.jx_portion.specs.Portion.{end_of, start_of, IsMismatch, IsPortion, Meets};

use jx_lex::Depth;
use jx_run::{OutcomeRun, Verdict};
use jx_summary::Summary;
use std::alloc::{AllocError, Global};
use std::marker::Model;
use thiserror::Error;

/// Why two partial results can't be joined.
#[derive(Clone, Copy, Debug, PartialEq, Eq, Error)]
pub enum Mismatch {
    /// They were read with different depths.
    #[error("the depths differ")]
    Depths,
    /// One says where it begins, and the other doesn't.
    #[error("one has no offset")]
    Froms,
    /// The right doesn't begin where the left ends.
    #[error("they are not neighbours")]
    Place,
    /// The joined bytes would end past the greatest offset.
    #[error("too long")]
    TooLong,
}

/// The partial result of a part of a text, which may be cut anywhere, and where the part is in the text, if that was
/// given. Its size is bounded by the depth, whatever the length of the part.
#[derive(Drop)]
pub struct Portion {
    pub(crate) from: Option<usize>,
    pub(crate) run: OutcomeRun,
}

impl Model for Portion {
    ghost use Rattle.std.specs.Prelude.{◌≡◌, ◌+◌, ◌<◌, ◌^◌, unwrap_or};
    ghost use Rattle.jx_portion.specs.Portion.{PortionValue};

    ghost Value = { PortionValue };

    ghost view = { λ p. record { from = p.from; run = p.run } };

    ghost invariant = { λ p. (p.run.start ≡ 0) × (unwrap_or p.from 0 + p.run.end < 2 ^ 64) };
}

impl Portion {
    /// Reads a part of a text. Its first byte stands at the offset `from`, if that is given. It fails only when out of
    /// memory.
    pub fn of(
        alloc: Global,
        bytes: &[u8],
        from: Option<usize>,
        depth: Depth,
    ) -> Result<Portion, AllocError>
        requires fits { unwrap_or from 0 + length bytes.now < 2 ^ 64 }
        ensures of { IfOk result (IsPortion bytes.now from depth) }
    {
        let run = OutcomeRun::of(alloc, bytes, 0, bytes.len(), depth)?;
        Ok(Portion { from, run })
    }

    /// Reads the bytes after it too. It fails only when out of memory.
    pub fn and(self, alloc: Global, more: &[u8]) -> Result<Portion, AllocError>
        requires fits { end_of self + length more.now < 2 ^ 64 }
        ensures of { IfOk result (λ p. (bytes : List ℕ) (f : Option ℕ) (d : ℕ) → IsPortion bytes f d self → IsPortion (bytes ++ more.now) f d p) }
        ensures from { IfOk result (λ p. p.from ≡ self.from) }
        ensures depth { IfOk result (λ p. p.run.depth ≡ self.run.depth) }
        ensures end { IfOk result (λ p. p.run.end ≡ self.run.end + length more.now) }
    {
        let right = Portion::of(alloc, more, None, self.run.depth())?;
        self.followed_by(right)
    }

    /// Goes on with the bytes of another one, wherever that stands.
    fn followed_by(self, right: Portion) -> Result<Portion, AllocError>
        requires depth { self.run.depth ≡ right.run.depth }
        requires fits { end_of self + right.run.end < 2 ^ 64 }
        ensures from { IfOk result (λ p. p.from ≡ self.from) }
        ensures depth { IfOk result (λ p. p.run.depth ≡ self.run.depth) }
        ensures end { IfOk result (λ p. p.run.end ≡ self.run.end + right.run.end) }
        ensures of { IfOk result (λ p. (xs ys : List ℕ) (f g : Option ℕ) (d e : ℕ) → IsPortion xs f d self → IsPortion ys g e right → IsPortion (xs ++ ys) f d p) }
    {
        let Portion { from, run } = self;
        let end = run.span().end;
        match run.join(right.run.shifted(end)) {
            Ok(run) => Ok(Portion { from, run }),
            Err(_) => Err(AllocError),
        }
    }

    /// The offset of its first byte in the text, if that was given.
    pub fn from(&self) -> Option<usize>
        ensures { result ≡ self.now.from }
    {
        self.from
    }

    /// The offset of its first byte in the text, or 0.
    pub fn start(&self) -> usize
        ensures { result ≡ start_of self.now }
    {
        self.from.unwrap_or(0)
    }

    /// The offset just after its last byte.
    pub fn end(&self) -> usize
        ensures value { result ≡ end_of self.now }
    {
        self.start() + self.run.span().end
    }

    /// The depth that it was read with.
    pub fn depth(&self) -> Depth
        ensures { result ≡ self.now.run.depth }
    {
        self.run.depth()
    }

    /// Checks whether it may be joined with one to its right. The fault says why not.
    pub fn meets(&self, right: &Portion) -> Result<(), Mismatch>
        ensures meets { IsOk result ↔ Meets self.now right.now }
        ensures why { IfErr result (IsMismatch self.now right.now) }
    {
        if self.depth() != right.depth() {
            return Err(Mismatch::Depths);
        }
        match (self.from, right.from) {
            (None, None) => {}
            (Some(_), Some(at)) => {
                if at != self.end() {
                    return Err(Mismatch::Place);
                }
            }
            _ => return Err(Mismatch::Froms),
        }
        match self.end().checked_add(right.run.span().end) {
            Some(_) => Ok(()),
            None => Err(Mismatch::TooLong),
        }
    }

    /// Joins with the partial result to the right. It fails only when out of memory.
    pub fn join(self, right: Portion) -> Result<Portion, AllocError>
        requires meets { Meets self right }
        ensures of { IfOk result (λ j. (xs ys : List ℕ) (f g : Option ℕ) (d : ℕ) → IsPortion xs f d self → IsPortion ys g d right → IsPortion (xs ++ ys) f d j) }
        ensures from { IfOk result (λ j. j.from ≡ self.from) }
        ensures depth { IfOk result (λ j. j.run.depth ≡ self.run.depth) }
        ensures end { IfOk result (λ j. j.run.end ≡ self.run.end + right.run.end) }
    {
        self.followed_by(right)
    }

    /// The verdict on its bytes as a whole text, with offsets counted from where it stands.
    pub fn verdict(self) -> Verdict
        ensures { (bytes : List ℕ) (f : Option ℕ) (d : ℕ) → IsPortion bytes f d self → Judged (unwrap_or f 0) bytes d result }
    {
        let start = self.start();
        self.run.shifted(start).verdict()
    }
}
