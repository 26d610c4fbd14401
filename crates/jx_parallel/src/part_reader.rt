// Readings of a text that take parts which others judged.
ghost use Rattle.std.specs.Prelude.{◌≡◌, ◌+◌, ◌<◌, ◌≤◌, ◌^◌, ◌++◌, ℕ, List, true, false, length, slice_range, IfOk, IfSome, OnOk};

use jx_lex::Depth;
use std::alloc::{AllocError, Global};

/// How parts of a text are judged whose verdicts are reported.
#[derive(Clone, Copy, Debug)]
pub struct PartRule {
    /// How many containers may be open at once.
    pub depth: Depth,
    /// Whether nothing is to be written of them.
    pub is_quiet: bool,
}

/// A part of some bytes, from one place up to another.
#[derive(Debug, Drop)]
pub struct Judged<P> {
    pub part: P,
    pub from: usize,
    pub to: usize,
}

/// A reading of a text from its start. It also takes parts that were judged without the bytes before them.
pub trait PartReader: Drop {
    ghost use Rattle.std.specs.Prelude.{ℕ, List};

    /// How parts are judged.
    type Rule: Sync;

    /// The result of judging a part.
    type Part: Drop + Send;

    /// The output and messages that were given, before those that wait.
    ghost Given: { Type 0 };

    /// Judging these bytes from an offset on gives this.
    ghost is_part: { Self.Rule → ℕ → List ℕ → Self.Part → Type 0 };

    /// It has read these bytes, from a text's start, and this was given of them.
    ghost has_read: { Self.Rule → List ℕ → Given → Self → Type 0 };

    /// How many bytes it has read.
    ghost end: { Self → ℕ };

    /// Judges those of the bytes from an offset on that need no others for it; none if there are none.
    fn judge(
        alloc: Global,
        rule: &Self::Rule,
        bytes: &[u8],
        at: usize,
    ) -> Result<Option<Judged<Self::Part>>, AllocError>
        requires fits { at + length bytes.now < 2 ^ 64 }
        ensures ordered { IfOk result (λ judged. IfSome judged (λ j. j.from ≤ j.to)) }
        ensures within { IfOk result (λ judged. IfSome judged (λ j. j.to ≤ length bytes.now)) }
        ensures part { IfOk result (λ judged. IfSome judged (λ j. is_part rule.now (at + j.from) (slice_range bytes.now j.from j.to) j.part)) };

    /// How many bytes it has read.
    fn end(&self) -> usize
        ensures end { result ≡ end self.now }
        ensures length { (rule : Self.Rule) (xs : List ℕ) (given : Given) → has_read rule xs given self.now → result ≡ length xs };

    /// Reads the bytes after all that it has read.
    fn feed(&mut self, rule: &Self::Rule, bytes: &[u8]) -> Result<(), AllocError>
        requires fits { end self.old + length bytes.now < 2 ^ 64 }
        ensures read { OnOk result ((xs : List ℕ) (given : Given) → has_read rule.now xs given self.old → has_read rule.now (xs ++ bytes.now) given self.new) };

    /// Takes so many bytes that were judged, as if it had read them after all that it has read. Answers whether it did: it need
    /// not if it can't go on with them.
    fn take(&mut self, rule: &Self::Rule, part: Self::Part, len: usize) -> Result<bool, AllocError>
        requires fits { end self.old + len < 2 ^ 64 }
        ensures taken { IfOk result (λ is. is ≡ true → (xs ys : List ℕ) (given : Given) → has_read rule.now xs given self.old → length ys ≡ len → is_part rule.now (length xs) ys part → has_read rule.now (xs ++ ys) given self.new) }
        ensures left { IfOk result (λ is. is ≡ false → self.new ≡ self.old) };

    /// Whether its output is to be written before it reads on. A round ends then.
    fn is_full(&self) -> bool {
        false
    }

    /// The offset at which the next part may begin. At the head of a round it is fed what is before it.
    fn starts(&self) -> usize {
        0
    }
}
