// Observers of whole tokens.
ghost use Rattle.std.specs.Prelude.{◌≡◌, ◌∷◌, ◌+◌, ◌<◌, ◌≤◌, ◌^◌, [], ℕ, List, false, length, slice_range, true};
ghost use Rattle.jx_lex.specs.declared.alphabet.mark.Mark.{Mark as MarkOf};
ghost use Rattle.jx_lex.specs.declared.scanner.counts.TokenCounts.{TokenCounts as CountsOf};
ghost use Rattle.jx_lex.specs.Counts.{HasCounts, number_of};
ghost use Rattle.jx_lex.specs.Seen.{Grows, has_end};
ghost use Rattle.jx_block.specs.Kinds.{AreKinds};
ghost use Rattle.jx_block.specs.Listed.{marks_of};
ghost use Rattle.jx_reduce.specs.inside.Told.{awaits_mark, heard};

use jx_block::{TokenKinds, counts_of};
use jx_lex::{Mark, TokenCounts, TokenSink};

/// An observer of whole tokens as they are read: it takes each token in one call, and no call fails.
pub(crate) trait Watch {
    ghost has_seen: { Self → List MarkOf → List ℕ → Type 0 };

    // the invariant between two calls
    ghost awaits: { Self → Type 0 };

    // the token starts and ends by its counts
    ghost says: { CountsOf → List MarkOf → List ℕ → Type 0 };

    /// A structural byte.
    fn mark(&mut self, mark: Mark)
        requires kind { has_end mark.kind ≡ false }
        requires turn { awaits self.old }
        ensures seen { Grows (has_seen self.old) (has_seen self.new) (mark ∷ []) [] }
        ensures turn { awaits self.new };

    /// A string, a number or a literal up to an offset.
    fn token(&mut self, mark: Mark, to: usize)
        requires kind { has_end mark.kind ≡ true }
        requires turn { awaits self.old }
        ensures seen { Grows (has_seen self.old) (has_seen self.new) (mark ∷ []) (to ∷ []) }
        ensures turn { awaits self.new };

    /// The name of a member up to an offset, where one stands.
    fn named(&mut self, mark: Mark, to: usize)
        requires kind { has_end mark.kind ≡ true }
        requires turn { awaits self.old }
        ensures seen { Grows (has_seen self.old) (has_seen self.new) (mark ∷ []) (to ∷ []) }
        ensures turn { awaits self.new };

    /// Whether it may take the tokens of a block by their counts.
    fn wants_counts(&self) -> bool;

    /// How many bytes are read token by token, before a block is tried again.
    fn stretch(&self) -> usize;

    /// The counts of the tokens that begin in a block.
    fn counts(&self, kinds: &TokenKinds) -> TokenCounts
        ensures { (text ends : List ℕ) (at starts len : ℕ) → AreKinds text at starts kinds.now → at + 64 ≤ length text → len < 64 → starts < 2 ^ len
            → length ends ≡ number_of has_end (marks_of starts 0 at (slice_range text at (at + len)))
            → says result (marks_of starts 0 at (slice_range text at (at + len))) ends };

    /// Whether it takes the tokens that have these counts at once.
    fn takes_counts(&self, counts: &TokenCounts) -> bool;

    /// Tokens that have these counts.
    fn counted(&mut self, counts: &TokenCounts)
        requires turn { awaits self.old }
        ensures seen { (marks : List MarkOf) (ends : List ℕ) → says counts.now marks ends → Grows (has_seen self.old) (has_seen self.new) marks ends }
        ensures turn { awaits self.new };
}

/// Looks at nothing.
#[derive(Clone, Copy, Debug)]
pub(crate) struct Nothing;

impl Watch for Nothing {
    ghost has_seen = { λ _ _ _. Unit {0} };

    ghost awaits = { λ _. Unit {0} };

    ghost says = { λ _ _ _. Unit {0} };

    #[inline(always)]
    fn mark(&mut self, _mark: Mark) {}

    #[inline(always)]
    fn token(&mut self, _mark: Mark, _to: usize) {}

    #[inline(always)]
    fn named(&mut self, _mark: Mark, _to: usize) {}

    #[inline(always)]
    fn wants_counts(&self) -> bool {
        true
    }

    // A block that the grammar stops once is mostly stopped again soon.
    #[inline(always)]
    fn stretch(&self) -> usize {
        16384
    }

    // It counts nothing.
    #[inline(always)]
    fn counts(&self, _kinds: &TokenKinds) -> TokenCounts {
        TokenCounts {
            commas: 0,
            strings: 0,
            scalars: 0,
            opening: 0,
            closing: 0,
            braces: 0,
            lowest: 0,
            lowest_commas: 0,
            lowest_values: 0,
        }
    }

    #[inline(always)]
    fn takes_counts(&self, _counts: &TokenCounts) -> bool {
        true
    }

    #[inline(always)]
    fn counted(&mut self, _counts: &TokenCounts) {}
}

/// A sink of tokens that looks on. Once out of memory it takes nothing more, and has failed.
#[derive(Drop)]
pub struct Listener<K: Drop> {
    pub sink: K,
    pub has_failed: bool,
}

impl<K: TokenSink + Drop> Watch for Listener<K> {
    ghost has_seen = { λ listener. heard listener.has_failed (K.has_seen listener.sink) };

    ghost awaits = { λ listener. awaits_mark listener.has_failed (K.awaits listener.sink) };

    ghost says = { λ counts marks ends. HasCounts marks ends counts };

    #[inline(always)]
    fn mark(&mut self, mark: Mark) {
        if !self.has_failed {
            self.has_failed = self.sink.begin(mark).is_err();
        }
    }

    #[inline(always)]
    fn token(&mut self, mark: Mark, to: usize) {
        if !self.has_failed {
            self.has_failed = self.sink.token(mark, to).is_err();
        }
    }

    #[inline(always)]
    fn named(&mut self, mark: Mark, to: usize) {
        if !self.has_failed {
            self.has_failed = self.sink.named(mark, to).is_err();
        }
    }

    #[inline(always)]
    fn wants_counts(&self) -> bool {
        self.sink.wants_counts()
    }

    // A sink that takes no block at one place may take the next one.
    #[inline(always)]
    fn stretch(&self) -> usize {
        1024
    }

    #[inline(always)]
    fn counts(&self, kinds: &TokenKinds) -> TokenCounts {
        counts_of(kinds)
    }

    #[inline(always)]
    fn takes_counts(&self, counts: &TokenCounts) -> bool {
        self.sink.takes_counts(counts)
    }

    #[inline(always)]
    fn counted(&mut self, counts: &TokenCounts) {
        if !self.has_failed {
            self.has_failed = self.sink.counted(counts).is_err();
        }
    }
}
