// Token sinks: what is given the tokens that a scan finds.
ghost use Rattle.std.specs.Prelude.{◌≡◌, ◌++◌, ◌∷◌, ◌≤◌, [], ℕ, Bool, List, IfOk, OnOk, IsTrue, false, length, slice_range, true};
ghost use Rattle.jx_lex.specs.declared.alphabet.mark.Mark.{Mark};
ghost use Rattle.jx_lex.specs.declared.alphabet.state.LexState.TheVariants.{Gap};
ghost use Rattle.jx_lex.specs.Counts.{HasCounts};
ghost use Rattle.jx_lex.specs.Lex.{lex};
ghost use Rattle.jx_lex.specs.Seen.{GoesTo, Grows, WantsNoMore, has_end};

use crate::alphabet::mark::Mark;
use crate::scanner::counts::TokenCounts;
use std::alloc::AllocError;

/// Takes the tokens that a scan finds. `begin` takes each token start and `end` each end of a string, a number or a
/// literal, both in the order of the text: after the token start of such a token comes its end, and after an end, or a
/// token start without one, a token start.
///
/// `has_seen` says which token starts and ends a sink may have been given. It may be true of many: a sink need not keep
/// what it has seen, but only what that leads to. `awaits` says what a sink may be given next: an end (true) or a token
/// start. A sink that does not care says so of both.
pub trait TokenSink {
    ghost has_seen: { Self → List Mark → List ℕ → Type 0 };

    ghost awaits: { Self → Bool → Type 0 };

    /// A structural byte, or the first byte of a scalar. When out of memory, the sink is of no more use.
    fn begin(&mut self, mark: Mark) -> Result<(), AllocError>
        requires { awaits self.old false }
        ensures seen { OnOk result ((marks : List Mark) (ends : List ℕ) → has_seen self.old marks ends → has_seen self.new (marks ++ mark ∷ []) ends) }
        ensures turn { OnOk result (awaits self.new (has_end mark.kind)) };

    /// The offset just past a scalar's last byte. When out of memory, the sink is of no more use.
    fn end(&mut self, at: usize) -> Result<(), AllocError>
        requires { awaits self.old true }
        ensures seen { OnOk result ((marks : List Mark) (ends : List ℕ) → has_seen self.old marks ends → has_seen self.new marks (ends ++ at ∷ [])) }
        ensures turn { OnOk result (awaits self.new false) };

    /// Whether it wants no more: whatever it has seen, it is also what that and anything more leads to.
    fn is_done(&self) -> bool
        ensures { IsTrue result → WantsNoMore (has_seen self.now) };

    /// A whole string, number or literal: its token start, and the offset just past its last byte. When out of memory,
    /// the sink is of no more use. A sink that leaves it as it is takes the token start and then the end.
    #[inline(always)]
    fn token(&mut self, mark: Mark, to: usize) -> Result<(), AllocError>
        requires kind { has_end mark.kind ≡ true }
        requires turn { awaits self.old false }
        ensures seen { OnOk result (Grows (has_seen self.old) (has_seen self.new) (mark ∷ []) (to ∷ [])) }
        ensures turn { OnOk result (awaits self.new false) }
    {
        self.begin(mark)?;
        self.end(to)?;
        Ok(())
    }

    /// The whole name of a member, which the place in the text shows. A sink that leaves it as it is takes it as any token.
    #[inline(always)]
    fn named(&mut self, mark: Mark, to: usize) -> Result<(), AllocError>
        requires kind { has_end mark.kind ≡ true }
        requires turn { awaits self.old false }
        ensures seen { OnOk result (Grows (has_seen self.old) (has_seen self.new) (mark ∷ []) (to ∷ [])) }
        ensures turn { OnOk result (awaits self.new false) }
    {
        self.token(mark, to)?;
        Ok(())
    }

    /// Whether it may take tokens as counts, so that it is worth while to count those that follow. A sink that leaves it
    /// as it is gets each token.
    #[inline(always)]
    fn wants_counts(&self) -> bool {
        false
    }

    /// Whether it takes the tokens that have these counts at once, whatever they are.
    #[inline(always)]
    fn takes_counts(&self, _counts: &TokenCounts) -> bool {
        false
    }

    /// Tokens that have these counts, from between tokens to between tokens. Fails when out of memory, and where
    /// `takes_counts` says no. Then the sink is of no more use.
    #[inline(always)]
    fn counted(&mut self, counts: &TokenCounts) -> Result<(), AllocError>
        requires turn { awaits self.old false }
        ensures seen { OnOk result ((marks : List Mark) (ends : List ℕ) → HasCounts marks ends counts.now → Grows (has_seen self.old) (has_seen self.new) marks ends) }
        ensures turn { OnOk result (awaits self.new false) }
    {
        let _ = counts;
        Err(AllocError)
    }

    /// Reads whole tokens by itself, from between tokens on, as many as it likes. Returns the offset after them, which
    /// is between tokens too. When out of memory, the sink is of no more use. A sink that leaves it as it is reads
    /// none.
    #[inline(always)]
    fn pass(&mut self, text: &[u8], from: usize, to: usize) -> Result<usize, AllocError>
        requires bounds { (from ≤ to) × (to ≤ length text.now) }
        requires turn { awaits self.old false }
        ensures bounds { IfOk result (λ end. (from ≤ end) × (end ≤ to)) }
        ensures read { IfOk result (λ end. GoesTo (has_seen self.old) (has_seen self.new) (lex Gap from (slice_range text.now from end)) Gap) }
        ensures turn { OnOk result (awaits self.new false) }
    {
        Ok(from)
    }
}
