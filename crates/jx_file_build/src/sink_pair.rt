// Two sinks that are given the same tokens.
use jx_lex::{Mark, TokenCounts, TokenSink};
use std::alloc::AllocError;

/// Two sinks that are given the same tokens. They take tokens as counts where both do.
#[derive(Drop)]
pub struct SinkPair<A: Drop, B: Drop> {
    pub one: A,
    pub other: B,
}

impl<A: TokenSink + Drop, B: TokenSink + Drop> TokenSink for SinkPair<A, B> {
    ghost has_seen = { λ pair marks ends. A.has_seen pair.one marks ends × B.has_seen pair.other marks ends };

    ghost awaits = { λ pair inside. A.awaits pair.one inside × B.awaits pair.other inside };

    #[inline(always)]
    fn begin(&mut self, mark: Mark) -> Result<(), AllocError> {
        self.one.begin(mark)?;
        self.other.begin(mark)?;
        Ok(())
    }

    #[inline(always)]
    fn end(&mut self, at: usize) -> Result<(), AllocError> {
        self.one.end(at)?;
        self.other.end(at)?;
        Ok(())
    }

    #[inline(always)]
    fn is_done(&self) -> bool {
        if !self.one.is_done() {
            return false;
        }
        self.other.is_done()
    }

    #[inline(always)]
    fn token(&mut self, mark: Mark, to: usize) -> Result<(), AllocError> {
        self.one.token(mark, to)?;
        self.other.token(mark, to)?;
        Ok(())
    }

    #[inline(always)]
    fn named(&mut self, mark: Mark, to: usize) -> Result<(), AllocError> {
        self.one.named(mark, to)?;
        self.other.named(mark, to)?;
        Ok(())
    }

    #[inline(always)]
    fn wants_counts(&self) -> bool {
        self.one.wants_counts() && self.other.wants_counts()
    }

    #[inline(always)]
    fn takes_counts(&self, counts: &TokenCounts) -> bool {
        self.one.takes_counts(counts) && self.other.takes_counts(counts)
    }

    #[inline(always)]
    fn counted(&mut self, counts: &TokenCounts) -> Result<(), AllocError> {
        self.one.counted(counts)?;
        self.other.counted(counts)?;
        Ok(())
    }
}
