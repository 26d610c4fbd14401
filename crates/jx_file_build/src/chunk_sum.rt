// The sum of the tokens of a chunk.
ghost use Rattle.std.specs.Prelude.{◌≡◌, ◌||◌, [], ◌++◌, ℕ, List, IfSome};
ghost use Rattle.jx_lex.specs.declared.alphabet.mark.Mark.{Mark};
ghost use Rattle.jx_file_build.specs.inside.Tallied.{Tells};

use jx_file_index::{Sum, sum_of_joined_starts};
use jx_lex::{Mark, TokenCounts, TokenSink};
use std::alloc::AllocError;

/// The sum of the token starts of a chunk, and whether there were token starts and ends.
#[derive(Drop)]
pub struct ChunkSum {
    pub sum: Sum,
    pub begins: bool,
    pub ends: bool,
}

/// Whether one of them holds.
fn either(one: bool, other: bool) -> bool
    ensures { result ≡ (one || other) }
{
    one || other
}

impl ChunkSum {
    /// No token of the chunk was taken yet.
    pub(crate) fn new() -> ChunkSum
        ensures { Tells [] [] result.sum result.begins result.ends }
    {
        ChunkSum {
            sum: Sum::new(),
            begins: false,
            ends: false,
        }
    }

    /// The sum of both parts of a chunk, one after the other. There is none where a count is too large to be held.
    pub(crate) fn joined(&self, right: &ChunkSum) -> Option<ChunkSum>
        ensures { IfSome result (λ both. (marks more : List Mark) (ends others : List ℕ) → Tells marks ends self.now.sum self.now.begins self.now.ends
            → Tells more others right.now.sum right.now.begins right.now.ends → Tells (marks ++ more) (ends ++ others) both.sum both.begins both.ends) }
    {
        sum_of_joined_starts();
        let Some(sum) = self.sum.join(right.sum) else {
            return None;
        };
        Some(ChunkSum {
            sum,
            begins: either(self.begins, right.begins),
            ends: either(self.ends, right.ends),
        })
    }
}

impl TokenSink for ChunkSum {
    ghost use Rattle.jx_file_build.specs.inside.Tallied.{Tells};

    ghost has_seen = { λ chunk marks ends. Tells marks ends chunk.sum chunk.begins chunk.ends };

    ghost awaits = { λ _ _. Unit {0} };

    #[inline(always)]
    fn begin(&mut self, mark: Mark) -> Result<(), AllocError> {
        let Some(sum) = self.sum.step(mark.kind) else {
            return Err(AllocError);
        };
        self.sum = sum;
        self.begins = true;
        Ok(())
    }

    #[inline(always)]
    fn end(&mut self, _at: usize) -> Result<(), AllocError> {
        self.ends = true;
        Ok(())
    }

    fn is_done(&self) -> bool {
        false
    }

    #[inline(always)]
    fn wants_counts(&self) -> bool {
        true
    }

    // Without a comma there may be no token.
    #[inline(always)]
    fn takes_counts(&self, counts: &TokenCounts) -> bool {
        counts.commas != 0 && self.sum.counted(counts).is_some()
    }

    #[inline(always)]
    fn counted(&mut self, counts: &TokenCounts) -> Result<(), AllocError> {
        if counts.commas == 0 {
            return Err(AllocError);
        }
        let Some(sum) = self.sum.counted(counts) else {
            return Err(AllocError);
        };
        self.sum = sum;
        self.begins = true;
        let values = counts.strings as u64 + counts.scalars as u64;
        if values == 0 {
            return Ok(());
        }
        self.ends = true;
        Ok(())
    }

    // No string, number or literal changes the sum.
    #[inline(always)]
    fn token(&mut self, _mark: Mark, _to: usize) -> Result<(), AllocError> {
        self.begins = true;
        self.ends = true;
        Ok(())
    }
}
