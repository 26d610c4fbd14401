// The level of open containers among the tokens of a block.
ghost use Rattle.std.specs.Prelude.{◌≡◌, ◌+◌, ◌≤◌, ◌<◌, ◌^◌, ◌==◌, ℕ, true};
ghost use Rattle.jx_lex.specs.Counts.{Levels};
ghost use Rattle.jx_lex.specs.inside.Bits.{bit};
ghost use Rattle.jx_block.specs.inside.Levels.{levels, levels_to, moved, HasLowest};

use crate::cutting::{is_bit, with_behind};

/// The lowest level among some tokens, and what begins there. Levels are counted from the first token on.
#[derive(Clone, Copy)]
pub(crate) struct LevelCounts {
    /// How far the level fell at most.
    pub lowest: u32,
    /// How far it stands above the lowest.
    pub above: u32,
    /// How many commas stand at the lowest level.
    pub commas: u32,
    /// How many values begin there.
    pub values: u32,
}

/// The lowest level so far.
#[derive(Clone, Copy)]
struct Lowest {
    /// How far the level fell at most.
    lowest: u32,
    /// How far it stands above the lowest.
    above: u32,
    /// The bytes at the lowest level, and where it stands there all that follow.
    bytes: u64,
}

impl Lowest {
    /// Behind the bracket that is byte k.
    #[inline(always)]
    fn behind_bracket(self, k: usize, opens: bool) -> Lowest
        requires byte { k < 64 }
        requires lowest { self.lowest + 1 < 2 ^ 32 }
        requires above { self.above + 1 < 2 ^ 32 }
        ensures is { (m v : ℕ) (s : Levels) → HasLowest m v (k + 1) self.lowest self.above self.bytes s → HasLowest m v (k + 1) result.lowest result.above result.bytes (moved opens true s) }
        ensures behind { (j : ℕ) → k < j → j < 64 → bit result.bytes j ≡ (result.above == 0) }
        ensures lowest { result.lowest ≤ self.lowest + 1 }
        ensures above { result.above ≤ self.above + 1 }
    {
        let above = self.above;
        if opens {
            let opened = with_behind(self.bytes, k, false);
            return Lowest {
                above: above + 1,
                bytes: opened,
                ..self
            };
        }
        if above == 0 {
            let fallen = with_behind(0, k, true);
            return Lowest {
                lowest: self.lowest + 1,
                above: 0,
                bytes: fallen,
            };
        }
        let closed = with_behind(self.bytes, k, above == 1);
        Lowest {
            above: above - 1,
            bytes: closed,
            ..self
        }
    }
}

/// The lowest level of a block, whose bytes open and close containers, are commas and begin values where these words have
/// bits.
#[inline(always)]
pub(crate) fn level_counts(opening: u64, closing: u64, commas: u64, values: u64) -> LevelCounts
    ensures { levels result ≡ levels_to opening closing commas values 64 }
{
    let mut left = opening | closing;
    let mut so_far = Lowest {
        lowest: 0,
        above: 0,
        bytes: u64::MAX,
    };
    let mut from = 0;
    while left != 0 {
        let k = left.trailing_zeros() as usize;
        so_far = so_far.behind_bracket(k, is_bit(opening, k));
        left &= left - 1;
        from = k + 1;
    }
    // Shows the proof that all brackets are before this place.
    let _ = from;
    LevelCounts {
        lowest: so_far.lowest,
        above: so_far.above,
        commas: (commas & so_far.bytes).count_ones(),
        values: (values & so_far.bytes).count_ones(),
    }
}
