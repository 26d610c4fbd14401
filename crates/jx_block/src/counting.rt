// How many tokens begin in a block, and at its lowest level.
ghost use Rattle.std.specs.Prelude.{◌≡◌, ◌+◌, ◌<◌, ◌≤◌, ◌^◌, ℕ, List, length, slice_range};
ghost use Rattle.jx_lex.specs.Counts.{HasCounts, is_brace, number_of};
ghost use Rattle.jx_lex.specs.Seen.{has_end};
ghost use Rattle.jx_block.specs.Kinds.{AreKinds};
ghost use Rattle.jx_block.specs.Listed.{marks_of};

use crate::kinds::TokenKinds;
use crate::levels::level_counts;
use jx_lex::TokenCounts;

/// The number of brackets of objects that begin in a block.
#[inline(always)]
fn braces_of(kinds: &TokenKinds) -> u32
    ensures { (text : List ℕ) (at starts len : ℕ) → AreKinds text at starts kinds.now → at + 64 ≤ length text → len < 64 → starts < 2 ^ len
        → number_of is_brace (marks_of starts 0 at (slice_range text at (at + len))) ≡ result }
{
    let braces = kinds.open_objects | kinds.close_objects;
    braces.count_ones()
}

/// The number of tokens of each kind that begin in a block, where so many are brackets of objects, and of commas and values
/// at its lowest level.
#[inline(always)]
fn counts_with(kinds: &TokenKinds, braces: u32) -> TokenCounts
    ensures { (text ends : List ℕ) (at starts len : ℕ) → AreKinds text at starts kinds.now → at + 64 ≤ length text → len < 64 → starts < 2 ^ len
        → length ends ≡ number_of has_end (marks_of starts 0 at (slice_range text at (at + len)))
        → number_of is_brace (marks_of starts 0 at (slice_range text at (at + len))) ≡ braces
        → HasCounts (marks_of starts 0 at (slice_range text at (at + len))) ends result }
{
    let opening = kinds.open_arrays | kinds.open_objects;
    let closing = kinds.close_arrays | kinds.close_objects;
    let values = kinds.strings | kinds.scalars | opening;
    let levels = level_counts(opening, closing, kinds.commas, values);
    TokenCounts {
        commas: kinds.commas.count_ones(),
        strings: kinds.strings.count_ones(),
        scalars: kinds.scalars.count_ones(),
        opening: opening.count_ones(),
        closing: closing.count_ones(),
        braces,
        lowest: levels.lowest,
        lowest_commas: levels.commas,
        lowest_values: levels.values,
    }
}

/// The number of tokens of each kind that begin in a block, and of commas and values at its lowest level.
#[inline(always)]
pub fn counts_of(kinds: &TokenKinds) -> TokenCounts
    ensures { (text ends : List ℕ) (at starts len : ℕ) → AreKinds text at starts kinds.now → at + 64 ≤ length text → len < 64 → starts < 2 ^ len
        → length ends ≡ number_of has_end (marks_of starts 0 at (slice_range text at (at + len)))
        → HasCounts (marks_of starts 0 at (slice_range text at (at + len))) ends result }
{
    counts_with(kinds, braces_of(kinds))
}
