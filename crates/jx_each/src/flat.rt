// Blocks of an array in which scalars stand close: outside of strings no bracket and no white space, and no comma inside
// of one. Its commas become line feeds at once.
ghost use Rattle.std.specs.Prelude.{◌≡◌, ◌-◌, ◌<◌, ◌≤◌, ◌&&◌, ℕ, IfSome, IsTrue, bit_or, false, map, not, true};
ghost use Rattle.std.specs.Simd.Lanes.{mask_l};
ghost use Rattle.jx_lex.specs.inside.Bits.{bit};
ghost use Rattle.jx_each.specs.inside.Blocks.{in_at};
ghost use Rattle.jx_each.specs.inside.Flat.{IsFlat, fed, is_comma};

use crate::blocks::{BLOCK, Words, is_set, lowest, next_set};
use std::simd::prelude::*;

/// Which bytes are commas.
#[inline(always)]
fn commas_of(block: u8x64) -> u64
    ensures { result ≡ mask_l (map is_comma block) }
{
    block.simd_eq(u8x64::splat(b',')).to_bitmask()
}

/// Whether all commas of a block stand outside of strings, and they alone do anything there.
#[inline(always)]
fn is_plain(words: Words, commas: u64) -> bool
    ensures whole { IsTrue result → words.len ≡ 64 }
    ensures commas { IsTrue result → words.borders ≡ commas }
    ensures none { IsTrue result → bit_or words.brackets words.gaps ≡ 0 }
{
    words.len == BLOCK && words.borders == commas && words.brackets | words.gaps == 0
}

/// Whether no comma follows another one, and none is the first byte where no element is before the block.
#[inline(always)]
fn are_apart(commas: u64, begun: bool) -> bool
    ensures { IsTrue result → (k : ℕ) → k < 64 → (bit commas k && in_at (not begun) commas k) ≡ false }
{
    commas & (commas << 1 | lowest(!begun)) == 0
}

/// Whether the last bit that is set is the one before a place; none is set before the first place.
#[inline(always)]
fn is_end(commas: u64, end: usize) -> bool
    requires { end ≤ 64 }
    ensures behind { IsTrue result → (k : ℕ) → end ≤ k → k < 64 → bit commas k ≡ false }
    ensures last { IsTrue result → 0 < end → bit commas (end - 1) ≡ true }
{
    if end < BLOCK && next_set(commas, end) < BLOCK {
        return false;
    }
    end == 0 || is_set(commas, end - 1)
}

/// How many bytes are before and at the last comma, in a block whose commas alone do anything, and each of them ends an
/// element. None where it is another block. `begun` says whether an element is before it.
#[inline(always)]
pub(crate) fn commas_end(words: Words, block: u8x64, begun: bool) -> Option<usize>
    ensures { IfSome result (IsFlat block words begun) }
{
    let commas = commas_of(block);
    if !is_plain(words, commas) || !are_apart(commas, begun) {
        return None;
    }
    // The place is looked at once more, so that all that follows rests on this alone.
    let end = BLOCK - commas.leading_zeros() as usize;
    if is_end(commas, end) { Some(end) } else { None }
}

/// The bytes of a block with line feeds in place of its commas.
#[inline(always)]
pub(crate) fn with_feeds(block: u8x64) -> u8x64
    ensures { result ≡ map fed block }
{
    block
        .simd_eq(u8x64::splat(b','))
        .select(u8x64::splat(b'\n'), block)
}
