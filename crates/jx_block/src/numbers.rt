// Numbers of a block, all at once by words of bits.
ghost use Rattle.std.specs.Prelude.{◌≡◌, ◌≤◌, ◌<◌, ◌+◌, ◌&&◌, ◌==◌, ℕ, false, true, get_or, length, slice_index};
ghost use Rattle.std.specs.Simd.Lanes.{chunk};
ghost use Rattle.jx_lex.specs.inside.Bits.{bit};
ghost use Rattle.jx_block.specs.inside.Numbers.{AreClasses, ArePlaced};
ghost use Rattle.jx_block.specs.inside.Planes.{is_exponent, is_stop};
ghost use Rattle.jx_block.specs.inside.Whole.{IsWhole};

use crate::planes::{digits, equal, exponent_letters, stops};
use std::simd::prelude::*;

/// The bytes of numbers by their classes. Bit k of a word stands for byte k of a block.
#[derive(Clone, Copy)]
struct NumberWords {
    digits: u64,
    minuses: u64,
    pluses: u64,
    points: u64,
    /// `e` and `E`.
    exponents: u64,
    /// Leading zeros that a digit follows.
    wrong_zeros: u64,
}

/// Those of these places of a block at which a byte stands.
#[inline(always)]
fn among(block: u8x64, places: u64, byte: u8) -> u64
    ensures { (k : ℕ) → k < 64 → bit result k ≡ (bit places k && (get_or block k 0 == byte)) }
{
    if places == 0 {
        return 0;
    }
    places & equal(block, byte)
}

/// Those of these places of a block at which `e` or `E` stands.
#[inline(always)]
fn exponents_among(block: u8x64, places: u64) -> u64
    ensures { (k : ℕ) → k < 64 → bit result k ≡ (bit places k && is_exponent (get_or block k 0)) }
{
    if places == 0 {
        return 0;
    }
    places & exponent_letters(block)
}

/// The classes of the bytes of numbers, and of those at which numbers begin. A byte of another class is in no word.
#[inline(always)]
fn number_words(block: u8x64, numbers: u64, firsts: u64) -> NumberWords
    ensures { AreClasses block (bit numbers) (bit firsts) result }
{
    let digits = numbers & digits(block);
    let minuses = among(block, numbers & !digits, b'-');
    let points = among(block, numbers & !(digits | minuses), b'.');
    let others = numbers & !(digits | minuses | points);
    let exponents = exponents_among(block, others);
    let leading = firsts | ((firsts & minuses) << 1);
    NumberWords {
        digits,
        minuses,
        pluses: among(block, others & !exponents, b'+'),
        points,
        exponents,
        wrong_zeros: among(block, leading & (digits >> 1), b'0'),
    }
}

/// Sets the bits of a word, and those of `over` that follow each of them without a gap. Who calls it looks at each bit
/// once more, so that no proof rests on it.
#[inline(always)]
fn spread(from: u64, over: u64) -> u64 {
    from | (over & !over.wrapping_add(from << 1))
}

/// Where a byte of a number stands that may not.
#[inline(always)]
fn misplaced(words: &NumberWords, firsts: u64) -> u64
    ensures { ArePlaced words.now (bit firsts) result }
{
    let signs = words.minuses | words.pluses;
    // The bytes from a point on, up to an `e`, and those from an `e` on.
    let fractions = spread(words.points, words.digits);
    let powers = spread(words.exponents, words.digits | signs);
    let whole = words.digits & !(fractions | powers);
    (fractions ^ (words.points | ((fractions << 1) & words.digits)))
        | (powers ^ (words.exponents | ((powers << 1) & (words.digits | signs))))
        | (signs & !(firsts | (words.exponents << 1)))
        | (words.points & !(whole << 1))
        | (words.exponents & !((words.digits & !powers) << 1))
        | words.wrong_zeros
        | (firsts & !(words.digits | words.minuses))
}

/// Where the numbers that begin at these places of a block have a fault. Bytes that are taken are of no number.
#[inline(always)]
pub(crate) fn wrong_number(
    text: &[u8],
    at: usize,
    block: u8x64,
    scalars: u64,
    taken: u64,
    firsts: u64,
) -> u64
    requires bounds { at + 64 ≤ length text.now }
    requires block { block ≡ chunk at 64 text.now }
    ensures whole { (k n : ℕ) → k ≤ n → n < 64 → bit scalars n ≡ false → bit firsts k ≡ true → ((j : ℕ) → j ≤ n → bit result j ≡ false) → IsWhole text.now at (bit scalars) (λ j. is_stop (slice_index text.now (at + j))) k }
{
    let numbers = scalars & !taken;
    let words = number_words(block, numbers, firsts);
    let known = words.digits | words.minuses | words.pluses | words.points | words.exponents;
    let ends = stops(block) & !scalars;
    misplaced(&words, firsts)
        | (numbers & !known)
        | (numbers & !(numbers >> 1) & !words.digits)
        | ((numbers << 1) & (firsts | (!numbers & !ends)))
}
