// Numbers and literals of a block, read at their places.
ghost use Rattle.std.specs.Prelude.{◌≡◌, ◌≤◌, ◌<◌, ◌+◌, ℕ, IsTrue, true, false, length, slice_index};
ghost use Rattle.std.specs.Simd.Lanes.{chunk};
ghost use Rattle.jx_lex.specs.inside.Bits.{bit};
ghost use Rattle.jx_block.specs.inside.Planes.{is_stop};
ghost use Rattle.jx_block.specs.inside.Whole.{IsScalar, IsWhole};

use crate::numbers::wrong_number;
use crate::planes::number_firsts;
use jx_lex::{pass_literal, pass_number};
use std::simd::prelude::*;

/// Whether the bytes between two offsets are one number or one literal, as far as what follows lets it end.
#[inline(always)]
fn is_scalar(text: &[u8], from: usize, to: usize) -> bool
    requires { (from < to) × (to ≤ length text.now) }
    ensures { IsTrue result → IsScalar text.now from to }
{
    if text[from] >= b'a' {
        return pass_literal(text, from, text.len()) == to;
    }
    pass_number(text, from, text.len()) == to
}

/// The place after the run of bits that begins at one, or 64 where the run reaches the end of the word.
#[inline(always)]
fn run_end(word: u64, k: usize) -> usize
    requires { k < 64 }
    ensures low { k ≤ result }
    ensures run { (j : ℕ) → result < 64 → k ≤ j → j < result → bit word j ≡ true }
    ensures over { result < 64 → bit word result ≡ false }
{
    let from = word >> k;
    if from == u64::MAX {
        return 64;
    }
    k + from.trailing_ones() as usize
}

/// Whether the byte is one that mostly follows a number or a literal.
#[inline(always)]
fn is_stop(byte: u8) -> bool
    ensures { IsTrue result → is_stop byte ≡ true }
{
    byte == b',' || byte == b']' || byte == b'}' || byte == b'\n' || byte == b' ' || byte == b'\r'
}

/// Whether the run of bytes of scalars that begins at byte k of a block is one scalar, which ends there.
#[inline(always)]
fn is_whole(text: &[u8], at: usize, scalars: u64, k: usize) -> bool
    requires bounds { (at + 64 ≤ length text.now) × (k < 64) }
    requires begun { bit scalars k ≡ true }
    ensures { IsTrue result → IsWhole text.now at (bit scalars) (λ j. is_stop (slice_index text.now (at + j))) k }
{
    let end = run_end(scalars, k);
    if end >= 64 || !is_stop(text[at + end]) {
        return false;
    }
    is_scalar(text, at + k, at + end)
}

/// Runs that were looked at one by one.
#[derive(Clone, Copy)]
struct Visited {
    /// The bit of the first of them that is not one whole scalar, or 0.
    wrong: u64,
    /// Their bytes. Who uses them looks at each bit once more, so that no proof rests on them.
    taken: u64,
}

/// The bytes of the run of bits that begins at one.
#[inline(always)]
fn run_from(word: u64, k: usize) -> u64
    requires { k < 64 }
{
    word & !word.wrapping_add(1 << k)
}

/// Looks at the runs that begin at these places one by one.
#[inline(always)]
fn visit(text: &[u8], at: usize, scalars: u64, firsts: u64) -> Visited
    requires bounds { at + 64 ≤ length text.now }
    requires begun { (k : ℕ) → k < 64 → bit firsts k ≡ true → bit scalars k ≡ true }
    ensures whole { (k : ℕ) → k < 64 → bit firsts k ≡ true → ((j : ℕ) → j ≤ k → bit result.wrong j ≡ false) → IsWhole text.now at (bit scalars) (λ j. is_stop (slice_index text.now (at + j))) k }
{
    let mut rest = firsts;
    let mut taken = 0;
    while rest != 0 {
        let k = rest.trailing_zeros() as usize;
        if !is_whole(text, at, scalars, k) {
            return Visited {
                wrong: 1 << k,
                taken,
            };
        }
        taken |= run_from(scalars, k);
        rest &= rest - 1;
    }
    Visited { wrong: 0, taken }
}

/// The verdict on the numbers and literals of a block.
#[derive(Clone, Copy)]
pub(crate) struct Judged {
    /// Where one of them is wrong: at its first byte or behind it, at most at the byte behind its last.
    pub wrong: u64,
    /// The first bytes of those that were looked at one by one: the literals.
    pub one_by_one: u64,
}

/// Judges the runs that begin at these places. Each is one whole scalar whose end is before a place up to which nothing is
/// wrong.
#[inline(always)]
pub(crate) fn judged_scalars(
    text: &[u8],
    at: usize,
    block: u8x64,
    scalars: u64,
    firsts: u64,
) -> Judged
    requires bounds { at + 64 ≤ length text.now }
    requires block { block ≡ chunk at 64 text.now }
    requires begun { (k : ℕ) → k < 64 → bit firsts k ≡ true → bit scalars k ≡ true }
    ensures whole { (k n : ℕ) → k ≤ n → n < 64 → bit scalars n ≡ false → bit firsts k ≡ true → ((j : ℕ) → j ≤ n → bit result.wrong j ≡ false) → IsWhole text.now at (bit scalars) (λ j. is_stop (slice_index text.now (at + j))) k }
{
    let numbers = firsts & number_firsts(block);
    let one_by_one = firsts & !numbers;
    let visited = visit(text, at, scalars, one_by_one);
    if numbers == 0 {
        return Judged {
            wrong: visited.wrong,
            one_by_one,
        };
    }
    Judged {
        wrong: visited.wrong | wrong_number(text, at, block, scalars, visited.taken, numbers),
        one_by_one,
    }
}
