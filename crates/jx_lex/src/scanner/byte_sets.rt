// Where bytes end over which the lexical machine keeps its state with no event. They are looked at 16 at a time, and
// where many follow 64.
ghost use Rattle.std.specs.Prelude.{◌≡◌, ◌≤◌, ◌<◌, ◌+◌, ℕ, Bool, not, length, slice_index, slice_range, map};
ghost use Rattle.std.specs.Simd.Lanes.{mask_l};
ghost use Rattle.std.specs.Slice.Scan.{HoldsNowhere, IsFirstPlace, Marks};
ghost use Rattle.jx_lex.specs.declared.alphabet.state.LexState.TheVariants as state;
ghost use Rattle.jx_lex.specs.Uneventful.{AllKeep, is_plain, is_unescaped, is_digit, is_blank};

use std::simd::prelude::*;

/// A set of bytes, with which one byte, 16 and 64 are compared at a time.
trait ByteSet {
    ghost goes_on: { ℕ → Bool };

    /// Whether the byte is in the set.
    fn has(byte: u8) -> bool
        ensures { result ≡ goes_on byte };

    /// Bit k says that byte k of 16 is not in the set.
    fn others(block: u8x16) -> u64
        ensures { result ≡ mask_l (map (λ byte. not (goes_on byte)) block) };

    /// Bit k says that byte k of 64 is not in the set.
    fn others_of_64(block: u8x64) -> u64
        ensures { result ≡ mask_l (map (λ byte. not (goes_on byte)) block) };
}

/// Ordinary ASCII in a string.
struct Plain;

/// The bytes of a string but for quotation marks, backslashes and control characters.
struct Unescaped;

/// The digits, 30 to 39.
struct Digits;

/// The white space that may stand between tokens (RFC 8259, section 2).
struct Blanks;

impl ByteSet for Plain {
    ghost goes_on = { is_plain };

    #[inline(always)]
    fn has(byte: u8) -> bool {
        byte >= 0x20 && byte <= 0x7f && byte != b'"' && byte != b'\\'
    }

    #[inline(always)]
    fn others(block: u8x16) -> u64 {
        (block.simd_eq(u8x16::splat(b'"'))
            | block.simd_eq(u8x16::splat(b'\\'))
            | (block - u8x16::splat(0x20)).simd_ge(u8x16::splat(0x60))).to_bitmask()
    }

    #[inline(always)]
    fn others_of_64(block: u8x64) -> u64 {
        (block.simd_eq(u8x64::splat(b'"'))
            | block.simd_eq(u8x64::splat(b'\\'))
            | (block - u8x64::splat(0x20)).simd_ge(u8x64::splat(0x60))).to_bitmask()
    }
}

impl ByteSet for Unescaped {
    ghost goes_on = { is_unescaped };

    #[inline(always)]
    fn has(byte: u8) -> bool {
        byte >= 0x20 && byte != b'"' && byte != b'\\'
    }

    #[inline(always)]
    fn others(block: u8x16) -> u64 {
        (block.simd_eq(u8x16::splat(b'\\'))
            | block.simd_eq(u8x16::splat(b'"'))
            | block.simd_lt(u8x16::splat(0x20))).to_bitmask()
    }

    #[inline(always)]
    fn others_of_64(block: u8x64) -> u64 {
        (block.simd_eq(u8x64::splat(b'\\'))
            | block.simd_eq(u8x64::splat(b'"'))
            | block.simd_lt(u8x64::splat(0x20))).to_bitmask()
    }
}

impl ByteSet for Digits {
    ghost goes_on = { is_digit };

    #[inline(always)]
    fn has(byte: u8) -> bool {
        byte >= b'0' && byte <= b'9'
    }

    #[inline(always)]
    fn others(block: u8x16) -> u64 {
        (block - u8x16::splat(b'0'))
            .simd_ge(u8x16::splat(10))
            .to_bitmask()
    }

    #[inline(always)]
    fn others_of_64(block: u8x64) -> u64 {
        (block - u8x64::splat(b'0'))
            .simd_ge(u8x64::splat(10))
            .to_bitmask()
    }
}

impl ByteSet for Blanks {
    ghost goes_on = { is_blank };

    #[inline(always)]
    fn has(byte: u8) -> bool {
        byte == b' ' || byte == b'\t' || byte == b'\n' || byte == b'\r'
    }

    #[inline(always)]
    fn others(block: u8x16) -> u64 {
        (block.simd_ne(u8x16::splat(b' '))
            & block.simd_ne(u8x16::splat(b'\t'))
            & block.simd_ne(u8x16::splat(b'\n'))
            & block.simd_ne(u8x16::splat(b'\r'))).to_bitmask()
    }

    #[inline(always)]
    fn others_of_64(block: u8x64) -> u64 {
        (block.simd_ne(u8x64::splat(b' '))
            & block.simd_ne(u8x64::splat(b'\t'))
            & block.simd_ne(u8x64::splat(b'\n'))
            & block.simd_ne(u8x64::splat(b'\r'))).to_bitmask()
    }
}

/// Bit k says that byte k of 64 is no ordinary ASCII of a string.
#[inline(always)]
pub(crate) fn not_plain(block: u8x64) -> u64
    ensures { result ≡ mask_l (map (λ byte. not (is_plain byte)) block) }
{
    Plain::others_of_64(block)
}

/// Bit k says that the byte k places after `i` is not in the set, for the 16 bytes from `i` on.
#[inline(always)]
fn marks<R: ByteSet>(text: &[u8], i: usize) -> u64
    requires { i + 16 ≤ length text.now }
    ensures { Marks (λ k. not (R.goes_on (slice_index text.now k))) i 16 result }
{
    R::others(u8x16::from_slice(&text[i..]))
}

/// Bit k says that the byte k places after `i` is not in the set, for the 64 bytes from `i` on.
#[inline(always)]
fn marks_of_64<R: ByteSet>(text: &[u8], i: usize) -> u64
    requires { i + 64 ≤ length text.now }
    ensures { Marks (λ k. not (R.goes_on (slice_index text.now k))) i 64 result }
{
    R::others_of_64(u8x64::from_slice(&text[i..]))
}

/// The first offset from `from` on whose byte is not in the set, or `to`. Most searches end in their first 16 bytes.
/// Bytes after `to` are looked at where the text has them, and change nothing.
#[inline(always)]
fn members_end<R: ByteSet>(text: &[u8], from: usize, to: usize) -> usize
    requires { (from ≤ to) × (to ≤ length text.now) }
    ensures { IsFirstPlace (λ k. not (R.goes_on (slice_index text.now k))) from to result }
{
    if text.len() - from < 16 {
        return members_end_by_one::<R>(text, from, from, to);
    }
    let found = marks::<R>(text, from);
    if found != 0 {
        return (from + found.trailing_zeros() as usize).min(to);
    }
    if to - from <= 16 {
        return to;
    }
    long_members_end::<R>(text, from, from + 16, to)
}

/// `members_end`, where all bytes before `seen` are in the set: it goes on 64 bytes at a time.
fn long_members_end<R: ByteSet>(text: &[u8], from: usize, seen: usize, to: usize) -> usize
    requires ordered { (from ≤ seen) × (seen ≤ to) × (to ≤ length text.now) }
    requires passed { HoldsNowhere (λ k. not (R.goes_on (slice_index text.now k))) from seen }
    ensures { IsFirstPlace (λ k. not (R.goes_on (slice_index text.now k))) from to result }
{
    let mut i = seen;
    while to - i >= 64 {
        let found = marks_of_64::<R>(text, i);
        if found != 0 {
            return i + found.trailing_zeros() as usize;
        }
        i += 64;
    }
    members_end_by_16::<R>(text, from, i, to)
}

/// `members_end`, where all bytes before `seen` are in the set: it goes on 16 bytes at a time.
#[inline(always)]
fn members_end_by_16<R: ByteSet>(text: &[u8], from: usize, seen: usize, to: usize) -> usize
    requires ordered { (from ≤ seen) × (seen ≤ to) × (to ≤ length text.now) }
    requires passed { HoldsNowhere (λ k. not (R.goes_on (slice_index text.now k))) from seen }
    ensures { IsFirstPlace (λ k. not (R.goes_on (slice_index text.now k))) from to result }
{
    let mut i = seen;
    while i < to && text.len() - i >= 16 {
        let found = marks::<R>(text, i);
        if found != 0 {
            return (i + found.trailing_zeros() as usize).min(to);
        }
        i += 16;
    }
    members_end_by_one::<R>(text, from, i.min(to), to)
}

/// `members_end`, where all bytes before `seen` are in the set: it goes on one byte at a time.
#[inline(always)]
fn members_end_by_one<R: ByteSet>(text: &[u8], from: usize, seen: usize, to: usize) -> usize
    requires ordered { (from ≤ seen) × (seen ≤ to) × (to ≤ length text.now) }
    requires passed { HoldsNowhere (λ k. not (R.goes_on (slice_index text.now k))) from seen }
    ensures { IsFirstPlace (λ k. not (R.goes_on (slice_index text.now k))) from to result }
{
    let mut i = seen;
    while i < to && R::has(text[i]) {
        i += 1;
    }
    i
}

/// The first offset from `from` on whose byte is no ordinary ASCII of a string, or `to`: a quotation mark, a backslash, a
/// byte below 20 or above 7F.
#[inline(always)]
pub fn plain_end(text: &[u8], from: usize, to: usize) -> usize
    requires { (from ≤ to) × (to ≤ length text.now) }
    ensures bounds { (from ≤ result) × (result ≤ to) }
    ensures kept { AllKeep state.Str (slice_range text.now from result) }
    ensures first { IsFirstPlace (λ k. not (is_plain (slice_index text.now k))) from to result }
{
    members_end::<Plain>(text, from, to)
}

/// The first offset from `from` on whose byte is a quotation mark, a backslash or a control character, or `to`. What it
/// skips is only known to be whole characters where the text is known to be UTF-8.
#[inline(always)]
pub(crate) fn unescaped_end(text: &[u8], from: usize, to: usize) -> usize
    requires { (from ≤ to) × (to ≤ length text.now) }
    ensures first { IsFirstPlace (λ k. not (is_unescaped (slice_index text.now k))) from to result }
{
    members_end::<Unescaped>(text, from, to)
}

/// The first offset from `from` on whose byte is no digit, or `to`.
#[inline(always)]
pub fn digit_end(text: &[u8], from: usize, to: usize) -> usize
    requires { (from ≤ to) × (to ≤ length text.now) }
    ensures bounds { (from ≤ result) × (result ≤ to) }
    ensures int { AllKeep state.Int (slice_range text.now from result) }
    ensures frac { AllKeep state.Frac (slice_range text.now from result) }
    ensures exp { AllKeep state.Exp (slice_range text.now from result) }
    ensures string { AllKeep state.Str (slice_range text.now from result) }
    ensures first { IsFirstPlace (λ k. not (is_digit (slice_index text.now k))) from to result }
{
    members_end::<Digits>(text, from, to)
}

/// The first offset from `from` on whose byte is no white space, or `to`.
#[inline(always)]
pub(crate) fn blank_end(text: &[u8], from: usize, to: usize) -> usize
    requires { (from ≤ to) × (to ≤ length text.now) }
    ensures bounds { (from ≤ result) × (result ≤ to) }
    ensures kept { AllKeep state.Gap (slice_range text.now from result) }
    ensures first { IsFirstPlace (λ k. not (is_blank (slice_index text.now k))) from to result }
{
    members_end::<Blanks>(text, from, to)
}
