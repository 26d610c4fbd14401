// Ends of runs of bytes that keep the place and the height, found 16 bytes at a time.
ghost use Rattle.std.specs.Prelude.{◌≡◌, ◌≤◌, ◌+◌, ℕ, Bool, not, length, slice_index, slice_range, map};
ghost use Rattle.std.specs.Simd.Lanes.{mask_l};
ghost use Rattle.std.specs.Slice.Scan.{HoldsNowhere, IsFirstPlace, Marks};
ghost use Rattle.jx_each.specs.inside.Runs.{AreIn, is_blank, is_char, is_deep, is_flat};

use std::simd::prelude::*;

/// A set of bytes, with which one byte and 16 are compared at a time.
trait ByteSet {
    ghost goes_on: { ℕ → Bool };

    /// Whether the byte is in the set.
    fn has(byte: u8) -> bool
        ensures { result ≡ goes_on byte };

    /// Bit k says that byte k of 16 is not in the set.
    fn others(block: u8x16) -> u64
        ensures { result ≡ mask_l (map (λ byte. not (goes_on byte)) block) };
}

/// The bytes of a string but for quotation marks and backslashes.
struct Chars;

/// The bytes between tokens in two containers or more, but for white space, quotation marks and brackets.
struct Deep;

/// The bytes between tokens in two containers or more, but for commas and colons too.
struct Flat;

/// The white space that may stand between tokens (RFC 8259, section 2).
struct Blanks;

impl ByteSet for Chars {
    ghost goes_on = { is_char };

    #[inline(always)]
    fn has(byte: u8) -> bool {
        byte != b'"' && byte != b'\\'
    }

    #[inline(always)]
    fn others(block: u8x16) -> u64 {
        (block.simd_eq(u8x16::splat(b'"')) | block.simd_eq(u8x16::splat(b'\\'))).to_bitmask()
    }
}

impl ByteSet for Deep {
    ghost goes_on = { is_deep };

    #[inline(always)]
    fn has(byte: u8) -> bool {
        byte >= 0x23 && byte != b'[' && byte != b']' && byte != b'{' && byte != b'}'
    }

    #[inline(always)]
    fn others(block: u8x16) -> u64 {
        // In ASCII this bit alone distinguishes brackets from braces.
        let folded = block | u8x16::splat(0x20);
        (block.simd_lt(u8x16::splat(0x23))
            | folded.simd_eq(u8x16::splat(b'{'))
            | folded.simd_eq(u8x16::splat(b'}'))).to_bitmask()
    }
}

impl ByteSet for Flat {
    ghost goes_on = { is_flat };

    #[inline(always)]
    fn has(byte: u8) -> bool {
        Deep::has(byte) && byte != b',' && byte != b':'
    }

    #[inline(always)]
    fn others(block: u8x16) -> u64 {
        let folded = block | u8x16::splat(0x20);
        (block.simd_lt(u8x16::splat(0x23))
            | folded.simd_eq(u8x16::splat(b'{'))
            | folded.simd_eq(u8x16::splat(b'}'))
            | block.simd_eq(u8x16::splat(b','))
            | block.simd_eq(u8x16::splat(b':'))).to_bitmask()
    }
}

impl ByteSet for Blanks {
    ghost goes_on = { is_blank };

    #[inline(always)]
    fn has(byte: u8) -> bool {
        byte == b' ' || byte == b'\t' || byte == b'\n' || byte == b'\r'
    }

    #[inline(always)]
    fn others(block: u8x16) -> u64 {
        (block.simd_ne(u8x16::splat(b' '))
            & block.simd_ne(u8x16::splat(b'\t'))
            & block.simd_ne(u8x16::splat(b'\n'))
            & block.simd_ne(u8x16::splat(b'\r'))).to_bitmask()
    }
}

/// Bit k says that the byte k places after `i` is not in the set, for the 16 bytes from `i` on.
#[inline(always)]
fn marks<R: ByteSet>(bytes: &[u8], i: usize) -> u64
    requires { i + 16 ≤ length bytes.now }
    ensures { Marks (λ k. not (R.goes_on (slice_index bytes.now k))) i 16 result }
{
    R::others(u8x16::from_slice(&bytes[i..]))
}

/// The first offset from `from` on whose byte is not in the set, or the end. Most runs end in their first 16 bytes.
#[inline(always)]
fn run_end<R: ByteSet>(bytes: &[u8], from: usize) -> usize
    requires { from ≤ length bytes.now }
    ensures { IsFirstPlace (λ k. not (R.goes_on (slice_index bytes.now k))) from (length bytes.now) result }
{
    if bytes.len() - from < 16 {
        return run_end_by_one::<R>(bytes, from, from);
    }
    let found = marks::<R>(bytes, from);
    if found != 0 {
        return from + found.trailing_zeros() as usize;
    }
    long_run_end::<R>(bytes, from, from + 16)
}

/// `run_end`, where all bytes before `seen` are in the set: it goes on 16 bytes at a time.
fn long_run_end<R: ByteSet>(bytes: &[u8], from: usize, seen: usize) -> usize
    requires ordered { (from ≤ seen) × (seen ≤ length bytes.now) }
    requires passed { HoldsNowhere (λ k. not (R.goes_on (slice_index bytes.now k))) from seen }
    ensures { IsFirstPlace (λ k. not (R.goes_on (slice_index bytes.now k))) from (length bytes.now) result }
{
    let mut i = seen;
    while bytes.len() - i >= 16 {
        let found = marks::<R>(bytes, i);
        if found != 0 {
            return i + found.trailing_zeros() as usize;
        }
        i += 16;
    }
    run_end_by_one::<R>(bytes, from, i)
}

/// `run_end`, where all bytes before `seen` are in the set: it goes on one byte at a time.
fn run_end_by_one<R: ByteSet>(bytes: &[u8], from: usize, seen: usize) -> usize
    requires ordered { (from ≤ seen) × (seen ≤ length bytes.now) }
    requires passed { HoldsNowhere (λ k. not (R.goes_on (slice_index bytes.now k))) from seen }
    ensures { IsFirstPlace (λ k. not (R.goes_on (slice_index bytes.now k))) from (length bytes.now) result }
{
    let mut i = seen;
    while i < bytes.len() && R::has(bytes[i]) {
        i += 1;
    }
    i
}

/// The first offset from `from` on of a quotation mark or a backslash, or the end.
#[inline(always)]
pub(crate) fn chars_end(bytes: &[u8], from: usize) -> usize
    requires { from ≤ length bytes.now }
    ensures bounds { (from ≤ result) × (result ≤ length bytes.now) }
    ensures run { AreIn is_char (slice_range bytes.now from result) }
{
    run_end::<Chars>(bytes, from)
}

/// The first offset from `from` on of a bracket, or of a byte up to the quotation mark, or the end.
#[inline(always)]
pub(crate) fn deep_end(bytes: &[u8], from: usize) -> usize
    requires { from ≤ length bytes.now }
    ensures bounds { (from ≤ result) × (result ≤ length bytes.now) }
    ensures run { AreIn is_deep (slice_range bytes.now from result) }
{
    run_end::<Deep>(bytes, from)
}

/// The first offset from `from` on of a bracket, a comma, a colon, or of a byte up to the quotation mark, or the end.
#[inline(always)]
pub(crate) fn flat_end(bytes: &[u8], from: usize) -> usize
    requires { from ≤ length bytes.now }
    ensures bounds { (from ≤ result) × (result ≤ length bytes.now) }
    ensures run { AreIn is_flat (slice_range bytes.now from result) }
{
    run_end::<Flat>(bytes, from)
}

/// The first offset from `from` on of a byte that is no white space, or the end.
#[inline(always)]
pub(crate) fn blanks_end(bytes: &[u8], from: usize) -> usize
    requires { from ≤ length bytes.now }
    ensures bounds { (from ≤ result) × (result ≤ length bytes.now) }
    ensures run { AreIn is_blank (slice_range bytes.now from result) }
{
    run_end::<Blanks>(bytes, from)
}
