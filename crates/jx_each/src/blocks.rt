// Where strings and escapes stand among 64 bytes, and where brackets, white space, commas and colons stand outside of
// strings.
ghost use Rattle.std.specs.Prelude.{◌≡◌, ◌+◌, ◌-◌, ◌≤◌, ◌<◌, ◌==◌, ◌&&◌, ℕ, suc, not, true, false, get_or, length, map, IfSome};
ghost use Rattle.std.specs.Simd.Lanes.{mask_l};
ghost use Rattle.jx_lex.specs.inside.Bits.{bit};
ghost use Rattle.jx_each.specs.inside.Blocks.{IsTold};
ghost use Rattle.jx_each.specs.inside.Runs.{is_blank, is_border, is_bracket, is_low};

use std::simd::prelude::*;

/// How many bytes a block has.
pub(crate) const BLOCK: usize = 64;

/// Words of a block: bit k stands for byte k.
#[derive(Clone, Copy, Debug)]
pub(crate) struct Words {
    /// Whether the byte after it stands in a string.
    pub strings: u64,
    /// Whether the byte after it is escaped.
    pub escapes: u64,
    /// Whether it is a bracket outside of strings.
    pub brackets: u64,
    /// Whether it is a comma or a colon outside of strings.
    pub borders: u64,
    /// Whether it is white space outside of strings.
    pub gaps: u64,
    /// How many bytes of the block are looked at: all but the last one where that one escapes the byte after it.
    pub len: usize,
}

/// Which bytes are quotation marks.
#[inline(always)]
fn quotes(block: u8x64) -> u64
    ensures { result ≡ mask_l (map (λ byte. byte == 0x22) block) }
{
    block.simd_eq(u8x64::splat(b'"')).to_bitmask()
}

/// Which bytes are backslashes.
#[inline(always)]
fn backslashes(block: u8x64) -> u64
    ensures { result ≡ mask_l (map (λ byte. byte == 0x5c) block) }
{
    block.simd_eq(u8x64::splat(b'\\')).to_bitmask()
}

/// Which bytes are brackets.
#[inline(always)]
fn brackets(block: u8x64) -> u64
    ensures { result ≡ mask_l (map is_bracket block) }
{
    // In ASCII this bit alone distinguishes brackets from braces.
    let folded = block | u8x64::splat(0x20);
    (folded.simd_eq(u8x64::splat(b'{')) | folded.simd_eq(u8x64::splat(b'}'))).to_bitmask()
}

/// Which bytes are commas and colons.
#[inline(always)]
fn borders(block: u8x64) -> u64
    ensures { result ≡ mask_l (map is_border block) }
{
    (block.simd_eq(u8x64::splat(b',')) | block.simd_eq(u8x64::splat(b':'))).to_bitmask()
}

/// Which bytes stand up to the space.
#[inline(always)]
fn lows(block: u8x64) -> u64
    ensures { result ≡ mask_l (map is_low block) }
{
    block.simd_lt(u8x64::splat(0x21)).to_bitmask()
}

/// Which bytes are white space.
#[inline(always)]
fn blanks(block: u8x64) -> u64
    ensures { result ≡ mask_l (map is_blank block) }
{
    (block.simd_eq(u8x64::splat(b' '))
        | block.simd_eq(u8x64::splat(b'\t'))
        | block.simd_eq(u8x64::splat(b'\n'))
        | block.simd_eq(u8x64::splat(b'\r'))).to_bitmask()
}

/// Which bytes are white space outside of strings. Mostly no byte there is low enough for one.
#[inline(always)]
fn gaps(block: u8x64, strings: u64) -> u64
    ensures { (k : ℕ) → k < 64 → bit result k ≡ (is_blank (get_or block k 0) && not (bit strings k)) }
{
    if lows(block) & !strings == 0 {
        return 0;
    }
    blanks(block) & !strings
}

/// Which bytes are escaped, by the backslashes: every second one of a run, and the byte after a run of odd length.
/// Taken from the odd places, a run borrows up to its end. Callers look at each bit once more.
#[inline(always)]
fn escaped_by(slashes: u64) -> u64 {
    let odd = 0xaaaa_aaaa_aaaa_aaaa;
    let series = (slashes << 1 | odd).wrapping_sub(slashes);
    series ^ odd ^ slashes
}

/// For each bit whether an odd number of bits is set up to it.
#[inline(always)]
fn parities(bits: u64) -> u64 {
    let two = bits ^ (bits << 1);
    let four = two ^ (two << 2);
    let eight = four ^ (four << 4);
    let sixteen = eight ^ (eight << 8);
    let all = sixteen ^ (sixteen << 16);
    all ^ (all << 32)
}

/// A word whose lowest bit alone may be set.
#[inline(always)]
pub(crate) fn lowest(set: bool) -> u64
    ensures first { bit result 0 ≡ set }
    ensures others { (k : ℕ) → bit result (suc k) ≡ false }
{
    if set { 1 } else { 0 }
}

/// All bits, or none.
#[inline(always)]
fn all(set: bool) -> u64 {
    if set { u64::MAX } else { 0 }
}

/// How many bytes of a block to look at, so that the byte after them is not escaped; none where there are no such
/// bytes.
#[inline(always)]
fn len_by(escapes: u64) -> Option<usize>
    ensures bounds { IfSome result (λ len. (63 ≤ len) × (len ≤ 64)) }
    ensures ends { IfSome result (λ len. bit escapes (len - 1) ≡ false) }
{
    if !is_set(escapes, 63) {
        return Some(BLOCK);
    }
    if is_set(escapes, 62) {
        return None;
    }
    Some(BLOCK - 1)
}

/// The words of a block whose first byte stands inside a string, or outside of strings, and is not escaped; none where
/// they cannot be known.
#[inline(always)]
pub(crate) fn words_of(block: u8x64, inside: bool) -> Option<Words>
    ensures { IfSome result (IsTold block inside) }
{
    let slashes = backslashes(block);
    let escaped = escaped_by(slashes);
    let marks = quotes(block) & !escaped;
    let strings = parities(marks) ^ all(inside);
    let before = strings << 1 | lowest(inside);
    let escapes = slashes & before & strings & !escaped;
    // The parities and the escapes are looked at once more, bit by bit, so that all that follows rests on this alone.
    let wrong = strings ^ before ^ marks;
    let astray = escaped ^ (escapes << 1);
    if wrong != 0 || astray != 0 {
        return None;
    }
    let Some(len) = len_by(escapes) else {
        return None;
    };
    Some(Words {
        strings,
        escapes,
        brackets: brackets(block) & !strings,
        borders: borders(block) & !strings,
        gaps: gaps(block, strings),
        len,
    })
}

/// The first place from `at` on whose bit is set, or 64.
#[inline(always)]
pub(crate) fn next_set(bits: u64, at: usize) -> usize
    requires { at < 64 }
    ensures bounds { (at ≤ result) × (result ≤ 64) }
    ensures none { (k : ℕ) → at ≤ k → k < result → bit bits k ≡ false }
    ensures set { result < 64 → bit bits result ≡ true }
{
    let rest = bits >> at;
    if rest == 0 {
        return BLOCK;
    }
    at + rest.trailing_zeros() as usize
}

/// Whether the bit of a place is set.
#[inline(always)]
pub(crate) fn is_set(bits: u64, at: usize) -> bool
    requires { at < 64 }
    ensures { result ≡ bit bits at }
{
    bits >> at & 1 == 1
}

/// The first place from `at` on whose bit is not set, or 64.
#[inline(always)]
pub(crate) fn next_clear(bits: u64, at: usize) -> usize
    requires { at < 64 }
    ensures bounds { (at ≤ result) × (result ≤ 64) }
    ensures all { (k : ℕ) → at ≤ k → k < result → bit bits k ≡ true }
    ensures past { bit bits at ≡ true → at < result }
{
    next_set(!bits, at)
}
