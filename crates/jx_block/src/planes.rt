// Sets of bytes as words: bit k of a word says whether byte k of a block is in the set.
ghost use Rattle.std.specs.Prelude.{◌≡◌, ◌⊎◌, ◌==◌, ◌<◌, ◌&&◌, ◌||◌, ℕ, get_or, map, not};
ghost use Rattle.std.specs.Simd.Lanes.{mask_l};
ghost use Rattle.jx_lex.specs.inside.Bits.{bit};
ghost use Rattle.jx_lex.specs.Uneventful.{is_blank, is_digit, is_escaped, is_plain};
ghost use Rattle.jx_block.specs.inside.Planes.{is_exponent, is_literal, is_space, is_stop, is_structural};
ghost use Rattle.jx_block.specs.Kinds.{begins_scalar};

use std::simd::prelude::*;

/// Quotation marks.
#[inline(always)]
pub(crate) fn quotes(block: u8x64) -> u64
    ensures { result ≡ mask_l (map (λ byte. byte == 0x22) block) }
{
    block.simd_eq(u8x64::splat(b'"')).to_bitmask()
}

/// Backslashes.
#[inline(always)]
pub(crate) fn backslashes(block: u8x64) -> u64
    ensures { result ≡ mask_l (map (λ byte. byte == 0x5c) block) }
{
    block.simd_eq(u8x64::splat(b'\\')).to_bitmask()
}

/// Bytes that may follow a backslash, other than `u`, where any byte is escaped.
#[inline(always)]
pub(crate) fn letters_where(block: u8x64, escaped: u64) -> u64
    ensures { (escaped ≡ 0) ⊎ (result ≡ mask_l (map is_escaped block)) }
{
    if escaped == 0 {
        return 0;
    }
    letters(block)
}

/// Bytes that may follow a backslash, other than `u`.
#[inline(always)]
fn letters(block: u8x64) -> u64
    ensures { result ≡ mask_l (map is_escaped block) }
{
    (block.simd_eq(u8x64::splat(b'"'))
        | block.simd_eq(u8x64::splat(b'\\'))
        | block.simd_eq(u8x64::splat(b'/'))
        | block.simd_eq(u8x64::splat(b'b'))
        | block.simd_eq(u8x64::splat(b'f'))
        | block.simd_eq(u8x64::splat(b'n'))
        | block.simd_eq(u8x64::splat(b'r'))
        | block.simd_eq(u8x64::splat(b't'))).to_bitmask()
}

/// Bytes that are no ordinary ASCII of a string.
#[inline(always)]
pub(crate) fn others(block: u8x64) -> u64
    ensures { result ≡ mask_l (map (λ byte. not (is_plain byte)) block) }
{
    (block.simd_eq(u8x64::splat(b'"'))
        | block.simd_eq(u8x64::splat(b'\\'))
        | (block - u8x64::splat(0x20)).simd_ge(u8x64::splat(0x60))).to_bitmask()
}

/// Spaces and ends of lines.
#[inline(always)]
fn spaces(block: u8x64) -> u64
    ensures { result ≡ mask_l (map is_space block) }
{
    (block.simd_eq(u8x64::splat(b' '))
        | block.simd_eq(u8x64::splat(b'\n'))
        | block.simd_eq(u8x64::splat(b'\r'))).to_bitmask()
}

/// Bytes that mostly follow a number or a literal.
#[inline(always)]
pub(crate) fn stops(block: u8x64) -> u64
    ensures { (k : ℕ) → k < 64 → bit result k ≡ is_stop (get_or block k 0) }
{
    equal(block, b',') | equal(block, b']') | equal(block, b'}') | spaces(block)
}

/// Digits.
#[inline(always)]
pub(crate) fn digits(block: u8x64) -> u64
    ensures { result ≡ mask_l (map is_digit block) }
{
    (block - u8x64::splat(b'0'))
        .simd_le(u8x64::splat(9))
        .to_bitmask()
}

/// `e` and `E`.
#[inline(always)]
pub(crate) fn exponent_letters(block: u8x64) -> u64
    ensures { result ≡ mask_l (map is_exponent block) }
{
    (block.simd_eq(u8x64::splat(b'e')) | block.simd_eq(u8x64::splat(b'E'))).to_bitmask()
}

/// White space.
#[inline(always)]
pub(crate) fn blanks(block: u8x64) -> u64
    ensures { (k : ℕ) → k < 64 → bit result k ≡ is_blank (get_or block k 0) }
{
    spaces(block) | equal(block, b'\t')
}

/// Structural characters. Each has a word of its own, since the kinds of tokens are made of these too.
#[inline(always)]
pub(crate) fn structurals(block: u8x64) -> u64
    ensures { (k : ℕ) → k < 64 → bit result k ≡ is_structural (get_or block k 0) }
{
    equal(block, b'[')
        | equal(block, b']')
        | equal(block, b'{')
        | equal(block, b'}')
        | equal(block, b':')
        | equal(block, b',')
}

/// One byte.
#[inline(always)]
pub(crate) fn equal(block: u8x64, byte: u8) -> u64
    ensures { result ≡ mask_l (map (λ b. b == byte) block) }
{
    block.simd_eq(u8x64::splat(byte)).to_bitmask()
}

/// The first bytes of numbers.
#[inline(always)]
pub(crate) fn number_firsts(block: u8x64) -> u64
    ensures { (k : ℕ) → k < 64 → bit result k ≡ (is_digit (get_or block k 0) || (get_or block k 0 == 0x2d)) }
{
    digits(block) | equal(block, b'-')
}

/// The first bytes of literals.
#[inline(always)]
fn literal_firsts(block: u8x64) -> u64
    ensures { result ≡ mask_l (map is_literal block) }
{
    (block.simd_eq(u8x64::splat(b't'))
        | block.simd_eq(u8x64::splat(b'f'))
        | block.simd_eq(u8x64::splat(b'n'))).to_bitmask()
}

/// Those of these places of a block at which a number or a literal begins.
#[inline(always)]
pub(crate) fn scalars_among(block: u8x64, places: u64) -> u64
    ensures { (k : ℕ) → k < 64 → bit result k ≡ (bit places k && begins_scalar (get_or block k 0)) }
{
    let numbers = places & number_firsts(block);
    let rest = places & !numbers;
    if rest == 0 {
        return numbers;
    }
    numbers | (rest & literal_firsts(block))
}
