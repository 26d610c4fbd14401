// Escapes inside a string and the ordinary ASCII between them, 64 bytes at a time: bit k of a word stands for byte k.
ghost use Rattle.std.specs.Prelude.{◌≡◌, ◌≤◌, ◌<◌, ◌+◌, ◌==◌, ℕ, true, false, length, get_or, map, take, slice_range};
ghost use Rattle.std.specs.Simd.Lanes.{mask_l};
ghost use Rattle.jx_lex.specs.declared.alphabet.state.LexState.TheVariants as state;
ghost use Rattle.jx_lex.specs.inside.Bits.{bit};
ghost use Rattle.jx_lex.specs.Uneventful.{Leads, is_escaped, is_hex};

use crate::scanner::byte_sets::not_plain;
use std::simd::prelude::*;

/// How many bytes are read at a time.
const BLOCK: usize = 64;

/// The fewest bytes that are passed in a block of ordinary ASCII and escapes alone: its last byte is left, and so is an
/// escape of six bytes that begins in its last five.
const LEAST: usize = 58;

/// The bits with an even place.
const EVEN: u64 = 0x5555_5555_5555_5555;

/// Which bytes are backslashes.
#[inline(always)]
fn backslashes(block: u8x64) -> u64
    ensures { result ≡ mask_l (map (λ byte. byte == 0x5c) block) }
{
    block.simd_eq(u8x64::splat(b'\\')).to_bitmask()
}

/// Which bytes are a `u`.
#[inline(always)]
fn letters_u(block: u8x64) -> u64
    ensures { result ≡ mask_l (map (λ byte. byte == 0x75) block) }
{
    block.simd_eq(u8x64::splat(b'u')).to_bitmask()
}

/// Which bytes make an escape of two bytes after a backslash.
#[inline(always)]
fn short_escapes(block: u8x64) -> u64
    ensures { result ≡ mask_l (map is_escaped block) }
{
    (block.simd_eq(u8x64::splat(b'"'))
        | block.simd_eq(u8x64::splat(b'\\'))
        | block.simd_eq(u8x64::splat(b'/'))
        | block.simd_eq(u8x64::splat(b'b'))
        | block.simd_eq(u8x64::splat(b'f'))
        | block.simd_eq(u8x64::splat(b'n'))
        | block.simd_eq(u8x64::splat(b'r'))
        | block.simd_eq(u8x64::splat(b't'))).to_bitmask()
}

/// Which bytes are hexadecimal digits. Letters differ from small ones in one bit.
#[inline(always)]
fn hex_digits(block: u8x64) -> u64
    ensures { result ≡ mask_l (map is_hex block) }
{
    let decimal = (block - u8x64::splat(b'0')).simd_lt(u8x64::splat(10));
    let letter = ((block | u8x64::splat(0x20)) - u8x64::splat(b'a')).simd_lt(u8x64::splat(6));
    (decimal | letter).to_bitmask()
}

/// Which bytes follow an odd number of backslashes: of each run of backslashes the first, the third and so on escape
/// the byte after them. The first byte is after none.
#[inline(always)]
fn behind_odd_runs(backslashes: u64) -> u64
    ensures first { bit result 0 ≡ false }
{
    let behind = backslashes << 1;
    let odd_starts = backslashes & !EVEN & !behind;
    // The sum runs through each run that begins at an odd place, up to the byte after it.
    (EVEN ^ (odd_starts.wrapping_add(backslashes) << 1)) & behind
}

/// The four bytes after each of these.
#[inline(always)]
fn four_behind(units: u64) -> u64
    ensures { (k j : ℕ) → 1 ≤ j → j ≤ 4 → k + j < 64 → bit units k ≡ true → bit result (k + j) ≡ true }
{
    units << 1 | units << 2 | units << 3 | units << 4
}

/// Which of these bytes are no hexadecimal digits. Most blocks have no escape that asks for digits.
#[inline(always)]
fn not_hex(block: u8x64, digits: u64) -> u64
    ensures { (k : ℕ) → k < 64 → bit digits k ≡ true → bit result k ≡ false → is_hex (get_or block k 0) ≡ true }
{
    if digits == 0 {
        return 0;
    }
    digits & !hex_digits(block)
}

/// The last place that is not inside an escape and has nothing wrong before it, or 0.
#[inline(always)]
fn last_boundary(inside: u64, wrong: u64) -> usize
    ensures few { result < 64 }
    ensures boundary { 0 < result → bit inside result ≡ false }
    ensures right { (k : ℕ) → k < result → bit wrong k ≡ false }
{
    // The bits up to the lowest one of `wrong`, or all.
    let up_to_wrong = wrong ^ wrong.wrapping_sub(1);
    let boundaries = !inside & up_to_wrong;
    if boundaries == 0 {
        return 0;
    }
    boundaries.ilog2() as usize
}

/// How many of these bytes, from inside a string on, are whole escapes and ordinary ASCII. The block's last byte is not
/// counted.
#[inline(always)]
fn escaped_len(block: u8x64) -> usize
    ensures few { result < 64 }
    ensures led { Leads state.Str (take result block) state.Str }
{
    let backslashes = backslashes(block);
    let escaped = behind_odd_runs(backslashes);
    let units = escaped & letters_u(block);
    let digits = four_behind(units);
    let wrong_plain = not_plain(block) & !(backslashes | escaped);
    let wrong_letter = escaped & !(short_escapes(block) | units);
    // The bytes that a backslash escapes are checked once more, bit by bit, so that all that follows rests on this
    // alone.
    let wrong_escaped = (escaped >> 1) ^ (backslashes & !escaped);
    let wrong = wrong_plain | wrong_letter | wrong_escaped | not_hex(block, digits);
    last_boundary(escaped | digits, wrong)
}

/// The end of the blocks of ordinary ASCII and escapes from an offset on, and of what of the next block is so.
/// It is `from` where fewer than 64 bytes follow.
#[inline(always)]
pub(crate) fn escaped_blocks_end(text: &[u8], from: usize, to: usize) -> usize
    requires { (from ≤ to) × (to ≤ length text.now) }
    ensures bounds { (from ≤ result) × (result ≤ to) }
    ensures led { Leads state.Str (slice_range text.now from result) state.Str }
{
    let mut i = from;
    while to - i >= BLOCK {
        let len = escaped_len(u8x64::from_slice(&text[i..]));
        i += len;
        if len < LEAST {
            break;
        }
    }
    i
}
