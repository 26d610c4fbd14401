// Line feeds, counted 64 bytes at a time.
ghost use Rattle.std.specs.Prelude.{◌≡◌, ◌≤◌, ◌+◌, drop, length, map, take};
ghost use Rattle.std.specs.List.{count_by};
ghost use Rattle.std.specs.Simd.Lanes.{mask_l};
ghost use Rattle.jx_file_lines.specs.Lines.{feeds_in, is_line_feed};

use std::simd::prelude::*;

/// Bit k says that byte k of 64 is a line feed.
#[inline(always)]
fn feed_mask(block: u8x64) -> u64
    ensures { result ≡ mask_l (map is_line_feed block) }
{
    block.simd_eq(u8x64::splat(b'\n')).to_bitmask()
}

/// How many of the 64 bytes from `i` on are line feeds.
#[inline(always)]
fn feeds_at(text: &[u8], i: usize) -> usize
    requires { i + 64 ≤ length text.now }
    ensures value { result ≡ feeds_in (take 64 (drop i text.now)) }
    ensures within { result ≤ 64 }
{
    feed_mask(u8x64::from_slice(&text[i..])).count_ones() as usize
}

/// How many line feeds bytes have that are looked at one by one.
fn feeds_one_by_one(text: &[u8]) -> usize
    ensures value { result ≡ feeds_in text.now }
    ensures within { result ≤ length text.now }
{
    let mut count = 0;
    for byte in text {
        if *byte == b'\n' {
            count += 1;
        }
    }
    count
}

/// How many line feeds bytes have.
pub(crate) fn feeds_in(text: &[u8]) -> usize
    ensures value { result ≡ feeds_in text.now }
    ensures within { result ≤ length text.now }
{
    let mut count = 0;
    let mut i = 0;
    'lanes: while text.len() - i >= 64 {
        count += feeds_at(text, i);
        i += 64;
    }
    count + feeds_one_by_one(&text[i..])
}
