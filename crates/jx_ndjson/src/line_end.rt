// Where a line ends, found 64 bytes at a time.
ghost use Rattle.std.specs.Prelude.{◌≡◌, ◌≤◌, ◌+◌, length, map, slice_index};
ghost use Rattle.std.specs.Simd.Lanes.{mask_l};
ghost use Rattle.std.specs.Slice.Scan.{HoldsNowhere, IsFirstPlace, Marks};
ghost use Rattle.jx_ndjson.specs.Lines.{is_line_feed};

use std::simd::prelude::*;

/// Bit k says that byte k of 64 is a line feed.
#[inline(always)]
fn line_feeds(block: u8x64) -> u64
    ensures { result ≡ mask_l (map is_line_feed block) }
{
    block.simd_eq(u8x64::splat(b'\n')).to_bitmask()
}

/// Bit k says that the byte k places after `i` is a line feed, for the 64 bytes from `i` on.
#[inline(always)]
fn feeds_at(text: &[u8], i: usize) -> u64
    requires { i + 64 ≤ length text.now }
    ensures { Marks (λ k. is_line_feed (slice_index text.now k)) i 64 result }
{
    line_feeds(u8x64::from_slice(&text[i..]))
}

/// The first line feed, or the end, where none is before `seen`: it looks at one byte after another.
fn line_end_behind(text: &[u8], seen: usize) -> usize
    requires within { seen ≤ length text.now }
    requires passed { HoldsNowhere (λ k. is_line_feed (slice_index text.now k)) 0 seen }
    ensures { IsFirstPlace (λ k. is_line_feed (slice_index text.now k)) 0 (length text.now) result }
{
    let mut i = seen;
    while i < text.len() && text[i] != b'\n' {
        i += 1;
    }
    i
}

/// The first line feed, or the end.
#[inline(always)]
pub(crate) fn line_end(text: &[u8]) -> usize
    ensures { IsFirstPlace (λ k. is_line_feed (slice_index text.now k)) 0 (length text.now) result }
{
    let mut i = 0;
    while text.len() - i >= 64 {
        let found = feeds_at(text, i);
        if found != 0 {
            return i + found.trailing_zeros() as usize;
        }
        i += 64;
    }
    line_end_behind(text, i)
}
