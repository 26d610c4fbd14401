// Bytes that are kept one after another, so that they are copied at once.
ghost use Rattle.std.specs.Prelude.{◌≡◌, ◌+◌, ◌-◌, ◌<◌, ◌≤◌, ◌^◌, IsTrue, length, slice_index, slice_range, true};
ghost use Rattle.jx_compact.specs.Compact.{is_kept};
ghost use Rattle.jx_each.specs.Turns.{turn_at};
ghost use Rattle.jx_each.specs.inside.Stretches.{IsPassed, IsStretch};

use crate::blocks::BLOCK;
use crate::runs::{blanks_end, chars_end, deep_end, flat_end};
use crate::sign::Turn;
use crate::stand::height_next;
use jx_compact::{Place, next};

/// Where a part ends, and where the byte there stands.
#[derive(Clone, Copy, Debug)]
pub(crate) struct Stretch {
    pub end: usize,
    pub place: Place,
    pub height: usize,
}

/// The end of a run of bytes, each of which is kept and stands where the first one stands.
#[inline(always)]
fn steady_end(place: Place, height: usize, bytes: &[u8], from: usize) -> usize
    requires { from ≤ length bytes.now }
    ensures bounds { (from ≤ result) × (result ≤ length bytes.now) }
    ensures stretch { IsStretch place height (slice_range bytes.now from result) place height }
{
    match place {
        Place::Between => {
            if height > 1 {
                deep_end(bytes, from)
            } else {
                flat_end(bytes, from)
            }
        }
        Place::Inside => chars_end(bytes, from),
        Place::Escaped => from,
    }
}

/// Whether a part goes on with a byte that stands there.
#[inline(always)]
fn goes_on(place: Place, height: usize, byte: u8) -> bool
    ensures { IsTrue result → (turn_at place height byte ≡ Turn.Stay) × (is_kept place byte ≡ true) }
{
    match place {
        Place::Inside | Place::Escaped => true,
        Place::Between => {
            if byte == b'"' {
                return true;
            }
            if byte == b' ' || byte == b'\t' || byte == b'\n' || byte == b'\r' {
                return false;
            }
            if height > 1 {
                return true;
            }
            if byte == b',' || byte == b':' || byte == b']' || byte == b'}' {
                return false;
            }
            height == 1 || (byte != b'[' && byte != b'{')
        }
    }
}

/// A byte with which a part goes on, and the run after it.
#[inline(always)]
fn near_stretch(place: Place, height: usize, bytes: &[u8], from: usize) -> Stretch
    requires within { from < length bytes.now }
    requires fits { height + (length bytes.now - from) < 2 ^ 64 }
    requires goes { (turn_at place height (slice_index bytes.now from) ≡ Turn.Stay) × (is_kept place (slice_index bytes.now from) ≡ true) }
    ensures bounds { (from < result.end) × (result.end ≤ length bytes.now) }
    ensures high { result.height ≤ height + (result.end - from) }
    ensures stretch { IsStretch place height (slice_range bytes.now from result.end) result.place result.height }
{
    let byte = bytes[from];
    let height = height_next(place, height, byte);
    let place = next(place, byte);
    let end = steady_end(place, height, bytes, from + 1);
    Stretch { end, place, height }
}

/// Whether bytes from there on are walked over a block at a time.
#[inline(always)]
pub(crate) fn is_deep(height: usize, bytes: &[u8], from: usize) -> bool
    requires { from ≤ length bytes.now }
    ensures { IsTrue result → (1 < height) × (from + 64 ≤ length bytes.now) }
{
    height > 1 && bytes.len() - from >= BLOCK
}

/// A part from a byte on that stands there, as long as one is found, and up to where bytes are walked over by blocks;
/// it may have no byte.
pub(crate) fn stretch_from(place: Place, height: usize, bytes: &[u8], from: usize) -> Stretch
    requires within { from ≤ length bytes.now }
    requires fits { height + (length bytes.now - from) < 2 ^ 64 }
    ensures bounds { (from ≤ result.end) × (result.end ≤ length bytes.now) }
    ensures high { result.height ≤ height + (result.end - from) }
    ensures stretch { IsStretch place height (slice_range bytes.now from result.end) result.place result.height }
{
    let mut place = place;
    let mut height = height;
    let mut end = from;
    while end < bytes.len() && !is_deep(height, bytes, end) && goes_on(place, height, bytes[end]) {
        let next = near_stretch(place, height, bytes, end);
        place = next.place;
        height = next.height;
        end = next.end;
    }
    Stretch { end, place, height }
}

/// The offset after the white space from a byte on that stands there, where it stands between tokens. Mostly there is
/// none.
#[inline(always)]
pub(crate) fn blanks_from(place: Place, bytes: &[u8], from: usize) -> usize
    requires { from ≤ length bytes.now }
    ensures bounds { (from ≤ result) × (result ≤ length bytes.now) }
    ensures passed { IsPassed place (slice_range bytes.now from result) }
{
    match place {
        Place::Between => blanks_end(bytes, from),
        Place::Inside | Place::Escaped => from,
    }
}
