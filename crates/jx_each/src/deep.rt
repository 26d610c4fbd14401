// Bytes in two containers or more. Each block of 64 is looked at once, and what stands between its white space is
// copied.
ghost use Rattle.std.specs.Prelude.{◌≡◌, ◌+◌, ◌-◌, ◌<◌, ◌≤◌, ◌^◌, IfOk, length, slice_range};
ghost use Rattle.std.specs.Simd.Lanes.{chunk};
ghost use Rattle.jx_each.specs.inside.Blocks.{IsTold, placed};
ghost use Rattle.jx_each.specs.inside.Stretches.{IsCopied, IsWalked};

use crate::blocks::{BLOCK, Words, is_set, next_clear, next_set, words_of};
use crate::copies::push_stretch;
use crate::places::{inside_of, place_of};
use crate::stand::height_next;
use crate::stretch::{Stretch, is_deep};
use jx_compact::Place;
use std::alloc::AllocError;
use std::simd::prelude::*;

/// How far bytes were walked over, and where the next one stands. Those from `start` to `end` stay, and are not copied yet.
#[derive(Clone, Copy, Debug)]
pub struct Walk {
    pub start: usize,
    pub end: usize,
    pub place: Place,
    pub height: usize,
}

/// Walks over a block, or up to the byte after which one container is open, and copies what is before the last white
/// space.
fn walk_block(
    words: Words,
    inside: bool,
    takes: bool,
    part: &mut Vec<u8>,
    bytes: &[u8],
    walk: Walk,
) -> Result<Walk, AllocError>
    requires order { walk.start ≤ walk.end }
    requires within { walk.end + 64 ≤ length bytes.now }
    requires told { IsTold (chunk walk.end 64 bytes.now) inside words }
    requires whole { words.len ≡ 64 }
    requires place { walk.place ≡ placed inside }
    requires high { 1 < walk.height }
    requires fits { walk.height + (length bytes.now - walk.end) < 2 ^ 64 }
    ensures order { IfOk result (λ next. next.start ≤ next.end) }
    ensures bounds { IfOk result (λ next. (walk.end < next.end) × (next.end ≤ length bytes.now)) }
    ensures high { IfOk result (λ next. next.height ≤ walk.height + (next.end - walk.end)) }
    ensures walked { IfOk result (λ next. IsWalked takes bytes.now walk part.old.items next part.new.items) }
{
    let base = walk.end;
    let mut start = walk.start;
    let mut height = walk.height;
    let mut at = 0;
    while at < BLOCK && height > 1 {
        let stop = next_set(words.brackets | words.gaps, at);
        if stop == BLOCK {
            let place = place_of(is_set(words.strings, 63));
            return Ok(Walk {
                start,
                end: base + BLOCK,
                place,
                height,
            });
        }
        if is_set(words.gaps, stop) {
            push_stretch(part, takes, bytes, start, base + stop)?;
            at = next_clear(words.gaps, stop);
            start = base + at;
        } else {
            height = height_next(Place::Between, height, bytes[base + stop]);
            at = stop + 1;
        }
    }
    Ok(Walk {
        start,
        end: base + at,
        place: Place::Between,
        height,
    })
}

/// Copies what stays of the blocks from a byte on that stands there, and answers where the byte after them stands. It
/// goes on as long as two containers are open, and no block ends with a backslash that escapes a byte.
pub(crate) fn push_deep(
    part: &mut Vec<u8>,
    place: Place,
    height: usize,
    takes: bool,
    bytes: &[u8],
    from: usize,
) -> Result<Stretch, AllocError>
    requires within { from ≤ length bytes.now }
    requires fits { height + (length bytes.now - from) < 2 ^ 64 }
    ensures bounds { IfOk result (λ deep. (from ≤ deep.end) × (deep.end ≤ length bytes.now)) }
    ensures high { IfOk result (λ deep. deep.height ≤ height + (deep.end - from)) }
    ensures copied { IfOk result (λ deep. IsCopied takes place height (slice_range bytes.now from deep.end) part.old.items deep.place deep.height part.new.items) }
{
    let mut walk = Walk {
        start: from,
        end: from,
        place,
        height,
    };
    while is_deep(walk.height, bytes, walk.end) {
        let Some(inside) = inside_of(walk.place) else {
            break;
        };
        let Some(words) = words_of(u8x64::from_slice(&bytes[walk.end..]), inside) else {
            break;
        };
        if words.len < BLOCK {
            break;
        }
        walk = walk_block(words, inside, takes, part, bytes, walk)?;
    }
    push_stretch(part, takes, bytes, walk.start, walk.end)?;
    Ok(Stretch {
        end: walk.end,
        place: walk.place,
        height: walk.height,
    })
}
