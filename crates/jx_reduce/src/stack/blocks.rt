// Whole tokens, read by blocks of 64 bytes.
ghost use Rattle.std.specs.Prelude.{◌≡◌, ◌+◌, ◌<◌, ◌≤◌, ◌^◌, ℕ, List, IfSome, IsNone, length, slice_range};
ghost use Rattle.jx_block.specs.Kinds.{AreKinds};
ghost use Rattle.jx_block.specs.Listed.{marks_of};
ghost use Rattle.jx_reduce.specs.Read.{read, went};
ghost use Rattle.jx_reduce.specs.inside.Passed.{Reads, TakesValue};
ghost use Rattle.jx_reduce.specs.inside.Told.{Sees};

use crate::stack::bracket_walk::walk;
use crate::stack::containers::Containers;
use crate::stack::next_words::next_behind;
use crate::stack::watch::Watch;
use crate::stack::whole_tokens::{rounds, takes_value};
use crate::table::expect::Expect;
use jx_block::{TokenKinds, read_tokens};
use std::simd::prelude::*;

/// How many bytes a block has.
const BLOCK: usize = 64;

/// How many tokens other than those looked at one by one a block must have, so that another one is tried after it.
/// With fewer, one token after another is faster.
const CLOSE: u32 = 20;

/// How many commas must stand in 64 bytes, so that a block is tried there.
const CLOSE_COMMAS: u32 = 8;

/// How many commas must stand in half as many bytes, so that a list of numbers is read by blocks.
const LIST_COMMAS: u32 = 5;

/// The result of reading a block.
#[derive(Clone, Copy)]
struct Passed {
    /// How many bytes were read.
    len: usize,
    /// How many tokens other than those looked at one by one begin in them.
    tokens: u32,
    /// The expectation after them.
    then: Expect,
}

/// Reads the tokens that begin in the first bytes of a block, from what may stand next before them. Gives what may
/// stand next after them. It gives nothing, and changes nothing, where one of them may not stand where it does, and
/// where no container is open, or the innermost word of them would run full or empty.
#[inline(always)]
fn follow<H: Containers>(
    kinds: &TokenKinds,
    starts: u64,
    len: usize,
    expect: Expect,
    holders: &mut H,
    most: usize,
) -> Option<Expect>
    requires within { (length (H.list holders.old) ≤ most) × (most < 2 ^ 32) }
    requires few { (len < 64) × (starts < 2 ^ len) }
    ensures reads { IfSome result (λ then. (text : List ℕ) (at : ℕ) → at + 64 ≤ length text → AreKinds text at starts kinds.now → read most (marks_of starts 0 at (slice_range text at (at + len))) (went expect (H.list holders.old)) ≡ went then (H.list holders.new)) }
    ensures none { IsNone result → H.list holders.new ≡ H.list holders.old }
{
    let inner = holders.inner()?;
    let around = holders.len() - inner.count;
    let walked = walk(kinds, inner, most - around)?;
    let then = next_behind(kinds, starts, walked.objects, len, expect)?;
    if holders.put_inner(walked.inner) {
        Some(then)
    } else {
        None
    }
}

/// Reads the tokens of one block, where all of them stand where they may and the observer takes them by their counts.
/// Otherwise it changes nothing.
#[inline(always)]
fn block<H: Containers, W: Watch>(
    text: &[u8],
    at: usize,
    expect: Expect,
    holders: &mut H,
    most: usize,
    watch: &mut W,
) -> Option<Passed>
    requires bounds { at ≤ length text.now }
    requires within { (length (H.list holders.old) ≤ most) × (most < 2 ^ 32) }
    requires turn { W.awaits watch.old }
    ensures bounds { IfSome result (λ r. r.len < 64) }
    ensures reads { IfSome result (λ r. Reads most text.now at (at + r.len) (went expect (H.list holders.old)) (went r.then (H.list holders.new))) }
    ensures seen { IfSome result (λ r. Sees (W.has_seen watch.old) (W.has_seen watch.new) text.now at (at + r.len)) }
    ensures turn { W.awaits watch.new }
    ensures none { IsNone result → H.list holders.new ≡ H.list holders.old }
    ensures unseen { IsNone result → watch.new ≡ watch.old }
{
    if text.len() - at < BLOCK {
        return None;
    }
    let masks = read_tokens(text, at)?;
    let counts = watch.counts(&masks.kinds);
    if !watch.takes_counts(&counts) {
        return None;
    }
    let then = follow(&masks.kinds, masks.starts, masks.len, expect, holders, most)?;
    watch.counted(&counts);
    Some(Passed {
        len: masks.len,
        tokens: (masks.starts & !masks.one_by_one).count_ones(),
        then,
    })
}

/// Reads whole tokens by blocks, as long as tokens stand close together. Gives the offset after them, and what may
/// stand next there.
#[inline(never)]
pub(crate) fn blocks<H: Containers, W: Watch>(
    text: &[u8],
    from: usize,
    to: usize,
    expect: Expect,
    holders: &mut H,
    most: usize,
    watch: &mut W,
) -> (usize, Expect)
    requires bounds { (from ≤ to) × (to ≤ length text.now) }
    requires within { (length (H.list holders.old) ≤ most) × (most < 2 ^ 32) }
    requires turn { W.awaits watch.old }
    ensures bounds { (from ≤ result.0) × (result.0 ≤ to) }
    ensures reads { Reads most text.now from result.0 (went expect (H.list holders.old)) (went result.1 (H.list holders.new)) }
    ensures seen { Sees (W.has_seen watch.old) (W.has_seen watch.new) text.now from result.0 }
    ensures turn { W.awaits watch.new }
{
    let mut at = from;
    let mut expect = expect;
    for _ in from..to {
        if to - at < BLOCK {
            break;
        }
        let Some(passed) = block(text, at, expect, holders, most, watch) else {
            break;
        };
        at += passed.len;
        expect = passed.then;
        if passed.tokens < CLOSE {
            break;
        }
    }
    (at, expect)
}

/// Whether commas stand close together in the first half of a block, as in a list of small numbers.
#[inline(always)]
pub(crate) fn commas_are_close(text: &[u8], at: usize) -> bool
    requires { at ≤ length text.now }
{
    if text.len() - at < BLOCK / 2 {
        return false;
    }
    let half = u8x32::from_slice(&text[at..]);
    half.simd_eq(u8x32::splat(b',')).to_bitmask().count_ones() >= LIST_COMMAS
}

/// Whether blocks may read the list of numbers in which the reading of tokens stopped, from `at` on: after some bytes, or at
/// some offsets, so that a block which is not read costs little.
#[inline(always)]
fn is_list(text: &[u8], at: usize, behind: usize) -> bool
    requires { (at ≤ behind) × (behind ≤ length text.now) }
{
    (behind - at >= BLOCK || behind % 64 < 8) && commas_are_close(text, behind)
}

/// Whether many tokens seem to begin in the 64 bytes that follow, and a block can read these.
#[inline(always)]
fn are_close(text: &[u8], at: usize) -> bool
    requires { at + 64 ≤ length text.now }
{
    // Where white space follows, tokens mostly stand far apart.
    if text[at] <= b' ' {
        return false;
    }
    let block = u8x64::from_slice(&text[at..]);
    let commas = block.simd_eq(u8x64::splat(b',')).to_bitmask();
    let others = block.simd_eq(u8x64::splat(b'\\')) | block.simd_ge(u8x64::splat(0x80));
    commas.count_ones() >= CLOSE_COMMAS && others.to_bitmask() == 0
}

/// Reads by blocks, where tokens seem to stand close together.
#[inline(always)]
fn blocks_where_close<H: Containers, W: Watch>(
    text: &[u8],
    from: usize,
    to: usize,
    expect: Expect,
    holders: &mut H,
    most: usize,
    watch: &mut W,
) -> (usize, Expect)
    requires bounds { (from ≤ to) × (to ≤ length text.now) }
    requires within { (length (H.list holders.old) ≤ most) × (most < 2 ^ 32) }
    requires turn { W.awaits watch.old }
    ensures bounds { (from ≤ result.0) × (result.0 ≤ to) }
    ensures reads { Reads most text.now from result.0 (went expect (H.list holders.old)) (went result.1 (H.list holders.new)) }
    ensures seen { Sees (W.has_seen watch.old) (W.has_seen watch.new) text.now from result.0 }
    ensures turn { W.awaits watch.new }
{
    if to - from < BLOCK || !watch.wants_counts() || !are_close(text, from) {
        return (from, expect);
    }
    blocks(text, from, to, expect, holders, most, watch)
}

/// The end of the bytes that are read token by token, at most so many.
#[inline(always)]
fn stretch_end(from: usize, to: usize, most: usize) -> usize
    requires { from ≤ to }
    ensures { (from ≤ result) × (result ≤ to) }
{
    if to - from > most { from + most } else { to }
}

/// Reads whole tokens from a place where a value stands next: by blocks where tokens stand close together, and
/// otherwise one by one. Gives the offset after them, and what may stand next there.
#[inline(always)]
pub(crate) fn stretches<H: Containers, W: Watch>(
    text: &[u8],
    from: usize,
    to: usize,
    expect: Expect,
    holders: &mut H,
    most: usize,
    watch: &mut W,
) -> (usize, Expect)
    requires bounds { (from ≤ to) × (to ≤ length text.now) }
    requires room { 32 ≤ length text.now }
    requires takes { TakesValue expect }
    requires within { (length (H.list holders.old) ≤ most) × (most < 2 ^ 32) }
    requires turn { W.awaits watch.old }
    ensures bounds { (from ≤ result.0) × (result.0 ≤ to) }
    ensures reads { Reads most text.now from result.0 (went expect (H.list holders.old)) (went result.1 (H.list holders.new)) }
    ensures seen { Sees (W.has_seen watch.old) (W.has_seen watch.new) text.now from result.0 }
    ensures turn { W.awaits watch.new }
{
    let mut at = from;
    let mut expect = expect;
    for _ in from..to {
        let (begin, next) = blocks_where_close(text, at, to, expect, holders, most, watch);
        if !takes_value(next) {
            return (begin, next);
        }
        let end = stretch_end(begin, to, watch.stretch());
        let (behind, next) = rounds(text, begin, end, next, holders, most, watch);
        // Before the end, a list of numbers stopped the reading: blocks go on in it, where it has small ones.
        let listed = is_list(text, at, behind);
        if end == to || (end - behind >= BLOCK && !listed) || !takes_value(next) {
            return (behind, next);
        }
        at = behind;
        expect = next;
    }
    (at, expect)
}
