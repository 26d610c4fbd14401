// Elements of an array, written while their bytes are walked over: of each block of 64 what stands between white space
// is copied at once, and commas after elements become line feeds.
ghost use Rattle.std.specs.Prelude.{◌≡◌, ◌+◌, ◌-◌, ◌<◌, ◌≤◌, ◌^◌, ℕ, false, true, [], ◌++◌, ◌⊎◌, IfOk, IfSome, OnOk, drop, length, nat_lt, slice_range, take};
ghost use Rattle.std.specs.Simd.Lanes.{chunk};
ghost use Rattle.jx_compact.specs.declared.place.Place.TheVariants.{Between};
ghost use Rattle.jx_lex.specs.inside.Bits.{bit};
ghost use Rattle.jx_each.specs.Machine.{Aim, run};
ghost use Rattle.jx_each.specs.declared.stand.Stage.TheVariants.{Array};
ghost use Rattle.jx_each.specs.inside.Blocks.{IsTold, place_at};
ghost use Rattle.jx_each.specs.inside.Deep.{IsDeep};
ghost use Rattle.jx_each.specs.inside.Flat.{IsFlat};
ghost use Rattle.jx_each.specs.inside.Stretches.{IsLed, IsPassed, spot};

use crate::blocks::{BLOCK, Words, is_set, next_clear, next_set, words_of};
use crate::copies::push_stretch;
use crate::flat::{commas_end, with_feeds};
use crate::nest::{Nest, pass_stop};
use crate::places::{inside_of, place_of};
use crate::stand::height_next;
use crate::stretch::{Stretch, blanks_from};
use jx_compact::Place;
use std::alloc::AllocError;
use std::mem;
use std::simd::prelude::*;

/// The words of the block at an offset, and whether the first byte there stands inside a string.
#[derive(Clone, Copy, Debug)]
struct View {
    words: Words,
    inside: bool,
    base: usize,
}

/// How far the bytes of a block were walked over, and what is open there.
#[derive(Clone, Copy, Debug)]
struct Reach {
    at: usize,
    nest: Nest,
}

/// How many bytes are made then.
#[derive(Clone, Copy, Debug)]
struct Squeezed {
    len: usize,
    reach: Reach,
}

/// How far bytes were walked over, where the next one stands, and what is open there.
#[derive(Clone, Copy, Debug)]
struct Front {
    end: usize,
    place: Place,
    nest: Nest,
}

/// The bytes at which a walk stops, where so many containers are open.
#[inline(always)]
fn stops_at(words: Words, height: usize) -> u64
    ensures brackets { (k : ℕ) → bit result k ≡ false → bit words.brackets k ≡ false }
    ensures borders { height ≤ 1 → (k : ℕ) → bit result k ≡ false → bit words.borders k ≡ false }
    ensures set { (k : ℕ) → bit result k ≡ true → (bit words.brackets k ≡ true) ⊎ (bit words.borders k ≡ true) }
{
    if height > 1 {
        words.brackets
    } else {
        words.brackets | words.borders
    }
}

/// Ends the elements of a block from one byte up to another, which were copied after what was made: a comma after an
/// element becomes a line feed. It stops before a byte that ends the array.
#[inline(always)]
fn end_elements(
    view: View,
    made: &mut [u8],
    bytes: &[u8],
    from: usize,
    to: usize,
    nest: Nest,
) -> Reach
    requires room { view.base + 64 ≤ length bytes.now }
    requires told { IsTold (chunk view.base 64 bytes.now) view.inside view.words }
    requires order { (from ≤ to) × (to ≤ 64) }
    requires solid { (k : ℕ) → from ≤ k → k < to → bit view.words.gaps k ≡ false }
    requires long { to - from ≤ length made.old }
    requires copied { drop (length made.old - (to - from)) made.old ≡ slice_range bytes.now (view.base + from) (view.base + to) }
    requires begin { nest.begin ≤ length made.old - (to - from) }
    requires high { 1 ≤ nest.height }
    requires fits { nest.height + (to - from) < 2 ^ 64 }
    ensures bounds { (from ≤ result.at) × (result.at ≤ to) }
    ensures length { length made.new ≡ length made.old }
    ensures begin { result.nest.begin ≤ length made.new - (to - result.at) }
    ensures high { (1 ≤ result.nest.height) × (result.nest.height ≤ nest.height + (result.at - from)) }
    ensures outside { result.at < to → place_at view.inside view.words result.at ≡ Between }
    ensures led { IsLed (place_at view.inside view.words from) nest (take (length made.old - (to - from)) made.old) (slice_range bytes.now (view.base + from) (view.base + result.at)) (place_at view.inside view.words result.at) result.nest (take (length made.new - (to - result.at)) made.new) }
{
    let len = made.len();
    let mut at = from;
    let mut nest = nest;
    while at < to {
        let stop = next_set(stops_at(view.words, nest.height), at);
        if stop >= to {
            return Reach { at: to, nest };
        }
        let Some(next) = pass_stop(made, len - (to - stop), bytes[view.base + stop], nest) else {
            return Reach { at: stop, nest };
        };
        nest = next;
        at = stop + 1;
    }
    Reach { at, nest }
}

/// Copies the bytes of a block from one up to another, among which no white space stands outside of strings, and ends
/// the elements there.
#[inline(always)]
fn walk_stretch(
    view: View,
    lines: &mut Vec<u8>,
    bytes: &[u8],
    from: usize,
    to: usize,
    nest: Nest,
) -> Result<Reach, AllocError>
    requires room { view.base + 64 ≤ length bytes.now }
    requires told { IsTold (chunk view.base 64 bytes.now) view.inside view.words }
    requires order { (from ≤ to) × (to ≤ 64) }
    requires solid { (k : ℕ) → from ≤ k → k < to → bit view.words.gaps k ≡ false }
    requires begin { nest.begin ≤ length lines.old.items }
    requires high { 1 ≤ nest.height }
    requires fits { nest.height + (to - from) < 2 ^ 64 }
    ensures bounds { IfOk result (λ reach. (from ≤ reach.at) × (reach.at ≤ to)) }
    ensures begin { IfOk result (λ reach. reach.nest.begin ≤ length lines.new.items) }
    ensures high { IfOk result (λ reach. (1 ≤ reach.nest.height) × (reach.nest.height ≤ nest.height + (reach.at - from))) }
    ensures outside { IfOk result (λ reach. reach.at < to → place_at view.inside view.words reach.at ≡ Between) }
    ensures led { IfOk result (λ reach. IsLed (place_at view.inside view.words from) nest lines.old.items (slice_range bytes.now (view.base + from) (view.base + reach.at)) (place_at view.inside view.words reach.at) reach.nest lines.new.items) }
{
    push_stretch(lines, true, bytes, view.base + from, view.base + to)?;
    let reach = end_elements(view, lines, bytes, from, to, nest);
    lines.truncate(lines.len() - (to - reach.at));
    Ok(reach)
}

/// The first white space outside of strings from a byte of a block on, or the end of those that are looked at.
#[inline(always)]
fn next_gap(words: Words, at: usize) -> usize
    requires within { (at < words.len) × (words.len ≤ 64) }
    ensures bounds { (at ≤ result) × (result ≤ words.len) }
    ensures none { (k : ℕ) → at ≤ k → k < result → bit words.gaps k ≡ false }
    ensures gap { result < words.len → bit words.gaps result ≡ true }
{
    next_set(words.gaps, at).min(words.len)
}

/// The end of the white space of a block that begins at a byte, where there is some, or else that byte.
#[inline(always)]
fn past_gap(words: Words, at: usize) -> usize
    requires within { (at ≤ words.len) × (words.len ≤ 64) }
    requires gap { at < words.len → bit words.gaps at ≡ true }
    ensures bounds { (at ≤ result) × (result ≤ words.len) }
    ensures past { at < words.len → at < result }
    ensures all { (k : ℕ) → at ≤ k → k < result → bit words.gaps k ≡ true }
{
    if at < words.len {
        next_clear(words.gaps, at).min(words.len)
    } else {
        at
    }
}

/// Copies the 64 bytes from an offset on over what was made after so many bytes.
#[inline(always)]
fn put_block(made: &mut [u8], at: usize, bytes: &[u8], from: usize)
    requires room { at + 64 ≤ length made.old }
    requires bytes { from + 64 ≤ length bytes.now }
    ensures length { length made.new ≡ length made.old }
    ensures copied { take (at + 64) made.new ≡ take at made.old ++ slice_range bytes.now from (from + 64) }
{
    u8x64::from_slice(&bytes[from..]).copy_to_slice(&mut made[at..]);
}

/// Walks over the bytes of a block that are looked at, or up to one that ends the array, from one byte of white space
/// to the next. The bytes that stay are put after so many that were made, and counted with them. A copy of 64 bytes
/// takes less time than one of any length.
#[inline(always)]
fn squeeze(view: View, made: &mut [u8], start: usize, bytes: &[u8], nest: Nest) -> Squeezed
    requires room { view.base + 128 ≤ length bytes.now }
    requires space { start + 128 ≤ length made.old }
    requires told { IsTold (chunk view.base 64 bytes.now) view.inside view.words }
    requires begin { nest.begin ≤ start }
    requires high { 1 ≤ nest.height }
    requires fits { nest.height + 64 < 2 ^ 64 }
    ensures bounds { result.reach.at ≤ view.words.len }
    ensures length { length made.new ≡ length made.old }
    ensures within { result.len ≤ length made.new }
    ensures begin { result.reach.nest.begin ≤ result.len }
    ensures high { (1 ≤ result.reach.nest.height) × (result.reach.nest.height ≤ nest.height + result.reach.at) }
    ensures outside { result.reach.at < view.words.len → place_at view.inside view.words result.reach.at ≡ Between }
    ensures led { IsLed (place_at view.inside view.words 0) nest (take start made.old) (slice_range bytes.now view.base (view.base + result.reach.at)) (place_at view.inside view.words result.reach.at) result.reach.nest (take result.len made.new) }
{
    let mut len = start;
    let mut at = 0;
    let mut nest = nest;
    while at < view.words.len {
        let to = next_gap(view.words, at);
        put_block(made, len, bytes, view.base + at);
        let end = len + (to - at);
        let reach = end_elements(view, &mut made[..end], bytes, at, to, nest);
        nest = reach.nest;
        if reach.at < to {
            return Squeezed {
                len: end - (to - reach.at),
                reach,
            };
        }
        len = end;
        at = past_gap(view.words, to);
    }
    Squeezed {
        len,
        reach: Reach { at, nest },
    }
}

/// How many containers are open after a block, where two or more are open before each of its bytes and after it. None where
/// it is another block.
#[inline(always)]
fn deep_height(view: View, bytes: &[u8], height: usize) -> Option<usize>
    requires room { view.base + 64 ≤ length bytes.now }
    requires told { IsTold (chunk view.base 64 bytes.now) view.inside view.words }
    requires whole { view.words.len ≡ 64 }
    requires high { 1 < height }
    requires fits { height + 64 < 2 ^ 64 }
    ensures bounds { IfSome result (λ high. (1 ≤ high) × (high ≤ height + 64)) }
    ensures deep { IfSome result (IsDeep (chunk view.base 64 bytes.now) view.inside view.words height) }
{
    let mut high = height;
    let mut at = 0;
    while at < BLOCK {
        let stop = next_set(view.words.brackets, at);
        if stop == BLOCK {
            return Some(high);
        }
        high = height_next(Place::Between, high, bytes[view.base + stop]);
        if high <= 1 {
            return None;
        }
        at = stop + 1;
    }
    Some(high)
}

/// The end of the places whose bits are set, of which one is the first, or that place where it is the end.
#[inline(always)]
fn past_set(bits: u64, at: usize) -> usize
    requires within { at ≤ 64 }
    requires set { at < 64 → bit bits at ≡ true }
    ensures bounds { (at ≤ result) × (result ≤ 64) }
    ensures past { at < 64 → at < result }
    ensures all { (k : ℕ) → at ≤ k → k < result → bit bits k ≡ true }
{
    if at < BLOCK { next_clear(bits, at) } else { at }
}

/// Puts what stays of a block after so many bytes that were made, and counts it with them, where no element ends in it and
/// so many containers are open after it.
#[inline(always)]
fn pack(
    view: View,
    made: &mut [u8],
    start: usize,
    bytes: &[u8],
    nest: Nest,
    high: usize,
) -> Squeezed
    requires room { view.base + 128 ≤ length bytes.now }
    requires space { start + 128 ≤ length made.old }
    requires told { IsTold (chunk view.base 64 bytes.now) view.inside view.words }
    requires begin { nest.begin ≤ start }
    requires deep { IsDeep (chunk view.base 64 bytes.now) view.inside view.words nest.height high }
    ensures at { result.reach.at ≡ 64 }
    ensures length { length made.new ≡ length made.old }
    ensures within { result.len ≤ length made.new }
    ensures begin { result.reach.nest.begin ≤ result.len }
    ensures high { result.reach.nest.height ≡ high }
    ensures led { IsLed (place_at view.inside view.words 0) nest (take start made.old) (slice_range bytes.now view.base (view.base + result.reach.at)) (place_at view.inside view.words result.reach.at) result.reach.nest (take result.len made.new) }
{
    let mut len = start;
    let mut at = 0;
    while at < BLOCK {
        let to = next_set(view.words.gaps, at);
        put_block(made, len, bytes, view.base + at);
        len += to - at;
        at = past_set(view.words.gaps, to);
    }
    Squeezed {
        len,
        reach: Reach {
            at: BLOCK,
            nest: Nest {
                begin: nest.begin,
                height: high,
            },
        },
    }
}

/// Appends what stays of a block in which no element ends, and after which so many containers are open.
#[inline(always)]
fn push_packed(
    view: View,
    lines: &mut Vec<u8>,
    bytes: &[u8],
    nest: Nest,
    high: usize,
) -> Result<Reach, AllocError>
    requires room { view.base + 128 ≤ length bytes.now }
    requires told { IsTold (chunk view.base 64 bytes.now) view.inside view.words }
    requires whole { view.words.len ≡ 64 }
    requires begin { nest.begin ≤ length lines.old.items }
    requires bounds { (1 ≤ high) × (high ≤ nest.height + 64) }
    requires deep { IsDeep (chunk view.base 64 bytes.now) view.inside view.words nest.height high }
    ensures bounds { IfOk result (λ reach. reach.at ≡ view.words.len) }
    ensures begin { IfOk result (λ reach. reach.nest.begin ≤ length lines.new.items) }
    ensures high { IfOk result (λ reach. (1 ≤ reach.nest.height) × (reach.nest.height ≤ nest.height + reach.at)) }
    ensures led { IfOk result (λ reach. IsLed (place_at view.inside view.words 0) nest lines.old.items (slice_range bytes.now view.base (view.base + reach.at)) (place_at view.inside view.words reach.at) reach.nest lines.new.items) }
{
    if view.words.gaps == 0 {
        push_stretch(lines, true, bytes, view.base, view.base + BLOCK)?;
        return Ok(Reach {
            at: BLOCK,
            nest: Nest {
                begin: nest.begin,
                height: high,
            },
        });
    }
    let start = lines.len();
    lines.extend_from_slice(&bytes[view.base..view.base + 2 * BLOCK])?;
    let squeezed = pack(view, lines, start, bytes, nest, high);
    lines.truncate(squeezed.len);
    Ok(squeezed.reach)
}

/// Walks over the bytes of a block that are looked at, or up to one that ends the array, where there is white space
/// among them.
#[inline(always)]
fn walk_gaps(view: View, lines: &mut Vec<u8>, bytes: &[u8], nest: Nest) -> Result<Reach, AllocError>
    requires room { view.base + 128 ≤ length bytes.now }
    requires told { IsTold (chunk view.base 64 bytes.now) view.inside view.words }
    requires begin { nest.begin ≤ length lines.old.items }
    requires high { 1 ≤ nest.height }
    requires fits { nest.height + 64 < 2 ^ 64 }
    ensures bounds { IfOk result (λ reach. reach.at ≤ view.words.len) }
    ensures begin { IfOk result (λ reach. reach.nest.begin ≤ length lines.new.items) }
    ensures high { IfOk result (λ reach. (1 ≤ reach.nest.height) × (reach.nest.height ≤ nest.height + reach.at)) }
    ensures outside { IfOk result (λ reach. reach.at < view.words.len → place_at view.inside view.words reach.at ≡ Between) }
    ensures led { IfOk result (λ reach. IsLed (place_at view.inside view.words 0) nest lines.old.items (slice_range bytes.now view.base (view.base + reach.at)) (place_at view.inside view.words reach.at) reach.nest lines.new.items) }
{
    let start = lines.len();
    lines.extend_from_slice(&bytes[view.base..view.base + 2 * BLOCK])?;
    let squeezed = squeeze(view, lines, start, bytes, nest);
    lines.truncate(squeezed.len);
    Ok(squeezed.reach)
}

/// Appends a block whose commas alone do anything, the last one of which is before a place, and makes line feeds of
/// them.
#[inline(always)]
fn push_flat(
    view: View,
    lines: &mut Vec<u8>,
    bytes: &[u8],
    end: usize,
    nest: Nest,
) -> Result<Reach, AllocError>
    requires room { view.base + 128 ≤ length bytes.now }
    requires told { IsTold (chunk view.base 64 bytes.now) view.inside view.words }
    requires flat { IsFlat (chunk view.base 64 bytes.now) view.words (nat_lt nest.begin (length lines.old.items)) end }
    requires begin { nest.begin ≤ length lines.old.items }
    requires high { nest.height ≡ 1 }
    ensures bounds { IfOk result (λ reach. reach.at ≡ view.words.len) }
    ensures begin { IfOk result (λ reach. reach.nest.begin ≤ length lines.new.items) }
    ensures high { IfOk result (λ reach. reach.nest.height ≡ 1) }
    ensures led { IfOk result (λ reach. IsLed (place_at view.inside view.words 0) nest lines.old.items (slice_range bytes.now view.base (view.base + reach.at)) (place_at view.inside view.words reach.at) reach.nest lines.new.items) }
{
    let block = u8x64::from_slice(&bytes[view.base..]);
    lines.extend_from_slice(&with_feeds(block).to_array())?;
    let begin = if end == 0 {
        nest.begin
    } else {
        lines.len() - (BLOCK - end)
    };
    Ok(Reach {
        at: BLOCK,
        nest: Nest { begin, height: 1 },
    })
}

/// The place after the last comma of a block whose commas alone do anything, and each of them ends an element. None
/// where it is another block.
#[inline(always)]
fn flat_block(view: View, lines: &[u8], bytes: &[u8], nest: Nest) -> Option<usize>
    requires room { view.base + 128 ≤ length bytes.now }
    ensures high { IfSome result (λ _. nest.height ≡ 1) }
    ensures flat { IfSome result (IsFlat (chunk view.base 64 bytes.now) view.words (nat_lt nest.begin (length lines.now))) }
{
    if nest.height != 1 {
        return None;
    }
    let block = u8x64::from_slice(&bytes[view.base..]);
    commas_end(view.words, block, nest.begin < lines.len())
}

/// Walks over the bytes of a block that are looked at, or up to one that ends the array.
#[inline(always)]
fn walk_block(
    view: View,
    lines: &mut Vec<u8>,
    bytes: &[u8],
    nest: Nest,
) -> Result<Reach, AllocError>
    requires room { view.base + 128 ≤ length bytes.now }
    requires told { IsTold (chunk view.base 64 bytes.now) view.inside view.words }
    requires begin { nest.begin ≤ length lines.old.items }
    requires high { 1 ≤ nest.height }
    requires fits { nest.height + 64 < 2 ^ 64 }
    ensures bounds { IfOk result (λ reach. reach.at ≤ view.words.len) }
    ensures begin { IfOk result (λ reach. reach.nest.begin ≤ length lines.new.items) }
    ensures high { IfOk result (λ reach. (1 ≤ reach.nest.height) × (reach.nest.height ≤ nest.height + reach.at)) }
    ensures outside { IfOk result (λ reach. reach.at < view.words.len → place_at view.inside view.words reach.at ≡ Between) }
    ensures led { IfOk result (λ reach. IsLed (place_at view.inside view.words 0) nest lines.old.items (slice_range bytes.now view.base (view.base + reach.at)) (place_at view.inside view.words reach.at) reach.nest lines.new.items) }
{
    if nest.height > 1 && view.words.len == BLOCK {
        if let Some(high) = deep_height(view, bytes, nest.height) {
            return push_packed(view, lines, bytes, nest, high);
        }
    }
    if let Some(end) = flat_block(view, lines, bytes, nest) {
        return push_flat(view, lines, bytes, end, nest);
    }
    if view.words.gaps == 0 {
        return walk_stretch(view, lines, bytes, 0, view.words.len, nest);
    }
    walk_gaps(view, lines, bytes, nest)
}

/// Where the byte follows those of a block that were walked over.
#[inline(always)]
fn place_behind(words: Words, inside: bool, at: usize) -> Place
    requires bounds { (63 ≤ words.len) × (words.len ≤ 64) × (at ≤ words.len) }
    requires outside { at < words.len → place_at inside words at ≡ Between }
    requires ends { bit words.escapes (words.len - 1) ≡ false }
    ensures { result ≡ place_at inside words at }
{
    if at < words.len {
        Place::Between
    } else {
        place_of(is_set(words.strings, words.len - 1))
    }
}

/// The offset after the white space from there on, where a block ends with some.
#[inline(always)]
fn past_blanks(words: Words, place: Place, bytes: &[u8], from: usize) -> usize
    requires within { from ≤ length bytes.now }
    ensures bounds { (from ≤ result) × (result ≤ length bytes.now) }
    ensures passed { IsPassed place (slice_range bytes.now from result) }
{
    if is_set(words.gaps, 63) {
        blanks_from(place, bytes, from)
    } else {
        from
    }
}

/// Walks over the blocks of an array, the first byte of which stands there, and up to a byte that ends it. What is kept
/// of the element that is open follows the lines.
fn walk_blocks(lines: &mut Vec<u8>, bytes: &[u8], from: Front) -> Result<Front, AllocError>
    requires within { from.end ≤ length bytes.now }
    requires begin { from.nest.begin ≤ length lines.old.items }
    requires high { 1 ≤ from.nest.height }
    requires fits { from.nest.height + (length bytes.now - from.end) < 2 ^ 64 }
    ensures bounds { IfOk result (λ front. (from.end ≤ front.end) × (front.end ≤ length bytes.now)) }
    ensures begin { IfOk result (λ front. front.nest.begin ≤ length lines.new.items) }
    ensures high { IfOk result (λ front. front.nest.height ≤ from.nest.height + (front.end - from.end)) }
    ensures led { IfOk result (λ front. IsLed from.place from.nest lines.old.items (slice_range bytes.now from.end front.end) front.place front.nest lines.new.items) }
{
    let mut front = from;
    while bytes.len() - front.end >= 2 * BLOCK {
        let Some(inside) = inside_of(front.place) else {
            break;
        };
        let Some(words) = words_of(u8x64::from_slice(&bytes[front.end..]), inside) else {
            break;
        };
        let view = View {
            words,
            inside,
            base: front.end,
        };
        let reach = walk_block(view, lines, bytes, front.nest)?;
        let place = place_behind(words, inside, reach.at);
        let end = past_blanks(words, place, bytes, front.end + reach.at);
        front = Front {
            end,
            place,
            nest: reach.nest,
        };
        if reach.at < words.len {
            break;
        }
    }
    Ok(front)
}

/// Moves what is kept of an element after the lines, and answers where it begins there. Where there is no line, and
/// more is kept than a length, it is moved at once; else the lines keep their room.
fn join_part(lines: &mut Vec<u8>, part: &mut Vec<u8>, len: usize) -> Result<usize, AllocError>
    ensures begin { IfOk result (λ begin. begin ≡ length lines.old.items) }
    ensures lines { IfOk result (λ _. lines.new.items ≡ lines.old.items ++ part.old.items) }
    ensures part { IfOk result (λ _. part.new.items ≡ []) }
{
    let begin = lines.len();
    if begin == 0 && part.len() > len {
        mem::swap(lines, part);
    } else {
        lines.extend_from_slice(part)?;
    }
    part.clear();
    Ok(begin)
}

/// Moves what follows the lines back.
fn split_part(lines: &mut Vec<u8>, part: &mut Vec<u8>, begin: usize) -> Result<(), AllocError>
    requires begin { begin ≤ length lines.old.items }
    requires part { part.old.items ≡ [] }
    ensures lines { OnOk result (lines.new.items ≡ take begin lines.old.items) }
    ensures part { OnOk result (part.new.items ≡ drop begin lines.old.items) }
{
    if begin == 0 {
        mem::swap(lines, part);
        return Ok(());
    }
    part.extend_from_slice(&lines[begin..])?;
    lines.truncate(begin);
    Ok(())
}

/// Takes in the blocks of an array from a byte on that stands there, up to one that ends the array, and
/// answers where the byte after them stands.
pub(crate) fn make_elements(
    lines: &mut Vec<u8>,
    part: &mut Vec<u8>,
    place: Place,
    height: usize,
    bytes: &[u8],
    from: usize,
) -> Result<Stretch, AllocError>
    requires within { from ≤ length bytes.now }
    requires high { 1 ≤ height }
    requires fits { height + (length bytes.now - from) < 2 ^ 64 }
    ensures bounds { IfOk result (λ deep. (from ≤ deep.end) × (deep.end ≤ length bytes.now)) }
    ensures high { IfOk result (λ deep. deep.height ≤ height + (deep.end - from)) }
    ensures made { IfOk result (λ deep. (aim : Aim) → run aim (spot place height Array true lines.old.items part.old.items) (slice_range bytes.now from deep.end) ≡ spot deep.place deep.height Array true lines.new.items part.new.items) }
{
    let begin = join_part(lines, part, bytes.len())?;
    let from = Front {
        end: from,
        place,
        nest: Nest { begin, height },
    };
    let front = walk_blocks(lines, bytes, from)?;
    split_part(lines, part, front.nest.begin)?;
    Ok(Stretch {
        end: front.end,
        place: front.place,
        height: front.nest.height,
    })
}
