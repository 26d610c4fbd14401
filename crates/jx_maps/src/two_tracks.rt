// Reading on where only one or two tracks are left.
ghost use Rattle.std.specs.Prelude.{◌≡◌, ◌≤◌, ◌<◌, ◌+◌, ◌∷◌, [], ◌⊎◌, false, length, IfOk, IfSome, IsNone, IsTrue, slice_range};
ghost use Rattle.jx_maps.specs.declared.link.Link.TheVariants.{State};
ghost use Rattle.jx_maps.specs.inside.Bundle.{ReadsOn, is_apart};

use crate::lane::Lane;
use crate::link::Link;
use crate::segment::Segment;
use jx_lex::{LexState, plain_end};
use std::alloc::AllocError;

// Two tracks are read apart, some bytes at a time: first `FIRST_STRETCH`, then each time twice as many, up to
// `LONGEST_STRETCH`. Bytes in which the tracks may have met are read again.
const FIRST_STRETCH: usize = 64;

const LONGEST_STRETCH: usize = 4096;

/// Whether both stand in a state, and not in the same one.
fn are_apart(first: Link, second: Link) -> bool
    ensures { result ≡ is_apart first second }
{
    match (first, second) {
        (Link::State(one), Link::State(other)) => one.number() != other.number(),
        _ => false,
    }
}

/// Where one of two segments is inside a string, reads the other one alone up to the next byte that is not plain in a
/// string. Until there the first stays as it is. Gives the end of what was read.
fn read_plain(
    first: &mut Lane,
    second: &mut Lane,
    text: &[u8],
    from: usize,
    to: usize,
) -> Result<usize, AllocError>
    requires { (from ≤ to) × (to ≤ length text.now) }
    ensures bounds { IfOk result (λ end. (from ≤ end) × (end ≤ to)) }
    ensures read { IfOk result (λ end. ReadsOn from (slice_range text.now from end) (first.old ∷ second.old ∷ []) (first.new ∷ second.new ∷ [])) }
{
    if let Link::State(LexState::Str) = first.next() {
        let end = plain_end(text, from, to);
        second.read_span(text, from, end)?;
        return Ok(end);
    }
    if let Link::State(LexState::Str) = second.next() {
        let end = plain_end(text, from, to);
        first.read_span(text, from, end)?;
        return Ok(end);
    }
    Ok(from)
}

/// Reads two segments side by side while they stand in different states. Gives the end of what was read.
fn read_pair(
    first: &mut Lane,
    second: &mut Lane,
    text: &[u8],
    from: usize,
    to: usize,
) -> Result<usize, AllocError>
    requires { (from ≤ to) × (to ≤ length text.now) }
    ensures bounds { IfOk result (λ end. (from ≤ end) × (end ≤ to)) }
    ensures read { IfOk result (λ end. ReadsOn from (slice_range text.now from end) (first.old ∷ second.old ∷ []) (first.new ∷ second.new ∷ [])) }
    ensures done { IfOk result (λ end. end < to → is_apart first.new.next second.new.next ≡ false) }
{
    let mut i = from;
    while i < to && are_apart(first.next(), second.next()) {
        first.read(i, text[i])?;
        second.read(i, text[i])?;
        i = read_plain(first, second, text, i + 1, to)?;
    }
    Ok(i)
}

/// Whether both may lead to the same place. False only where they don't.
fn may_lead_alike(first: Link, second: Link) -> bool
    ensures { result ≡ false → first ≡ second → ⊥ }
{
    match (first, second) {
        (Link::State(one), Link::State(other)) => one.number() == other.number(),
        (Link::State(_), Link::Fault(_)) => false,
        (Link::Fault(_), Link::State(_)) => false,
        _ => true,
    }
}

/// The end of so many bytes, or of all that is left.
fn stretch_end(from: usize, to: usize, stretch: usize) -> usize
    requires { (from < to) × (0 < stretch) }
    ensures { (from < result) × (result ≤ to) }
{
    if to - from < stretch {
        to
    } else {
        from + stretch
    }
}

/// Reads two segments over some bytes, one after the other. Where both may then lead to the same place, they may have
/// met in these bytes: both are put back as they were, and the answer is true.
fn may_have_met(
    first: &mut Lane,
    second: &mut Lane,
    text: &[u8],
    from: usize,
    to: usize,
) -> Result<bool, AllocError>
    requires { (from ≤ to) × (to ≤ length text.now) }
    ensures read { IfOk result (λ met. met ≡ false → ReadsOn from (slice_range text.now from to) (first.old ∷ second.old ∷ []) (first.new ∷ second.new ∷ [])) }
    ensures back { IfOk result (λ met. IsTrue met → (first.new ≡ first.old) × (second.new ≡ second.old)) }
{
    let (marks, ends, next) = (first.marks(), first.ends(), first.next());
    let (others, other_ends, other) = (second.marks(), second.ends(), second.next());
    first.read_span(text, from, to)?;
    second.read_span(text, from, to)?;
    if may_lead_alike(first.next(), second.next()) {
        first.go_back(marks, ends, next);
        second.go_back(others, other_ends, other);
        return Ok(true);
    }
    Ok(false)
}

/// Reads two segments while they are in different states, some bytes at a time. Gives the end of what was read.
fn read_stretches(
    first: &mut Lane,
    second: &mut Lane,
    text: &[u8],
    from: usize,
    to: usize,
) -> Result<usize, AllocError>
    requires { (from ≤ to) × (to ≤ length text.now) }
    ensures bounds { IfOk result (λ end. (from ≤ end) × (end ≤ to)) }
    ensures read { IfOk result (λ end. ReadsOn from (slice_range text.now from end) (first.old ∷ second.old ∷ []) (first.new ∷ second.new ∷ [])) }
    ensures done { IfOk result (λ end. end < to → is_apart first.new.next second.new.next ≡ false) }
{
    let mut i = from;
    let mut stretch = FIRST_STRETCH;
    while i < to && are_apart(first.next(), second.next()) {
        let end = stretch_end(i, to, stretch);
        if may_have_met(first, second, text, i, end)? {
            let met = read_pair(first, second, text, i, to)?;
            return Ok(met);
        }
        i = end;
        if stretch < LONGEST_STRETCH {
            stretch *= 2;
        }
    }
    Ok(i)
}

/// Reads to the end from two segments that have reached the same state: both go on in a third.
fn read_met(
    lanes: Vec<Segment>,
    first: Lane,
    second: Lane,
    state: LexState,
    text: &[u8],
    from: usize,
    to: usize,
) -> Result<Vec<Segment>, AllocError>
    requires bounds { (from ≤ to) × (to ≤ length text.now) }
    requires none { lanes.items ≡ [] }
    requires stand { (first.next ≡ State state) × (second.next ≡ State state) }
    ensures { IfOk result (λ lanes. ReadsOn from (slice_range text.now from to) (first ∷ second ∷ []) lanes.items) }
{
    let mut lanes = lanes;
    let mut third = Lane::new(*lanes.allocator(), Link::State(state));
    third.read_span(text, from, to)?;
    lanes.push(first.followed_by(Link::Ahead(1)))?;
    lanes.push(second.followed_by(Link::Ahead(0)))?;
    lanes.push(third.into_segment())?;
    Ok(lanes)
}

/// The state in which both stand, if they do.
fn common_state(first: Link, second: Link) -> Option<LexState>
    ensures both { IfSome result (λ state. (first ≡ State state) × (second ≡ State state)) }
    ensures none { IsNone result → (s : LexState) → first ≡ State s → second ≡ State s → ⊥ }
{
    match (first, second) {
        (Link::State(one), Link::State(other)) if one == other => Some(one),
        _ => None,
    }
}

/// Reads two segments to the end. The vector that comes in is empty.
fn read_two(
    lanes: Vec<Segment>,
    first: Lane,
    second: Lane,
    text: &[u8],
    from: usize,
    to: usize,
) -> Result<Vec<Segment>, AllocError>
    requires bounds { (from ≤ to) × (to ≤ length text.now) }
    requires none { lanes.items ≡ [] }
    ensures { IfOk result (λ lanes. ReadsOn from (slice_range text.now from to) (first ∷ second ∷ []) lanes.items) }
{
    let mut lanes = lanes;
    let mut first = first;
    let mut second = second;
    let i = read_stretches(&mut first, &mut second, text, from, to)?;
    if let Some(state) = common_state(first.next(), second.next()) {
        let lanes = read_met(lanes, first, second, state, text, i, to)?;
        return Ok(lanes);
    }
    first.read_span(text, i, to)?;
    second.read_span(text, i, to)?;
    lanes.push(first.into_segment())?;
    lanes.push(second.into_segment())?;
    Ok(lanes)
}

/// Reads to the end where at most two segments are left, or where nothing is left to read.
pub(crate) fn read_lanes(
    lanes: Vec<Segment>,
    text: &[u8],
    from: usize,
    to: usize,
) -> Result<Vec<Segment>, AllocError>
    requires bounds { (from ≤ to) × (to ≤ length text.now) }
    requires few { (length lanes.items ≤ 2) ⊎ (from ≡ to) }
    ensures { IfOk result (λ new. ReadsOn from (slice_range text.now from to) lanes.items new.items) }
{
    let mut lanes = lanes;
    let Some(second) = lanes.pop() else {
        return Ok(lanes);
    };
    let Some(first) = lanes.pop() else {
        let mut only = Lane::of(second)?;
        only.read_span(text, from, to)?;
        lanes.push(only.into_segment())?;
        return Ok(lanes);
    };
    if lanes.is_empty() {
        let first = Lane::of(first)?;
        let second = Lane::of(second)?;
        let lanes = read_two(lanes, first, second, text, from, to)?;
        return Ok(lanes);
    }
    lanes.push(first)?;
    lanes.push(second)?;
    Ok(lanes)
}
