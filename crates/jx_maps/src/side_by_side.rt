// Reading on where more than two tracks are left, side by side.
ghost use Rattle.std.specs.Prelude.{◌≡◌, ◌≤◌, ◌<◌, ◌+◌, ◌^◌, ℕ, List, IsTrue, length, map, OnOk, IfOk, slice_range};
ghost use Rattle.jx_lex.specs.declared.alphabet.state.LexState.{LexState};
ghost use Rattle.jx_lex.specs.declared.alphabet.state.LexState.TheVariants as state;
ghost use Rattle.jx_maps.specs.inside.Bundle.{IsBundleOf, Stands, ReadsOn, StandIn};
ghost use Rattle.jx_maps.specs.inside.Passing.{KeptBy, AllKept};
ghost use Rattle.jx_lex.specs.Uneventful.{AllKeep};
ghost use Rattle.jx_maps.specs.inside.Step.{read_segment, held_by};

use crate::bundle::Bundle;
use crate::link::Link;
use crate::segment::Segment;
use jx_lex::{LexState, digit_end};
use std::alloc::{AllocError, Global};

/// The states in which the segments stand.
fn live_of(segments: &[Segment]) -> [bool; 32]
    ensures { StandIn result segments.now }
{
    let mut live = [false; 32];
    for i in 0..segments.len() {
        if let Link::State(state) = segments[i].next() {
            live[state.number()] = true;
        }
    }
    live
}

/// Whether more than two of the segments stand in a state, and no two in the same one.
fn are_many_apart(segments: &[Segment]) -> bool
    ensures { IsTrue result → (s : LexState) → held_by s segments.now ≤ 1 }
{
    let mut seen = [false; 32];
    let mut standing = 0usize;
    for i in 0..segments.len() {
        if let Link::State(state) = segments[i].next() {
            if seen[state.number()] {
                return false;
            }
            seen[state.number()] = true;
            standing += 1;
        }
    }
    standing > 2
}

/// Reads one more byte at the end of each segment.
fn read_each(segments: &mut [Segment], at: usize, byte: u8) -> Result<(), AllocError>
    requires { at + 1 < 2 ^ 64 }
    ensures { OnOk result (segments.new ≡ map (read_segment at byte) segments.old) }
{
    for i in 0..segments.len() {
        let segment = &mut segments[i];
        segment.read(at, byte)?;
    }
    Ok(())
}

/// Whether digits change nothing for a segment that this follows.
fn keeps_digits(next: Link) -> bool
    ensures { IsTrue result → (w : List ℕ) → AllKeep state.Str w → AllKeep state.Int w → AllKeep state.Frac w → AllKeep state.Exp w → KeptBy next w }
{
    match next {
        Link::State(LexState::Str) => true,
        Link::State(LexState::Int) => true,
        Link::State(LexState::Frac) => true,
        Link::State(LexState::Exp) => true,
        Link::State(_) => false,
        Link::Ahead(_) => true,
        Link::Fault(_) => true,
    }
}

/// Whether digits change nothing for all of the segments.
fn all_keep_digits(segments: &[Segment]) -> bool
    ensures { IsTrue result → (w : List ℕ) → AllKeep state.Str w → AllKeep state.Int w → AllKeep state.Frac w → AllKeep state.Exp w → AllKept w segments.now }
{
    for i in 0..segments.len() {
        if !keeps_digits(segments[i].next()) {
            return false;
        }
    }
    true
}

/// The end of the digits that follow, where they change none of the segments.
fn still_end(segments: &[Segment], text: &[u8], from: usize, to: usize) -> usize
    requires { (from ≤ to) × (to ≤ length text.now) }
    ensures bounds { (from ≤ result) × (result ≤ to) }
    ensures kept { AllKept (slice_range text.now from result) segments.now }
{
    if all_keep_digits(segments) {
        digit_end(text, from, to)
    } else {
        from
    }
}

/// Reads segments side by side while more than two stand, and no two in the same state. Gives the end of what was read.
fn read_apart(
    segments: &mut [Segment],
    text: &[u8],
    from: usize,
    to: usize,
) -> Result<usize, AllocError>
    requires { (from ≤ to) × (to ≤ length text.now) }
    ensures bounds { IfOk result (λ end. (from ≤ end) × (end ≤ to)) }
    ensures read { IfOk result (λ end. ReadsOn from (slice_range text.now from end) segments.old segments.new) }
{
    let mut i = from;
    while i < to && are_many_apart(segments) {
        read_each(segments, i, text[i])?;
        i = still_end(segments, text, i + 1, to);
    }
    Ok(i)
}

/// Reads the tracks of a bundle side by side until two of them meet or no more than two are left. Gives the end of what
/// was read, too.
fn go_on(bundle: Bundle, text: &[u8], from: usize, to: usize) -> Result<(Bundle, usize), AllocError>
    requires { (from ≤ to) × (to ≤ length text.now) }
    ensures bounds { IfOk result (λ r. (from ≤ r.1) × (r.1 ≤ to)) }
    ensures heads { IfOk result (λ r. r.0.heads ≡ bundle.heads) }
    ensures read { IfOk result (λ r. ReadsOn from (slice_range text.now from r.1) bundle.segments r.0.segments) }
    ensures stand { IfOk result (λ r. StandIn r.0.live r.0.segments) }
{
    let Bundle {
        heads,
        segments,
        ..
    } = bundle;
    let mut segments = segments;
    let end = read_apart(&mut segments, text, from, to)?;
    let live = live_of(&segments);
    let bundle = Bundle {
        heads,
        segments,
        live,
    };
    Ok((bundle, end))
}

/// The tracks of one byte or more from the live states. Where many tracks have been left for long, they are read side by
/// side until two of them meet or no more than two are left.
pub(crate) fn read_some(
    alloc: Global,
    live: &[bool; 32],
    text: &[u8],
    at: usize,
    end: usize,
    long: bool,
) -> Result<(Bundle, usize), AllocError>
    requires { (at < end) × (end ≤ length text.now) }
    ensures bounds { IfOk result (λ r. (at < r.1) × (r.1 ≤ end)) }
    ensures reads { IfOk result (λ r. IsBundleOf at (slice_range text.now at r.1) live.now r.0) }
    ensures stands { IfOk result (λ r. Stands (slice_range text.now at r.1) live.now r.0) }
{
    let mut byte = Bundle::of_byte(alloc, live, at, text[at])?;
    if !long {
        return Ok((byte, at + 1));
    }
    let open = Bundle::open(alloc, &byte.live)?;
    let (rest, after) = go_on(open, text, at + 1, end)?;
    byte.join(rest)?;
    Ok((byte, after))
}
