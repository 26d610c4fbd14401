// The tracks of some bytes from several states at once.
ghost use Rattle.std.specs.Prelude.{◌≡◌, ◌<◌, ◌≤◌, ◌+◌, ◌^◌, ◌∷◌, [], length, replicate, true, false, OnOk, IfOk, if◌then◌else◌, ◌⊎◌, slice_range, ℕ};
ghost use Rattle.jx_lex.specs.declared.alphabet.state.LexState.{LexState};
ghost use Rattle.jx_maps.specs.inside.Closed.{IsClosed};
ghost use Rattle.jx_maps.specs.Follow.{IsIn, head};
ghost use Rattle.jx_maps.specs.inside.Step.{opening};
ghost use Rattle.jx_maps.specs.inside.Bundle.{IsBundleOf, Stands, ReadsOn, joined_bundle, live_count, is_live, with_byte, with_segment};

use crate::link::{Link, link_heads, same_heads};
use crate::segment::{Segment, append_linked};
use crate::two_tracks::read_lanes;
use jx_lex::{LexState, step};
use std::alloc::{AllocError, Global};
use std::marker::Model;

/// The tracks of some bytes from several states, where more bytes may follow: where each track begins, their segments,
/// and in which states one may stand at the end.
#[derive(Drop)]
pub(crate) struct Bundle {
    pub(crate) heads: [Link; 32],
    pub(crate) segments: Vec<Segment>,
    pub(crate) live: [bool; 32],
}

impl Model for Bundle {
    ghost use Rattle.jx_maps.specs.inside.Bundle.{Bundle};

    ghost Value = { Bundle };

    ghost view = { λ b. record { heads = b.heads; segments = b.segments.items; live = b.live } };
}

/// Whether this state is among the live ones.
pub(crate) fn is_live(live: &[bool; 32], state: LexState) -> bool
    ensures { result ≡ is_live live.now state }
{
    live[state.number()]
}

/// How many states are live.
pub(crate) fn count_live(live: &[bool; 32]) -> usize
    ensures { result ≡ live_count live.now }
{
    let mut count = 0;
    for state in LexState::all() {
        if is_live(live, state) {
            count += 1;
        }
    }
    count
}

impl Bundle {
    /// Nothing read, from every state.
    pub(crate) fn unread(alloc: Global) -> Bundle
        ensures reads { (at : ℕ) → IsBundleOf at [] (replicate 32 true) result }
        ensures stands { Stands [] (replicate 32 true) result }
    {
        Bundle {
            heads: same_heads(),
            segments: Vec::new(alloc),
            live: [true; 32],
        }
    }

    /// No track yet.
    fn empty(alloc: Global, live: [bool; 32]) -> Bundle
        ensures { result ≡ record { heads = replicate 32 (Link.Fault 0); segments = []; live = live } }
    {
        Bundle {
            heads: [Link::Fault(0); 32],
            segments: Vec::new(alloc),
            live,
        }
    }

    /// Puts this segment after the others; the track from this state begins with it.
    fn add_segment(&mut self, state: LexState, segment: Segment) -> Result<(), AllocError>
        ensures { OnOk result (self.new ≡ with_segment state segment self.old.live self.old) }
    {
        self.heads[state.number()] = Link::Ahead(self.segments.len());
        self.segments.push(segment)?;
        Ok(())
    }

    /// Adds the track of one byte from this state. A byte with no event needs no segment.
    fn add_byte(&mut self, state: LexState, at: usize, byte: u8) -> Result<(), AllocError>
        requires { at + 1 < 2 ^ 64 }
        ensures { OnOk result (self.new ≡ with_byte at byte state self.old) }
    {
        let step = step(state, byte);
        if let Some(next) = step.next {
            self.live[next.number()] = true;
        }
        if step.end.is_none() && step.begin.is_none() {
            self.heads[state.number()] = Link::after(step.next, at);
            return Ok(());
        }
        let mut segment = Segment::new(*self.segments.allocator(), Link::State(state));
        segment.read(at, byte)?;
        self.add_segment(state, segment)
    }

    /// Adds the track of one byte from this state where the state is live, and nothing otherwise.
    fn add_live_byte(
        &mut self,
        live: &[bool; 32],
        state: LexState,
        at: usize,
        byte: u8,
    ) -> Result<(), AllocError>
        requires { at + 1 < 2 ^ 64 }
        ensures { OnOk result (self.new ≡ (if is_live live.now state then with_byte at byte state self.old else self.old)) }
    {
        if is_live(live, state) {
            self.add_byte(state, at, byte)?;
        }
        Ok(())
    }

    /// The tracks of one byte from the live states.
    pub(crate) fn of_byte(
        alloc: Global,
        live: &[bool; 32],
        at: usize,
        byte: u8,
    ) -> Result<Bundle, AllocError>
        requires { at + 1 < 2 ^ 64 }
        ensures reads { IfOk result (λ b. IsBundleOf at (byte ∷ []) live.now b) }
        ensures stands { IfOk result (λ b. Stands (byte ∷ []) live.now b) }
    {
        let mut bundle = Bundle::empty(alloc, [false; 32]);
        for state in LexState::all() {
            bundle.add_live_byte(live, state, at, byte)?;
        }
        Ok(bundle)
    }

    /// Adds a segment from this state, with nothing read, where the state is live, and nothing otherwise.
    fn open_live(&mut self, live: &[bool; 32], state: LexState) -> Result<(), AllocError>
        ensures { OnOk result (self.new ≡ (if is_live live.now state then with_segment state (opening state) self.old.live self.old else self.old)) }
    {
        if is_live(live, state) {
            let segment = Segment::new(*self.segments.allocator(), Link::State(state));
            self.add_segment(state, segment)?;
        }
        Ok(())
    }

    /// A segment for each live state, with nothing read.
    pub(crate) fn open(alloc: Global, live: &[bool; 32]) -> Result<Bundle, AllocError>
        ensures reads { IfOk result (λ b. (at : ℕ) → IsBundleOf at [] live.now b) }
        ensures stands { IfOk result (λ b. Stands [] live.now b) }
        ensures closed { IfOk result (λ b. (s : LexState) → IsClosed (head b.heads s)) }
        ensures count { IfOk result (λ b. length b.segments ≡ live_count live.now) }
    {
        let mut bundle = Bundle::empty(alloc, *live);
        for state in LexState::all() {
            bundle.open_live(live, state)?;
        }
        Ok(bundle)
    }

    /// Reads on to the end of a span, where at most two states are live or nothing is left to read.
    pub(crate) fn read_on(self, text: &[u8], from: usize, to: usize) -> Result<Bundle, AllocError>
        requires bounds { (from ≤ to) × (to ≤ length text.now) }
        requires few { (length self.segments ≤ 2) ⊎ (from ≡ to) }
        ensures heads { IfOk result (λ b. b.heads ≡ self.heads) }
        ensures live { IfOk result (λ b. b.live ≡ self.live) }
        ensures read { IfOk result (λ b. ReadsOn from (slice_range text.now from to) self.segments b.segments) }
    {
        let Bundle {
            heads,
            segments,
            live,
        } = self;
        let segments = read_lanes(segments, text, from, to)?;
        Ok(Bundle {
            heads,
            segments,
            live,
        })
    }

    /// Continues each track by the right track from the state in which it stands.
    pub(crate) fn join(&mut self, right: Bundle) -> Result<(), AllocError>
        requires inside { (s : LexState) → IsIn (length right.segments) (head right.heads s) }
        ensures { OnOk result (self.new ≡ joined_bundle self.old right) }
    {
        let mut right = right;
        let len = self.segments.len();
        let count = right.segments.len();
        append_linked(&mut self.segments, &mut right.segments, &right.heads, 0)?;
        link_heads(&mut self.heads, &right.heads, len, count);
        self.live = right.live;
        Ok(())
    }
}
