// Segments: token starts and ends that one or more tracks have in common.
ghost use Rattle.std.specs.Prelude.{◌≡◌, ◌≤◌, ◌<◌, ◌+◌, ◌++◌, [], ◌^◌, length, OnOk, OnErr};
ghost use Rattle.jx_maps.specs.inside.Closed.{ClosedTo};
ghost use Rattle.jx_lex.specs.declared.alphabet.state.LexState.{LexState};
ghost use Rattle.jx_maps.specs.Follow.{IsIn, head, linked_segments};
ghost use Rattle.jx_maps.specs.inside.Step.{read_segment};

use crate::link::Link;
use jx_lex::{LexState, Mark, TokenEnd, step};
use smallvec::SmallVec;
use std::alloc::{AllocError, Global};
use std::marker::Model;

/// How many token starts, and how many ends, a segment holds without memory of its own. Most tracks meet within a few
/// bytes, so most segments hold no more.
const FEW: usize = 4;

/// Token starts and ends that each track through this segment has, one after another.
#[derive(Drop)]
pub struct Segment {
    pub(crate) marks: SmallVec<Mark, FEW>,
    pub(crate) ends: SmallVec<usize, FEW>,
    pub(crate) next: Link,
}

impl Model for Segment {
    ghost use Rattle.jx_maps.specs.Follow.{SegmentValue};

    ghost Value = { SegmentValue };

    ghost view = { λ s. record { marks = s.marks.items; ends = s.ends.items; next = s.next } };
}

impl Segment {
    /// A segment with no token starts and no ends, which this link follows.
    pub(crate) fn new(alloc: Global, next: Link) -> Segment
        ensures { result ≡ record { marks = []; ends = []; next = next } }
    {
        Segment {
            marks: SmallVec::new(alloc),
            ends: SmallVec::new(alloc),
            next,
        }
    }

    /// These token starts and ends, which this link follows. Where they are many, the memory that has them is kept.
    pub(crate) fn of(marks: Vec<Mark>, ends: Vec<usize>, next: Link) -> Segment
        ensures { result ≡ record { marks = marks.items; ends = ends.items; next = next } }
    {
        let mut segment = Segment {
            marks: SmallVec::from_vec(marks),
            ends: SmallVec::from_vec(ends),
            next,
        };
        if segment.marks.len() <= FEW {
            segment.marks.shrink_to_fit();
        }
        if segment.ends.len() <= FEW {
            segment.ends.shrink_to_fit();
        }
        segment
    }

    /// The token starts of the segment, in order.
    pub fn marks(&self) -> &[Mark]
        ensures { result.now ≡ self.now.marks }
    {
        self.marks.as_slice()
    }

    /// The ends of its strings, numbers and literals, in order, each just past the token's last byte.
    pub fn ends(&self) -> &[usize]
        ensures { result.now ≡ self.now.ends }
    {
        self.ends.as_slice()
    }

    /// The link that follows it.
    pub fn next(&self) -> Link
        ensures { result ≡ self.now.next }
    {
        self.next
    }

    /// Lets go of its token starts and ends.
    pub(crate) fn empty(&mut self)
        ensures { self.new ≡ record self.old { marks = []; ends = [] } }
    {
        let alloc = *self.marks.allocator();
        self.marks = SmallVec::new(alloc);
        self.ends = SmallVec::new(alloc);
    }

    /// Takes in one more byte, where this is the end of a track.
    pub(crate) fn read(&mut self, at: usize, byte: u8) -> Result<(), AllocError>
        requires { at + 1 < 2 ^ 64 }
        ensures { OnOk result (self.new ≡ read_segment at byte self.old) }
    {
        let Link::State(state) = self.next else {
            return Ok(());
        };
        let step = step(state, byte);
        match step.end {
            Some(TokenEnd::Before) => self.ends.push(at)?,
            Some(TokenEnd::After) => self.ends.push(at + 1)?,
            None => {}
        }
        if let Some(kind) = step.begin {
            self.marks.push(Mark { kind, at })?;
        }
        self.next = Link::after(step.next, at);
        Ok(())
    }

    /// Sets what follows it. Its token starts and ends stay.
    pub(crate) fn set_next(&mut self, next: Link)
        ensures { self.new ≡ record self.old { next = next } }
    {
        self.next = next;
    }
}

/// Links each open exit to the right map's head for that state.
/// The first `closed` segments have no open exit, and stay as they are.
pub(crate) fn link_segments(
    segments: &mut [Segment],
    heads: &[Link; 32],
    closed: usize,
    count: usize,
)
    requires all { (s : LexState) → IsIn count (head heads.now s) }
    requires fits { length segments.old + count < 2 ^ 64 }
    requires within { closed ≤ length segments.old }
    requires all_closed { ClosedTo closed segments.old }
    ensures { segments.new ≡ linked_segments heads.now segments.old }
{
    let len = segments.len();
    for i in closed..len {
        let segment = &mut segments[i];
        let next = segment.next().linked(heads, len - i - 1, count);
        segment.set_next(next);
    }
}

/// Moves the right's segments after the left's, and links each open exit of the left to the right map's head for that
/// state.
pub(crate) fn append_linked(
    left: &mut Vec<Segment>,
    right: &mut Vec<Segment>,
    heads: &[Link; 32],
    closed: usize,
) -> Result<(), AllocError>
    requires inside { (s : LexState) → IsIn (length right.old.items) (head heads.now s) }
    requires within { closed ≤ length left.old.items }
    requires all_closed { ClosedTo closed left.old.items }
    ensures ok { OnOk result (left.new.items ≡ linked_segments heads.now left.old.items ++ right.old.items) }
    ensures err { OnErr result ((left.new.items ≡ left.old.items) × (right.new.items ≡ right.old.items)) }
    ensures fits { OnOk result (length left.old.items + length right.old.items < 2 ^ 64) }
{
    let count = right.len();
    left.reserve(count)?;
    link_segments(left, heads, closed, count);
    left.append(right)
}
