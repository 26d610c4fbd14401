// The reading of a span from each state.
ghost use Rattle.std.specs.Prelude.{◌≡◌, ◌⊎◌, ◌≤◌, ◌<◌, ◌+◌, ◌++◌, length, IfOk, IfErr, slice_range, ℕ, List};
ghost use Rattle.jx_lex.specs.declared.alphabet.state.LexState.{LexState};
ghost use Rattle.jx_maps.specs.View.{view_track};
ghost use Rattle.jx_maps.specs.Shared.{shared_count};
ghost use Rattle.jx_maps.specs.Map.{ArePlaced, EndsInTwo, joined_map, IsOf, stored, track};

use crate::bundle::{Bundle, count_live};
use crate::link::{Link, link_heads};
use crate::reach::{append_reached, exits, reached_from};
use crate::segment::Segment;
use crate::side_by_side::read_some;
use crate::track_view::TrackView;
use jx_lex::LexState;
use jx_summary::{JoinFault, Span};
use std::alloc::{AllocError, Global};
use std::marker::Model;

/// How many bytes are read one by one from all states. Mostly two tracks are left by then.
const MANY_BYTES: usize = 16;

/// How many bytes a beginning has at least. Tracks that meet have mostly met by then.
const BEGINNING: usize = 64;

/// The reading of a part of a text from each of the 32 lexical states, without the bytes to its left: token starts,
/// ends and an exit for each. Tracks that reach the same state before the same byte go on as one.
#[derive(Drop)]
pub struct ChunkMap {
    start: usize,
    end: usize,
    heads: [Link; 32],
    segments: Vec<Segment>,
    // How many segments in front are known to lead to no state, so that a join leaves them as they are.
    closed: usize,
}

impl Model for ChunkMap {
    ghost use Rattle.jx_maps.specs.Map.{Map, IsLinked};
    ghost use Rattle.jx_maps.specs.inside.Closed.{AreClosed};

    ghost Value = { Map };

    ghost view = { λ m. record { start = m.start; end = m.end; heads = m.heads; segments = m.segments.items } };

    ghost invariant = { λ m. IsLinked (record { start = m.start; end = m.end; heads = m.heads; segments = m.segments.items }) × AreClosed m.closed m.heads m.segments.items };
}

impl ChunkMap {
    /// The part of the text that was read.
    pub fn span(&self) -> Span
        ensures value { result ≡ record { start = self.now.start; end = self.now.end } }
    {
        Span {
            start: self.start,
            end: self.end,
        }
    }

    /// The segments of which the tracks are made.
    pub fn segments(&self) -> &[Segment]
        ensures value { result.now ≡ self.now.segments }
    {
        &self.segments
    }

    /// The number of token starts that the map holds, those of all segments together.
    pub fn stored(&self) -> u128
        ensures value { result ≡ stored self.now.segments }
    {
        let mut stored = 0;
        for segment in &self.segments {
            stored += segment.marks().len() as u128;
        }
        stored
    }

    /// The reading of the span from this state.
    pub fn entry(&self, state: LexState) -> TrackView<'_>
        ensures track { view_track result ≡ track self.now state }
        ensures segments { result.segments ≡ self.now.segments }
    {
        TrackView {
            segments: &self.segments,
            first: self.heads[state.number()],
        }
    }

    /// The reading of this part of the text from each state.
    pub fn of(alloc: Global, text: &[u8], start: usize, end: usize) -> Result<ChunkMap, AllocError>
        requires { (start ≤ end) × (end ≤ length text.now) }
        ensures start { IfOk result (λ m. m.start ≡ start) }
        ensures end { IfOk result (λ m. m.end ≡ end) }
        ensures of { IfOk result (λ m. IsOf (slice_range text.now start end) m) }
        ensures stored { IfOk result (λ m. stored m.segments ≤ shared_count (slice_range text.now start end)) }
        ensures placed { IfOk result (λ m. ArePlaced start end m.segments) }
    {
        ChunkMap::up_to(alloc, text, start, end, end)
    }

    /// The map of a beginning of this part of the text, so long that its tracks stand in at most two states after it,
    /// or else of all of it. Whatever keeps the outcome of the rest can then be read with `scan` from these states
    /// alone.
    pub fn of_beginning(
        alloc: Global,
        text: &[u8],
        start: usize,
        end: usize,
    ) -> Result<ChunkMap, AllocError>
        requires { (start ≤ end) × (end ≤ length text.now) }
        ensures start { IfOk result (λ m. m.start ≡ start) }
        ensures end { IfOk result (λ m. (start ≤ m.end) × (m.end ≤ end)) }
        ensures of { IfOk result (λ m. IsOf (slice_range text.now start m.end) m) }
        ensures few { IfOk result (λ m. (m.end ≡ end) ⊎ EndsInTwo m) }
        ensures stored { IfOk result (λ m. stored m.segments ≤ shared_count (slice_range text.now start m.end)) }
        ensures placed { IfOk result (λ m. ArePlaced start m.end m.segments) }
    {
        let least = if end - start < BEGINNING {
            end
        } else {
            start + BEGINNING
        };
        ChunkMap::up_to(alloc, text, start, least, end)
    }

    /// The map of a beginning that has at least the bytes before `least`, and goes on until its tracks stand in at most two
    /// states.
    fn up_to(
        alloc: Global,
        text: &[u8],
        start: usize,
        least: usize,
        end: usize,
    ) -> Result<ChunkMap, AllocError>
        requires { (start ≤ least) × (least ≤ end) × (end ≤ length text.now) }
        ensures start { IfOk result (λ m. m.start ≡ start) }
        ensures end { IfOk result (λ m. (least ≤ m.end) × (m.end ≤ end)) }
        ensures of { IfOk result (λ m. IsOf (slice_range text.now start m.end) m) }
        ensures few { IfOk result (λ m. (m.end ≡ end) ⊎ EndsInTwo m) }
        ensures stored { IfOk result (λ m. stored m.segments ≤ shared_count (slice_range text.now start m.end)) }
        ensures placed { IfOk result (λ m. ArePlaced start m.end m.segments) }
    {
        let mut bundle = Bundle::unread(alloc);
        let mut at = start;
        while at < end && count_live(&bundle.live) > 2 {
            let long = at - start >= MANY_BYTES;
            let (next, after) = read_some(alloc, &bundle.live, text, at, end, long)?;
            bundle.join(next)?;
            at = after;
        }
        let to = at.max(least);
        let rest = Bundle::open(alloc, &bundle.live)?.read_on(text, at, to)?;
        bundle.join(rest)?;
        let Bundle {
            heads,
            segments,
            ..
        } = bundle;
        Ok(ChunkMap {
            start,
            end: to,
            heads,
            segments,
            closed: 0,
        })
    }

    /// The map of both spans. Of the right it keeps what the tracks of the left reach: the token starts and ends of its
    /// other segments are freed. Where it is refused both maps come back as they were.
    pub fn join(self, right: ChunkMap) -> Result<ChunkMap, JoinFault<ChunkMap>>
        requires { self.end ≡ right.start }
        ensures start { IfOk result (λ j. j.start ≡ self.start) }
        ensures end { IfOk result (λ j. j.end ≡ right.end) }
        ensures tracks { IfOk result (λ j. (s : LexState) → track j s ≡ track (joined_map self right) s) }
        ensures of { IfOk result (λ j. (xs ys : List ℕ) → IsOf xs self → IsOf ys right → IsOf (xs ++ ys) j) }
        ensures stored { IfOk result (λ j. stored j.segments ≤ stored self.segments + stored right.segments) }
        ensures err { IfErr result (λ e. (e.left ≡ self) × (e.right ≡ right)) }
    {
        let mut left = self;
        let mut right = right;
        let len = left.segments.len();
        let count = right.segments.len();
        let live = exits(&left.heads, &left.segments, left.closed);
        let alloc = *left.segments.allocator();
        let Ok(reached) = reached_from(alloc, &right.heads, &live, count) else {
            return Err(JoinFault { left, right });
        };
        match append_reached(
            &mut left.segments,
            &mut right.segments,
            &right.heads,
            left.closed,
            reached,
        ) {
            Ok(()) => {
                link_heads(&mut left.heads, &right.heads, len, count);
                left.closed = len + right.closed;
                left.end = right.end;
                Ok(left)
            }
            Err(AllocError) => Err(JoinFault { left, right }),
        }
    }
}
