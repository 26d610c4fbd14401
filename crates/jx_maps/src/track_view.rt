// One track of a map, as it is shown.
ghost use Rattle.std.specs.Prelude.{◌≡◌, ◌<◌, ◌+◌, length, slice_index_or, drop, All, flat_map};
ghost use Rattle.jx_lex.specs.Exit.{exit_of};
ghost use Rattle.jx_maps.specs.View.{view_track, view_path, marks_at, ends_at};

use crate::items::{Ends, Marks};
use crate::link::Link;
use crate::path::Path;
use crate::segment::Segment;
use jx_lex::LexExit;
use std::marker::Model;

/// A track: the token starts and ends of its segments, one after another, and its exit. A track that met a fault has
/// the token starts and ends before it.
#[derive(Drop)]
pub struct TrackView<'a> {
    pub(crate) segments: &'a [Segment],
    pub(crate) first: Link,
}

impl<'a> Model for TrackView<'a> {
    ghost use Rattle.std.specs.Prelude.{length};
    ghost use Rattle.jx_maps.specs.Follow.{IsIn, AreIn};
    ghost use Rattle.jx_maps.specs.View.{View};

    ghost Value = { View };

    ghost view = { λ v. record { segments = v.segments.now; first = v.first } };

    ghost invariant = { λ v. IsIn (length v.segments.now) v.first × AreIn v.segments.now };
}

/// The segment after the next `skip` ones, and those that follow it.
pub(crate) fn walk<'a>(rest: &'a [Segment], skip: usize) -> (&'a Segment, &'a [Segment])
    requires { skip < length rest.now }
    ensures segment { result.0.now ≡ slice_index_or rest.now skip result.0.now }
    ensures more { result.1.now ≡ drop (skip + 1) rest.now }
{
    match rest[skip..].split_first() {
        Some((segment, more)) => (segment, more),
        None => unreachable!(),
    }
}

impl<'a> TrackView<'a> {
    /// The state at the end of the span, or the offset of the first fault.
    pub fn exit(&self) -> LexExit
        ensures value { exit_of result ≡ (view_track self.now).exit }
    {
        let mut rest = self.segments;
        let mut next = self.first;
        while let Link::Ahead(skip) = next {
            let (segment, more) = walk(rest, skip);
            next = segment.next();
            rest = more;
        }
        match next {
            Link::State(state) => LexExit::State(state),
            Link::Fault(at) => LexExit::Fault(at),
            Link::Ahead(_) => unreachable!(),
        }
    }

    /// The token starts of the track, in order.
    pub fn marks(&self) -> Marks<'a>
        ensures all { result ≡ (view_track self.now).marks }
    {
        Marks {
            here: &[],
            rest: self.segments,
            next: self.first,
        }
    }

    /// The ends of strings, numbers and literals, exclusive, in order.
    pub fn ends(&self) -> Ends<'a>
        ensures all { result ≡ (view_track self.now).ends }
    {
        Ends {
            here: &[],
            rest: self.segments,
            next: self.first,
        }
    }

    /// The numbers of the segments that the track goes through, in order: places in the map's list of segments.
    pub fn path(&self) -> Path<'a>
        ensures all { result ≡ view_path self.now }
        ensures within { All (λ n. n < length self.now.segments) result }
        ensures marks { flat_map (marks_at self.now.segments) result ≡ (view_track self.now).marks }
        ensures ends { flat_map (ends_at self.now.segments) result ≡ (view_track self.now).ends }
    {
        Path {
            number: 0,
            rest: self.segments,
            next: self.first,
        }
    }
}
