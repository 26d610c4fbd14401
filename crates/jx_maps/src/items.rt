// The token starts of a track, or its ends, one after another.
ghost use Rattle.std.specs.Prelude.{◌≡◌, [], ◌++◌, List, refl, option_to_list, IsNone};
ghost use Rattle.std.specs.Iterator.{YieldsFirst, item_count};
ghost use Rattle.jx_maps.specs.Follow.{SegmentValue, behind, done};
ghost use Rattle.jx_lex.specs.Lex.{Track, LexExit};

use crate::link::Link;
use crate::segment::Segment;
use crate::track_view::walk;
use jx_lex::Mark;
use std::iter::FusedIterator;
use std::marker::Model;

/// The items of lists that segments keep, and tracks therefore have: token starts or ends.
pub trait Kept: Copy {
    ghost in_segment: { SegmentValue → List Self };

    ghost in_track: { Track → List Self };

    /// The list that a segment keeps of them.
    fn kept_by(segment: &Segment) -> &[Self]
        ensures { result.now ≡ in_segment segment.now };

    ghost behind_segment: { (p : SegmentValue) (t : Track) → in_track (behind p t) ≡ in_segment p ++ in_track t };

    ghost at_exit: { (e : LexExit) → in_track (done e) ≡ [] };
}

impl Kept for Mark {
    ghost in_segment = { λ p. p.marks };

    ghost in_track = { λ t. t.marks };

    fn kept_by(segment: &Segment) -> &[Mark] {
        segment.marks()
    }

    ghost behind_segment = { λ p t. refl };

    ghost at_exit = { λ e. refl };
}

impl Kept for usize {
    ghost in_segment = { λ p. p.ends };

    ghost in_track = { λ t. t.ends };

    fn kept_by(segment: &Segment) -> &[usize] {
        segment.ends()
    }

    ghost behind_segment = { λ p t. refl };

    ghost at_exit = { λ e. refl };
}

/// An iterator over the token starts of a track or over its ends, seen as the list of those that are left.
#[derive(Drop)]
pub struct Items<'a, T: Kept> {
    pub(crate) here: &'a [T],
    pub(crate) rest: &'a [Segment],
    pub(crate) next: Link,
}

/// An iterator over the token starts of a track, seen as the list of those that are left.
pub type Marks<'a> = Items<'a, Mark>;

/// An iterator over the ends of the tokens of a track, seen as the list of those that are left.
pub type Ends<'a> = Items<'a, usize>;

impl<'a, T: Kept> Model for Items<'a, T> {
    ghost use Rattle.std.specs.Prelude.{List, length, ◌++◌};
    ghost use Rattle.jx_maps.specs.Follow.{IsIn, AreIn, follow};

    ghost Value = { List T };

    ghost view = { λ v. v.here.now ++ T.in_track (follow v.rest.now v.next) };

    ghost invariant = { λ v. IsIn (length v.rest.now) v.next × AreIn v.rest.now };
}

impl<'a, T: Kept> Items<'a, T> {
    /// Takes the first of the items that are left, or gives none where none is left.
    fn take_next(&mut self) -> Option<T>
        ensures first { self.old ≡ option_to_list result ++ self.new }
        ensures none { IsNone result → self.new ≡ [] }
    {
        loop {
            if let Some((first, more)) = self.here.split_first() {
                self.here = more;
                return Some(*first);
            }
            let Link::Ahead(skip) = self.next else {
                return None;
            };
            let (segment, more) = walk(self.rest, skip);
            self.here = T::kept_by(segment);
            self.next = segment.next();
            self.rest = more;
        }
    }
}

impl<'a, T: Kept> Iterator for Items<'a, T> {
    type Item = T;

    ghost next_gives = { YieldsFirst (λ rest. rest) };

    ghost remaining = { item_count (λ rest. rest) };

    fn next(&mut self) -> Option<T> {
        self.take_next()
    }
}

impl<'a, T: Kept> FusedIterator for Items<'a, T> {}
