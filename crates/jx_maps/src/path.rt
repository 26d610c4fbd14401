// The way of a track through the segments of its map.
ghost use Rattle.std.specs.Prelude.{◌≡◌, [], ◌++◌, option_to_list, IsNone};
ghost use Rattle.std.specs.Iterator.{YieldsFirst, item_count};

use crate::link::Link;
use crate::segment::Segment;
use crate::track_view::walk;
use std::iter::FusedIterator;
use std::marker::Model;

/// An iterator over the numbers of a track's segments, seen as the list of those that are left.
#[derive(Drop)]
pub struct Path<'a> {
    /// The number of the first segment of `rest`.
    pub(crate) number: usize,
    pub(crate) rest: &'a [Segment],
    pub(crate) next: Link,
}

impl<'a> Model for Path<'a> {
    ghost use Rattle.std.specs.Prelude.{ℕ, List, length, ◌+◌, ◌<◌, ◌^◌};
    ghost use Rattle.jx_maps.specs.Follow.{IsIn, AreIn};
    ghost use Rattle.jx_maps.specs.View.{path_from};

    ghost Value = { List ℕ };

    ghost view = { λ v. path_from v.number v.rest.now v.next };

    ghost invariant = { λ v. IsIn (length v.rest.now) v.next × AreIn v.rest.now × (v.number + length v.rest.now < 2 ^ 64) };
}

impl<'a> Path<'a> {
    /// Takes the first of the numbers that are left, or gives none where none is left.
    fn take_next(&mut self) -> Option<usize>
        ensures first { self.old ≡ option_to_list result ++ self.new }
        ensures none { IsNone result → self.new ≡ [] }
    {
        let Link::Ahead(skip) = self.next else {
            return None;
        };
        let (segment, more) = walk(self.rest, skip);
        let number = self.number + skip;
        self.number = number + 1;
        self.next = segment.next();
        self.rest = more;
        Some(number)
    }
}

impl<'a> Iterator for Path<'a> {
    type Item = usize;

    ghost next_gives = { YieldsFirst (λ rest. rest) };

    ghost remaining = { item_count (λ rest. rest) };

    fn next(&mut self) -> Option<usize> {
        self.take_next()
    }
}

impl<'a> FusedIterator for Path<'a> {}
