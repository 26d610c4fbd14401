// A segment that is read on.
ghost use Rattle.std.specs.Prelude.{◌≡◌, ◌≤◌, ◌<◌, ◌+◌, [], ◌^◌, length, take, slice_range, OnOk, IfOk};
ghost use Rattle.jx_maps.specs.inside.Passing.{read_bytes};
ghost use Rattle.jx_maps.specs.inside.Step.{read_segment};

use crate::link::Link;
use crate::segment::Segment;
use jx_lex::{Mark, TokenEnd, TokenSink, Tokens, step};
use std::alloc::{AllocError, Global};
use std::marker::Model;

/// A segment that is read on: the scanner puts its token starts and ends into vectors, however many come.
#[derive(Drop)]
pub(crate) struct Lane {
    tokens: Tokens,
    next: Link,
}

impl Model for Lane {
    ghost use Rattle.jx_maps.specs.Follow.{SegmentValue};

    ghost Value = { SegmentValue };

    ghost view = { λ l. record { marks = l.tokens.marks; ends = l.tokens.ends; next = l.next } };
}

impl Lane {
    /// A lane with no token starts and no ends, which this link follows.
    pub(crate) fn new(alloc: Global, next: Link) -> Lane
        ensures { result ≡ record { marks = []; ends = []; next = next } }
    {
        Lane {
            tokens: Tokens::new(alloc),
            next,
        }
    }

    /// A lane that reads on where this segment ends.
    pub(crate) fn of(segment: Segment) -> Result<Lane, AllocError>
        ensures { IfOk result (λ l. l ≡ segment) }
    {
        let Segment { marks, ends, next } = segment;
        Ok(Lane {
            tokens: Tokens::of(marks.into_vec()?, ends.into_vec()?),
            next,
        })
    }

    /// How many token starts it has.
    pub(crate) fn marks(&self) -> usize
        ensures { result ≡ length self.now.marks }
    {
        self.tokens.marks().len()
    }

    /// How many ends it has.
    pub(crate) fn ends(&self) -> usize
        ensures { result ≡ length self.now.ends }
    {
        self.tokens.ends().len()
    }

    /// The link that follows it.
    pub(crate) fn next(&self) -> Link
        ensures { result ≡ self.now.next }
    {
        self.next
    }

    /// Takes in one more byte, where this is the end of a track.
    pub(crate) fn read(&mut self, at: usize, byte: u8) -> Result<(), AllocError>
        requires { at + 1 < 2 ^ 64 }
        ensures { OnOk result (self.new ≡ read_segment at byte self.old) }
    {
        let Link::State(state) = self.next else {
            return Ok(());
        };
        let step = step(state, byte);
        match step.end {
            Some(TokenEnd::Before) => self.tokens.end(at)?,
            Some(TokenEnd::After) => self.tokens.end(at + 1)?,
            None => {}
        }
        if let Some(kind) = step.begin {
            self.tokens.begin(Mark { kind, at })?;
        }
        self.next = Link::after(step.next, at);
        Ok(())
    }

    /// Takes in bytes of a text, where this is the end of a track.
    pub(crate) fn read_span(
        &mut self,
        text: &[u8],
        from: usize,
        to: usize,
    ) -> Result<(), AllocError>
        requires { (from ≤ to) × (to ≤ length text.now) }
        ensures { OnOk result (self.new ≡ read_bytes from (slice_range text.now from to) self.old) }
    {
        if let Link::State(state) = self.next {
            let exit = self.tokens.read(state, text, from, to)?;
            self.next = Link::of(exit);
        }
        Ok(())
    }

    /// Keeps only so many of its first token starts and ends. This link follows it from now on.
    pub(crate) fn go_back(&mut self, marks: usize, ends: usize, next: Link)
        ensures { self.new ≡ record { marks = take marks self.old.marks; ends = take ends self.old.ends; next = next } }
    {
        self.tokens.cut_back(marks, ends);
        self.next = next;
    }

    /// The segment that it is, which this link follows.
    pub(crate) fn followed_by(self, next: Link) -> Segment
        ensures { result ≡ record self { next = next } }
    {
        let (marks, ends) = self.tokens.into_lists();
        Segment::of(marks, ends, next)
    }

    /// The segment that it is.
    pub(crate) fn into_segment(self) -> Segment
        ensures { result ≡ self }
    {
        let next = self.next;
        self.followed_by(next)
    }
}
