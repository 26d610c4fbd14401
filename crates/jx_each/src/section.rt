// Lines that were made of some of a slice's bytes, from where these were taken to stand.
ghost use Rattle.std.specs.Prelude.{◌≡◌, ◌≤◌, IfOk, length};
ghost use Rattle.jx_each.specs.Sections.{IsSection};
ghost use Rattle.jx_each.specs.inside.Paths.{aim_of, count_in};

use crate::making::make_all;
use crate::stand::LineStand;
use crate::target::Target;
use jx_lex::Span;
use std::alloc::{AllocError, Global};

/// The lines of the bytes of a span of a slice, where the first byte has a known stand, and a front was kept before it.
/// Whoever makes one may be wrong about both: `Each::follow` compares them.
#[derive(Drop)]
pub struct Section {
    pub span: Span,
    pub first: LineStand,
    pub front: Vec<u8>,
    /// Where the byte after them stands.
    pub last: LineStand,
    /// The lines that end in it, and what is kept after the last one.
    pub lines: Vec<u8>,
    pub part: Vec<u8>,
}

impl Section {
    /// The lines of a span of a slice, from a stand in the container on. `Err` when out of memory.
    pub fn of(
        alloc: Global,
        target: &Target,
        first: LineStand,
        front: &[u8],
        slice: &[u8],
        span: Span,
    ) -> Result<Section, AllocError>
        requires ordered { span.start ≤ span.end }
        requires within { span.end ≤ length slice.now }
        requires height { first.height ≡ 1 }
        requires count { count_in first.stage ≡ 0 }
        ensures made { IfOk result (IsSection (aim_of target.now) slice.now) }
        ensures span { IfOk result (λ section. section.span ≡ span) }
        ensures first { IfOk result (λ section. section.first ≡ first) }
        ensures front { IfOk result (λ section. section.front.items ≡ front.now) }
    {
        let bytes = &slice[span.start..span.end];
        if bytes.len() == usize::MAX {
            return Err(AllocError);
        }
        let mut lines = Vec::with_capacity(alloc, bytes.len())?;
        let mut part = Vec::from_slice(alloc, front)?;
        let front = Vec::from_slice(alloc, front)?;
        let last = make_all(target, first, &mut lines, &mut part, bytes)?;
        Ok(Section {
            span,
            first,
            front,
            last,
            lines,
            part,
        })
    }
}
