// Parts of a slice, which workers make side by side.
ghost use Rattle.std.specs.Prelude.{◌-◌, ◌≤◌, All, IfOk, IfSome, length};
ghost use Rattle.jx_each.specs.Sections.{IsSection};
ghost use Rattle.jx_each.specs.inside.Paths.{aim_of};

use crate::border::{behind_comma, part_behind_comma, stand_behind_comma};
use jx_crew::{Crew, Workers};
use jx_each::{Section, Stage, Target};
use jx_fork::call_each;
use jx_lex::Span;
use std::alloc::{AllocError, Global};
use std::thread::Threads;

/// How many bytes of a span are looked at for a place to begin at, at the least.
const LEAST_LOOK: usize = 64 * 1024;

/// The bytes of a span that are looked at for a place to begin at.
fn look_at(slice: &[u8], span: Span) -> &[u8]
    requires ordered { span.start ≤ span.end }
    requires within { span.end ≤ length slice.now }
    ensures { length result.now ≤ span.end - span.start }
{
    let len = span.end - span.start;
    let look = (len / 8).max(LEAST_LOOK).min(len);
    &slice[span.start..span.start + look]
}

/// Makes the lines of a span of a slice in the container, from where an element seems to begin. None where no such
/// place is seen, or when out of memory.
fn section_in(
    alloc: Global,
    target: &Target,
    stage: Stage,
    slice: &[u8],
    span: Span,
) -> Option<Section>
    requires ordered { span.start ≤ span.end }
    requires within { span.end ≤ length slice.now }
    ensures { IfSome result (IsSection (aim_of target.now) slice.now) }
{
    let first = stand_behind_comma(stage)?;
    let skipped = behind_comma(look_at(slice, span))?;
    let own = Span {
        start: span.start + skipped,
        end: span.end,
    };
    let front = part_behind_comma(first.stage);
    Section::of(alloc, target, first, front, slice, own).ok()
}

/// A span for each worker, the last one first; fewer where they have less than a chunk.
fn spans_of(
    alloc: Global,
    len: usize,
    workers: Workers,
    piece: usize,
) -> Result<Vec<Span>, AllocError>
    ensures { IfOk result (λ v. All (λ s. (s.start ≤ s.end) × (s.end ≤ len)) v.items) }
{
    let size = len.div_ceil(workers.count() as usize).max(piece).max(1);
    let mut spans = Vec::new(alloc);
    let mut end = len;
    while end > 0 {
        let start = end.saturating_sub(size);
        spans.push(Span { start, end })?;
        end = start;
    }
    Ok(spans)
}

/// Makes a part of each worker's span, in a thread of its own where one can be made: the last one first.
pub(crate) fn sections_of<R: Threads + Sync, G: Sync>(
    crew: &Crew<'_, R, G>,
    target: &Target,
    stage: Stage,
    slice: &[u8],
    piece: usize,
) -> Result<Vec<Option<Section>>, AllocError>
    ensures { IfOk result (λ v. All (λ s. IfSome s (IsSection (aim_of target.now) slice.now)) v.items) }
{
    let alloc = crew.alloc;
    let spans = spans_of(alloc, slice.len(), crew.workers, piece)?;
    call_each(
        crew.rt,
        alloc,
        spans,
        &|span: Span| -> Option<Section>
            requires { (span.start ≤ span.end) × (span.end ≤ length slice.now) }
            ensures { IfSome result (IsSection (aim_of target.entry.now) slice.entry.now) }
        { section_in(alloc, target, stage, slice, span) },
    )
}
