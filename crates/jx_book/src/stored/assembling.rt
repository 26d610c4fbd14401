ghost use Rattle.std.specs.Prelude.{◌≡◌, ◌≤◌, length, All, IfOk};
ghost use Rattle.jx_book.specs.Shares.{IsOf};
ghost use Rattle.jx_book.specs.Gathered.{IsRest};

use crate::stored::closed::Closed;
use crate::stored::held::{Held, HeldFault};
use jx_summary::{Depth, Summary};
use std::alloc::{AllocError, Global};

/// The run over a text from an offset on: each gap that the runs leave there is read as one chunk, and all are joined.
/// Runs that begin before that offset are freed. It fails only when out of memory.
pub fn assemble<'a, S: Summary>(
    alloc: Global,
    closed: Closed<'a, S>,
    text: &'a [u8],
    front: usize,
    depth: Depth,
) -> Result<Held<'a, S>, AllocError>
    requires of { All (λ r. IsOf text.now depth r) closed }
    requires front { front ≤ length text.now }
    ensures { IfOk result (λ h. IsRest text.entry.now depth front h) }
{
    let mut runs = closed.into_runs();
    let mut rest = Held::read(alloc, text, text.len(), text.len(), depth)?;
    while let Some(run) = runs.pop() {
        let span = run.span();
        if span.start < front {
            break;
        }
        rest = put_before(alloc, text, depth, run, rest)?;
    }
    fill(alloc, text, depth, front, rest)
}

/// Reads what stands between a run and the rest, and joins the three.
fn put_before<'a, S: Summary>(
    alloc: Global,
    text: &'a [u8],
    depth: Depth,
    run: Held<'a, S>,
    rest: Held<'a, S>,
) -> Result<Held<'a, S>, AllocError>
    requires of { IsOf text.now depth run }
    requires bound { run.span.end ≤ rest.span.start }
    requires rest { IsRest text.now depth rest.span.start rest }
    ensures { IfOk result (λ h. IsRest text.entry.now depth run.entry.span.start h) }
{
    let end = run.span().end;
    let filled = fill(alloc, text, depth, end, rest)?;
    join_same(run, filled)
}

/// Reads what stands between an offset and the rest, and joins it to that.
fn fill<'a, S: Summary>(
    alloc: Global,
    text: &'a [u8],
    depth: Depth,
    start: usize,
    rest: Held<'a, S>,
) -> Result<Held<'a, S>, AllocError>
    requires bound { start ≤ rest.span.start }
    requires rest { IsRest text.now depth rest.span.start rest }
    ensures { IfOk result (λ h. IsRest text.entry.now depth start h) }
{
    let end = rest.span().start;
    if start == end {
        return Ok(rest);
    }
    let gap = Held::read(alloc, text, start, end, depth)?;
    join_same(gap, rest)
}

/// Joins two neighbours of one text and one depth.
fn join_same<'a, S: Summary>(
    left: Held<'a, S>,
    right: Held<'a, S>,
) -> Result<Held<'a, S>, AllocError>
    requires neighbours { left.span.end ≡ right.span.start }
    requires text { left.text ≡ right.text }
    requires depth { left.depth ≡ right.depth }
    ensures text { IfOk result (λ h. h.text ≡ left.entry.text) }
    ensures depth { IfOk result (λ h. h.depth ≡ left.entry.depth) }
    ensures span { IfOk result (λ h. h.span ≡ record { start = left.entry.span.start; end = right.entry.span.end }) }
{
    match left.join(right) {
        Ok(joined) => Ok(joined),
        Err(HeldFault::Memory(_, _)) => Err(AllocError),
        Err(HeldFault::Other(_, _)) => unreachable!(),
    }
}
