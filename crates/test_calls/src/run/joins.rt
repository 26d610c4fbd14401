// Runs of the parts of a text, joined.
ghost use Rattle.std.specs.Prelude.{◌≡◌, ◌≤◌, IfOk, length};
ghost use Rattle.jx_run.specs.Tree.{span};

use jx_lex::Depth;
use jx_run::Summary;
use std::alloc::{AllocError, Global};

/// The summaries of both sides of a cut, joined.
pub(crate) fn cut_at<S: Summary>(
    alloc: Global,
    text: &[u8],
    cut: usize,
    depth: Depth,
) -> Result<S, AllocError>
    requires { cut ≤ length text.now }
{
    let left = S::of(alloc, text, 0, cut, depth)?;
    let right = S::of(alloc, text, cut, text.len(), depth)?;
    left.join(right).ok().ok_or(AllocError)
}

/// Summaries of single bytes, joined from the left.
pub(crate) fn from_left<S: Summary>(
    alloc: Global,
    text: &[u8],
    depth: Depth,
) -> Result<S, AllocError>
    ensures span { IfOk result (λ r. S.span r ≡ span 0 (length text.now)) }
    ensures depth { IfOk result (λ r. S.depth r ≡ depth) }
{
    let mut run = S::of(alloc, text, 0, 0, depth)?;
    for i in 0..text.len() {
        let right = S::of(alloc, text, i, i + 1, depth)?;
        run = run.join(right).ok().ok_or(AllocError)?;
    }
    Ok(run)
}

/// Summaries of single bytes, joined from the right.
pub(crate) fn from_right<S: Summary>(
    alloc: Global,
    text: &[u8],
    depth: Depth,
) -> Result<S, AllocError>
    ensures span { IfOk result (λ r. S.span r ≡ span 0 (length text.now)) }
    ensures depth { IfOk result (λ r. S.depth r ≡ depth) }
{
    let len = text.len();
    let mut run = S::of(alloc, text, len, len, depth)?;
    for i in (0..len).rev() {
        let left = S::of(alloc, text, i, i + 1, depth)?;
        run = left.join(run).ok().ok_or(AllocError)?;
    }
    Ok(run)
}

/// Summaries of single bytes, joined by halves.
pub(crate) fn by_halves<S: Summary>(
    alloc: Global,
    text: &[u8],
    start: usize,
    end: usize,
    depth: Depth,
) -> Result<S, AllocError>
    requires ordered { start ≤ end }
    requires within { end ≤ length text.now }
    ensures span { IfOk result (λ r. S.span r ≡ span start end) }
    ensures depth { IfOk result (λ r. S.depth r ≡ depth) }
{
    if end - start < 2 {
        return S::of(alloc, text, start, end, depth);
    }
    let middle = start + (end - start) / 2;
    let left = by_halves::<S>(alloc, text, start, middle, depth)?;
    let right = by_halves::<S>(alloc, text, middle, end, depth)?;
    left.join(right).ok().ok_or(AllocError)
}

/// The summaries of three parts that meet at two cuts, joined.
pub(crate) fn cut_twice<S: Summary>(
    alloc: Global,
    text: &[u8],
    first: usize,
    second: usize,
    depth: Depth,
) -> Result<S, AllocError>
    requires ordered { first ≤ second }
    requires within { second ≤ length text.now }
    ensures span { IfOk result (λ r. S.span r ≡ span 0 (length text.now)) }
{
    let left = S::of(alloc, text, 0, first, depth)?;
    let middle = S::of(alloc, text, first, second, depth)?;
    let right = S::of(alloc, text, second, text.len(), depth)?;
    let front = left.join(middle).ok().ok_or(AllocError)?;
    front.join(right).ok().ok_or(AllocError)
}
