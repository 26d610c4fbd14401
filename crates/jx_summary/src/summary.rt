// Summaries of parts of a text, and how neighbours are joined.
ghost use Rattle.std.specs.Prelude.{◌≡◌, ℕ, List, ◌≤◌, ◌++◌, length, slice_range, IfOk, IfErr};

use crate::depth::Depth;
use crate::join_fault::JoinFault;
use crate::span::Span;
use std::alloc::{AllocError, Global};

/// The result of reading part of a text, with no knowledge of the bytes to its left.
///
/// The join of the summaries of two neighbours is the summary of their joined bytes, so summaries may be joined in any
/// order.
pub trait Summary: Drop {
    ghost use Rattle.std.specs.Prelude.{ℕ, List};
    ghost use Rattle.jx_summary.specs.declared.span.Span.{Span};

    /// Where its bytes stand.
    ghost span: { Self → Span };

    /// The depth that it was read with, in containers.
    ghost depth: { Self → ℕ };

    /// It is the summary of exactly these bytes.
    ghost is_of: { Self → List ℕ → Type 0 };

    /// Reads the bytes from `start` up to `end`, with `limit` as its depth; `Err` when out of memory.
    fn of(
        alloc: Global,
        text: &[u8],
        start: usize,
        end: usize,
        limit: Depth,
    ) -> Result<Self, AllocError>
        requires ordered { start ≤ end }
        requires within { end ≤ length text.now }
        ensures span { IfOk result (λ r. span r ≡ record { start = start; end = end }) }
        ensures depth { IfOk result (λ r. depth r ≡ limit) }
        ensures of { IfOk result (λ r. is_of r (slice_range text.now start end)) };

    /// Joins with the neighbour to the right; when out of memory, both are handed back as they were.
    fn join(self, right: Self) -> Result<Self, JoinFault<Self>>
        requires neighbours { (span self).end ≡ (span right).start }
        requires depth { depth self ≡ depth right }
        ensures span { IfOk result (λ r. span r ≡ record { start = (span self).start; end = (span right).end }) }
        ensures depth { IfOk result (λ r. depth r ≡ depth self) }
        ensures of { IfOk result (λ r. (xs ys : List ℕ) → is_of self xs → is_of right ys → is_of r (xs ++ ys)) }
        ensures refused { IfErr result (λ f. (f.left ≡ self) × (f.right ≡ right)) };

    /// Where its bytes stand, as offsets in the whole input.
    fn span(&self) -> Span
        ensures span { result ≡ span self.now };

    /// The depth that it was read with.
    fn depth(&self) -> Depth
        ensures depth { result ≡ depth self.now };
}
