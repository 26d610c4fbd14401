ghost use Rattle.std.specs.Prelude.{◌≡◌, ◌≤◌, ◌<◌, ◌+◌, ◌++◌, ℕ, List, length, slice_range, IfOk};
ghost use Rattle.jx_run.specs.Elements.{part, parts};
ghost use Rattle.jx_run.specs.Parted.{IsMarked, meaning};

use jx_lex::Depth;
use jx_summary::Summary;
use std::alloc::{AllocError, Global};

/// The partial result of bytes of a JSON text sequence without a record separator: an element, or a part of one.
pub(crate) trait Piece: Summary {
    ghost use Rattle.std.specs.Prelude.{◌≡◌, ◌+◌, ℕ, List, length};
    ghost use Rattle.jx_run.specs.Elements.{Part};

    /// The result that is kept of an element between two separators.
    type Finished: Drop;

    /// It is what is kept of this element, read with this depth.
    ghost is_finished: { ℕ → Part → Self.Finished → Type 0 };

    /// The result that is kept of the element that has the joined bytes and follows a separator; neither part changes.
    fn finished_with(&self, right: &Self) -> Result<Self::Finished, AllocError>
        requires neighbours { (Self.span self.now).end ≡ (Self.span right.now).start }
        requires depth { Self.depth self.now ≡ Self.depth right.now }
        ensures { (xs ys : List ℕ) → 0 < (Self.span self.now).start → Self.is_of self.now xs → Self.is_of right.now ys
            → IfOk result (is_finished (Self.depth self.now) (part (Self.span self.now).start (xs ++ ys))) };

    /// Reads from after a separator up to `end`: what is kept of each element that a further separator ends, and the
    /// part after the last separator.
    fn behind(
        alloc: Global,
        text: &[u8],
        start: usize,
        end: usize,
        depth: Depth,
    ) -> Result<(Vec<Self::Finished>, Self), AllocError>
        requires marked { 0 < start }
        requires ordered { start ≤ end }
        requires within { end ≤ length text.now }
        ensures end { IfOk result (λ r. (Self.span r.1).end ≡ end) }
        ensures depth { IfOk result (λ r. Self.depth r.1 ≡ depth) }
        ensures of { IfOk result (λ r. IsMarked (meaning Self.span Self.depth Self.is_of is_finished) depth (parts start (slice_range text.now start end)) (record { done = r.0.items; after = r.1 })) };

    /// It stands over as many bytes as it is of.
    ghost long: { (bytes : List ℕ) (piece : Self) → Self.is_of piece bytes → (Self.span piece).end ≡ (Self.span piece).start + length bytes };
}
