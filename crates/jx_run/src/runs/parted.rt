// Bytes of a JSON text sequence, parted at the record separators in them.
ghost use Rattle.std.specs.Prelude.{◌≡◌, None, Some, IfOk, IfErr, OnOk, OnErr};
ghost use Rattle.jx_run.specs.Parted.{IsParted, last_piece, meaning, parted_span};
ghost use Rattle.jx_run.specs.inside.PartedJoins.{IsClosed, IsPartedJoin};

use crate::runs::piece::Piece;
use crate::sequences::separators::next_separator;
use jx_lex::{Depth, JoinFault, Span};
use jx_summary::Summary;
use std::alloc::{AllocError, Global};
use std::marker::Model;

/// The result after the first record separator: what is kept of each element that a further separator ends, and the
/// part after the last separator.
#[derive(Drop)]
pub(crate) struct Marked<P: Piece> {
    pub(crate) done: Vec<P::Finished>,
    pub(crate) after: P,
}

impl<P: Piece> Model for Marked<P> {
    ghost use Rattle.jx_run.specs.Parted.{MarkedValue};

    ghost Value = { MarkedValue P P.Finished };

    ghost view = { λ m. record { done = m.done.items; after = m.after } };
}

/// The partial result of part of a JSON text sequence (RFC 7464): the part before the first record separator, and the
/// rest. The separators are seen, whatever is around them: a JSON text has no byte 1E.
#[derive(Drop)]
pub(crate) struct Parted<P: Piece> {
    pub(crate) before: P,
    /// None where the bytes hold no separator.
    pub(crate) marked: Option<Marked<P>>,
}

impl<P: Piece> Model for Parted<P> {
    ghost use Rattle.std.specs.Prelude.{◌≡◌};
    ghost use Rattle.jx_run.specs.Parted.{PartedValue, last_piece};

    ghost Value = { PartedValue P P.Finished };

    ghost view = { λ r. record { before = r.before; marked = r.marked } };

    ghost invariant = { λ r. P.depth (last_piece r.before r.marked) ≡ P.depth r.before };
}

/// Puts after what the left keeps what is kept of its last bytes with the first ones of the right, unless these are
/// empty, and what the right keeps.
fn close<P: Piece>(
    done: &mut Vec<P::Finished>,
    after: &P,
    before: &P,
    more: &mut Vec<P::Finished>,
) -> Result<(), AllocError>
    requires neighbours { (P.span after.now).end ≡ (P.span before.now).start }
    requires depth { P.depth after.now ≡ P.depth before.now }
    ensures ok { OnOk result (IsClosed (meaning P.span P.depth P.is_of P.is_finished) done.old.items after.now before.now more.old.items done.new.items) }
    ensures err { OnErr result ((done.new.items ≡ done.old.items) × (more.new.items ≡ more.old.items)) }
{
    if after.span().start < before.span().end {
        let count = done.len();
        done.push(after.finished_with(before)?)?;
        if let Err(AllocError) = done.append(more) {
            done.truncate(count);
            return Err(AllocError);
        }
        Ok(())
    } else {
        done.append(more)
    }
}

/// Joins a left side without separators.
fn join_plain<P: Piece>(left: P, right: Parted<P>) -> Result<Parted<P>, JoinFault<Parted<P>>>
    requires neighbours { (P.span left).end ≡ (P.span right.before).start }
    requires depth { P.depth left ≡ P.depth right.before }
    ensures joined { IfOk result (IsPartedJoin (meaning P.span P.depth P.is_of P.is_finished) (record { before = left; marked = None }) right) }
    ensures refused { IfErr result (λ f. (f.left ≡ record { before = left; marked = None }) × (f.right ≡ right)) }
{
    match left.join(right.before) {
        Ok(before) => Ok(Parted {
            before,
            marked: right.marked,
        }),
        Err(fault) => Err(JoinFault {
            left: Parted {
                before: fault.left,
                marked: None,
            },
            right: Parted {
                before: fault.right,
                marked: right.marked,
            },
        }),
    }
}

/// Joins a right side without separators.
fn join_last<P: Piece>(
    before: P,
    marked: Marked<P>,
    right: P,
) -> Result<Parted<P>, JoinFault<Parted<P>>>
    requires whole { P.depth marked.after ≡ P.depth before }
    requires neighbours { (P.span marked.after).end ≡ (P.span right).start }
    requires depth { P.depth marked.after ≡ P.depth right }
    ensures joined { IfOk result (IsPartedJoin (meaning P.span P.depth P.is_of P.is_finished) (record { before = before; marked = Some marked }) (record { before = right; marked = None })) }
    ensures refused { IfErr result (λ f. (f.left ≡ record { before = before; marked = Some marked }) × (f.right ≡ record { before = right; marked = None })) }
{
    match marked.after.join(right) {
        Ok(after) => Ok(Parted {
            before,
            marked: Some(Marked {
                done: marked.done,
                after,
            }),
        }),
        Err(fault) => Err(JoinFault {
            left: Parted {
                before,
                marked: Some(Marked {
                    done: marked.done,
                    after: fault.left,
                }),
            },
            right: Parted {
                before: fault.right,
                marked: None,
            },
        }),
    }
}

/// Joins two sides with separators.
fn join_marked<P: Piece>(
    before: P,
    marked: Marked<P>,
    middle: P,
    right: Marked<P>,
) -> Result<Parted<P>, JoinFault<Parted<P>>>
    requires left { P.depth marked.after ≡ P.depth before }
    requires right { P.depth right.after ≡ P.depth middle }
    requires neighbours { (P.span marked.after).end ≡ (P.span middle).start }
    requires depth { P.depth marked.after ≡ P.depth middle }
    ensures joined { IfOk result (IsPartedJoin (meaning P.span P.depth P.is_of P.is_finished) (record { before = before; marked = Some marked }) (record { before = middle; marked = Some right })) }
    ensures refused { IfErr result (λ f. (f.left ≡ record { before = before; marked = Some marked }) × (f.right ≡ record { before = middle; marked = Some right })) }
{
    let Marked { mut done, after } = marked;
    let Marked {
        done: mut more,
        after: last,
    } = right;
    match close(&mut done, &after, &middle, &mut more) {
        Ok(()) => Ok(Parted {
            before,
            marked: Some(Marked { done, after: last }),
        }),
        Err(AllocError) => Err(JoinFault {
            left: Parted {
                before,
                marked: Some(Marked { done, after }),
            },
            right: Parted {
                before: middle,
                marked: Some(Marked {
                    done: more,
                    after: last,
                }),
            },
        }),
    }
}

impl<P: Piece> Summary for Parted<P> {
    ghost span = { parted_span P.span };

    ghost depth = { λ r. P.depth r.before };

    ghost is_of = { λ r bytes. IsParted (meaning P.span P.depth P.is_of P.is_finished) bytes r };

    fn of(
        alloc: Global,
        text: &[u8],
        start: usize,
        end: usize,
        depth: Depth,
    ) -> Result<Self, AllocError> {
        let Some(separator) = next_separator(text, start, end) else {
            let before = P::of(alloc, text, start, end, depth)?;
            return Ok(Parted {
                before,
                marked: None,
            });
        };
        let before = P::of(alloc, text, start, separator, depth)?;
        let (done, after) = P::behind(alloc, text, separator + 1, end, depth)?;
        Ok(Parted {
            before,
            marked: Some(Marked { done, after }),
        })
    }

    fn join(self, right: Self) -> Result<Self, JoinFault<Self>> {
        let Parted { before, marked } = self;
        let Some(marked) = marked else {
            return join_plain(before, right);
        };
        let Parted {
            before: middle,
            marked: more,
        } = right;
        match more {
            None => join_last(before, marked, middle),
            Some(more) => join_marked(before, marked, middle, more),
        }
    }

    fn span(&self) -> Span {
        let last = match &self.marked {
            None => &self.before,
            Some(marked) => &marked.after,
        };
        Span {
            start: self.before.span().start,
            end: last.span().end,
        }
    }

    fn depth(&self) -> Depth {
        self.before.depth()
    }
}
