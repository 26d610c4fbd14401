// The values that are made of both sides of each cut of a text, joined where an allocation fails.
ghost use Rattle.std.specs.Prelude.{◌≤◌, length};

use crate::inputs::Worked;
use crate::lines::Lines;
use crate::tests::checks::assert_right;
use crate::tests::growths::{books, maps, reductions, runs};
use jx_reduce::Whole;
use jx_run::{OutcomeRun, SeqRun, TextRun};
use std::alloc::{AllocError, Global};
use std::process::Abort;

/// The values that are made of each side of a cut, and what the join has to be.
#[derive(Clone, Copy)]
pub(crate) enum Joined<'a> {
    Maps,
    /// Structures of token starts within a depth.
    Reductions(u32, Whole),
    Texts(&'a Worked),
    Outcomes(&'a Worked),
    Sequences,
    HeldTexts,
    HeldOutcomes,
    HeldSequences,
}

/// Both sides of each cut of a text, and their join.
pub(crate) fn check_cuts<R: Abort>(
    rt: &R,
    alloc: Global,
    lines: &mut Lines,
    joined: &Joined<'_>,
    text: &[u8],
) {
    for cut in 0..text.len() + 1 {
        if lines.takes_next() {
            assert_right(rt, is_right_again(alloc, joined, text, cut), text, cut);
        }
    }
}

// Where something else than the join is refused, all of it is made again.
fn is_right_again(
    alloc: Global,
    joined: &Joined<'_>,
    text: &[u8],
    cut: usize,
) -> Result<bool, AllocError>
    requires { cut ≤ length text.now }
{
    match is_right(alloc, joined, text, cut) {
        Err(AllocError) => is_right(alloc, joined, text, cut),
        answer => answer,
    }
}

fn is_right(alloc: Global, joined: &Joined<'_>, text: &[u8], cut: usize) -> Result<bool, AllocError>
    requires { cut ≤ length text.now }
{
    match joined {
        Joined::Maps => maps::is_joined_at(alloc, text, cut),
        Joined::Reductions(depth, whole) => {
            reductions::is_right_at(alloc, text, cut, *depth, *whole)
        }
        Joined::Texts(worked) => runs::is_right_at::<TextRun>(alloc, text, cut, worked),
        Joined::Outcomes(worked) => runs::is_right_at::<OutcomeRun>(alloc, text, cut, worked),
        Joined::Sequences => runs::is_sequence_at(alloc, text, cut),
        Joined::HeldTexts => books::is_joined_at::<TextRun>(alloc, text, cut),
        Joined::HeldOutcomes => books::is_joined_at::<OutcomeRun>(alloc, text, cut),
        Joined::HeldSequences => books::is_joined_at::<SeqRun>(alloc, text, cut),
    }
}
