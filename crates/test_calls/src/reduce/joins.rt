// Structures of both parts of lists of token starts, joined.
ghost use Rattle.std.specs.Prelude.{◌≡◌, ◌≤◌, IfOk, length};
ghost use Rattle.jx_reduce.specs.Offsets.{RisingFrom};

use crate::reduce::marks::marks;
use jx_lex::{Depth, Mark};
use jx_reduce::Reductions;
use std::alloc::{AllocError, Global};
use test_words::{HOLDER_LISTS, Line, Maker, Out, all_by_table, comes_to, parts_of};

/// The structures of both parts of a list, joined.
pub(crate) fn joined_at(
    alloc: Global,
    marks: &[Mark],
    cut: usize,
    depth: Depth,
    maker: Maker,
) -> Result<Reductions, AllocError>
    requires rising { RisingFrom 0 marks.now }
    requires cut { cut ≤ length marks.now }
    ensures { IfOk result (λ r. r.depth ≡ depth) }
{
    let (left, right) = parts_of(alloc, marks, cut, depth, maker)?;
    left.join(right).ok().ok_or(AllocError)
}

/// Writes where joins of structures that are made so answer otherwise than the table, from each expectation and over each list of at
/// most three containers.
fn push_odd_cuts(
    out: &mut Out,
    alloc: Global,
    marks: &[Mark],
    depth: Depth,
    maker: Maker,
) -> Result<(), AllocError>
    requires rising { RisingFrom 0 marks.now }
{
    let wanted = all_by_table(alloc, marks, depth, &HOLDER_LISTS)?;
    for cut in 0..=marks.len() {
        let both = joined_at(alloc, marks, cut, depth, maker)?;
        if !comes_to(&both, &HOLDER_LISTS, &wanted)? {
            out.put(format_args!("; otherwise cut at {cut}"));
        }
    }
    Ok(())
}

/// `joins DEPTH MARKS`: whether structures of both parts at each cut, made at once and one by one, answer as the table does
/// when they are joined.
pub(crate) fn joins(line: &mut Line<'_>) {
    let depth = line.depth();
    let marks = marks(line);
    line.out.push_str("as by the table");
    let told = push_odd_cuts(&mut line.out, line.alloc, &marks, depth, Maker::AtOnce);
    line.settle(told);
    let told = push_odd_cuts(&mut line.out, line.alloc, &marks, depth, Maker::OneByOne);
    line.settle(told);
}
