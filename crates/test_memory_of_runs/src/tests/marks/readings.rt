// Structures of lists of token starts beside what the table of moves makes of them, made at once and joined at each place.
ghost use Rattle.std.specs.Prelude.{◌≤◌, length};
ghost use Rattle.jx_reduce.specs.Offsets.{RisingFrom};

use crate::tests::marks::lists::{depth_of, joined_at, marks_of};
use jx_lex::{Depth, Mark};
use jx_reduce::{Outcome, Reductions};
use std::alloc::{AllocError, Global};
use test_words::{HOLDER_LISTS, Maker, all_by_table, comes_to};

/// Whether the structure of these token starts answers as the table does, from each expectation and over each list of at most three
/// containers, made at once and joined at each place.
pub(crate) fn is_as_read_at_each_cut(
    alloc: Global,
    text: &[u8],
    containers: u32,
    maker: Maker,
) -> Result<bool, AllocError> {
    let marks = marks_of(alloc, text)?;
    is_as_read(alloc, &marks, depth_of(containers), maker)
}

fn is_as_read(alloc: Global, marks: &[Mark], depth: Depth, maker: Maker) -> Result<bool, AllocError>
    requires { RisingFrom 0 marks.now }
{
    let wanted = all_by_table(alloc, marks, depth, &HOLDER_LISTS)?;
    let all = Reductions::of(alloc, marks, depth)?;
    Ok(
        comes_to(&all, &HOLDER_LISTS, &wanted)?
            && are_joined_so(alloc, marks, depth, maker, &wanted)?,
    )
}

fn are_joined_so(
    alloc: Global,
    marks: &[Mark],
    depth: Depth,
    maker: Maker,
    wanted: &[Outcome],
) -> Result<bool, AllocError>
    requires { RisingFrom 0 marks.now }
{
    for cut in 0..marks.len() + 1 {
        if !is_joined_so(alloc, marks, cut, depth, maker, wanted)? {
            return Ok(false);
        }
    }
    Ok(true)
}

fn is_joined_so(
    alloc: Global,
    marks: &[Mark],
    cut: usize,
    depth: Depth,
    maker: Maker,
    wanted: &[Outcome],
) -> Result<bool, AllocError>
    requires rising { RisingFrom 0 marks.now }
    requires cut { cut ≤ length marks.now }
{
    match joined_at(alloc, marks, cut, depth, maker)? {
        Some(both) => comes_to(&both, &HOLDER_LISTS, wanted),
        None => Ok(false),
    }
}
