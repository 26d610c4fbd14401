// The verdicts on the elements of sequences.
ghost use Rattle.std.specs.Prelude.{◌≤◌, ◌<◌, ◌+◌, ◌^◌, length};

use crate::run::joins::cut_twice;
use jx_lex::Depth;
use jx_run::{ElementsRun, JudgedElement, Summary};
use std::alloc::{AllocError, Global};
use test_words::{Line, Out, Ways, push_elements};

/// The elements of runs of three parts that meet at two cuts.
fn told_of_cut(
    alloc: Global,
    text: &[u8],
    first: usize,
    second: usize,
    depth: Depth,
) -> Result<Out, AllocError>
    requires ordered { first ≤ second }
    requires within { second ≤ length text.now }
{
    let mut told = Out::new(alloc);
    let run = cut_twice::<ElementsRun>(alloc, text, first, second, depth)?;
    if run.depth() != depth {
        told.push_str("another depth: ");
    }
    push_elements(&mut told, &run.into_elements()?);
    Ok(told)
}

/// The elements of both sides of a cut, of which the right was read as a sequence of its own and moved.
fn elements_of_both(
    alloc: Global,
    left: &[u8],
    right: &[u8],
    depth: Depth,
) -> Result<Vec<JudgedElement>, AllocError>
    requires short { length left.now + length right.now < 2 ^ 63 }
{
    let front = ElementsRun::of(alloc, left, 0, left.len(), depth)?;
    let back = ElementsRun::of(alloc, right, 0, right.len(), depth)?;
    let both = front.join(back.shifted(left.len())).ok().ok_or(AllocError)?;
    both.into_elements()
}

/// `elements DEPTH TEXT`: at each pair of cuts.
pub(crate) fn elements(line: &mut Line<'_>) {
    let depth = line.depth();
    let text = line.text();
    let mut ways = Ways::new(line.alloc);
    for second in 0..=text.len() {
        add_cuts_up_to(&mut ways, line.alloc, &text, second, depth);
    }
    ways.push_to(&mut line.out);
}

fn add_cuts_up_to(ways: &mut Ways, alloc: Global, text: &[u8], second: usize, depth: Depth)
    requires { second ≤ length text.now }
{
    for first in 0..=second {
        let told = told_of_cut(alloc, text, first, second, depth);
        ways.add_made(format_args!("cut at {first},{second}"), told);
    }
}

/// `behind DEPTH TEXT TEXT`: the second text was read as a sequence of its own, and follows the first.
pub(crate) fn behind(line: &mut Line<'_>) {
    let depth = line.depth();
    let left = line.text();
    let right = line.text();
    if left.len() >= 1 << 40 || right.len() >= 1 << 40 {
        return line.refuse();
    }
    let elements = elements_of_both(line.alloc, &left, &right, depth);
    if let Some(elements) = line.keep(elements) {
        push_elements(&mut line.out, &elements);
    }
}
