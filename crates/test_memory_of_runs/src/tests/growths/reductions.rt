// Structures of token starts and known stacks where an allocation fails.
ghost use Rattle.std.specs.Prelude.{◌≤◌, ◌<◌, ◌+◌, IfOk, OnOk, length};
ghost use Rattle.jx_reduce.specs.Offsets.{EachIn, RisingFrom};

use crate::inputs::{FIVE_ROWS, NESTED, REPEATED, SEQUENCE, UNSORTED, WIDE};
use crate::lines::Lines;
use crate::tests::checks::assert_right;
use crate::tests::growths::cuts::{Joined, check_cuts};
use crate::tests::marks::{is_same, joined_at, mark};
use jx_lex::{Depth, LexState, Mark, MarkKind, step};
use jx_reduce::{Expect, Holder, KnownStack, Reductions, Whole};
use std::alloc::{AllocError, Global};
use test_words::{Maker, all_by_table, comes_to};

const ENDED: Whole = Whole::Went {
    expect: Expect::After,
    open: 0,
};

// An input, a depth, and the outcome of its token starts within it.
type Input = (&'static [u8], u32, Whole);

const INPUTS: [Input; 7] = [
    (NESTED, 512, ENDED),
    (NESTED, 2, Whole::TooDeep(2)),
    (FIVE_ROWS, 512, ENDED),
    (REPEATED, 512, ENDED),
    (UNSORTED, 512, ENDED),
    (WIDE, 512, ENDED),
    (SEQUENCE, 512, Whole::Stopped(7)),
];

#[test]
fn reductions_under_a_refused_growth(rt: HostRuntime) {
    let mut lines = Lines::of(&rt);
    for (text, containers, whole) in &INPUTS {
        let joined = Joined::Reductions(*containers, *whole);
        check_cuts(&rt, rt.alloc(), &mut lines, &joined, text);
    }
}

#[test]
fn known_stacks_under_a_refused_growth(rt: HostRuntime) {
    let mut lines = Lines::of(&rt);
    for count in &[1, 64, 65, 200, 512] {
        if lines.takes_next() {
            assert_right(&rt, stops_again(rt.alloc(), *count), &[], *count);
        }
    }
}

fn stops_again(alloc: Global, count: usize) -> Result<bool, AllocError> {
    match stops_at_unfitting(alloc, count) {
        Err(AllocError) => stops_at_unfitting(alloc, count),
        answer => answer,
    }
}

// Whether so many opening token starts, and a closing one that fits none of them, stop at the last one.
fn stops_at_unfitting(alloc: Global, count: usize) -> Result<bool, AllocError> {
    let mut stack = KnownStack::new(alloc, Depth::default());
    push_unfitting(&mut stack, count)?;
    Ok(stack.whole() == Whole::Stopped(count))
}

// So many opening token starts, and the closing one. An opening token start that is refused is given again.
fn push_unfitting(stack: &mut KnownStack, count: usize) -> Result<(), AllocError> {
    for at in 0..count {
        push_again(stack, mark(MarkKind::OpenArray, at))?;
    }
    stack.push(mark(MarkKind::CloseObject, count))
}

// One more token start, given again where it is refused.
fn push_again(stack: &mut KnownStack, mark: Mark) -> Result<(), AllocError> {
    match stack.push(mark) {
        Ok(()) => Ok(()),
        Err(_) => stack.push(mark),
    }
}

/// Whether the joined structure of the token starts before an offset and after it is what it has to be.
pub(crate) fn is_right_at(
    alloc: Global,
    text: &[u8],
    at: usize,
    containers: u32,
    whole: Whole,
) -> Result<bool, AllocError> {
    let marks = marks_in(alloc, text)?;
    match Depth::new(containers) {
        Some(depth) => is_joined_so(alloc, &marks, count_before(&marks, at), depth, whole),
        None => Ok(false),
    }
}

fn is_joined_so(
    alloc: Global,
    marks: &[Mark],
    cut: usize,
    depth: Depth,
    whole: Whole,
) -> Result<bool, AllocError>
    requires rising { RisingFrom 0 marks.now }
    requires cut { cut ≤ length marks.now }
{
    match joined_at(alloc, marks, cut, depth, Maker::AtOnce)? {
        Some(both) => is_right(alloc, &both, marks, whole),
        None => Ok(false),
    }
}

// Whether a structure is what it has to be: its whole, its copy, and where it leads over open containers.
fn is_right(
    alloc: Global,
    both: &Reductions,
    marks: &[Mark],
    whole: Whole,
) -> Result<bool, AllocError> {
    let is_whole = both.entry(Expect::Value).whole() == whole;
    Ok(is_whole && is_copied(both)? && acts_by_the_table(alloc, both, marks)?)
}

fn is_copied(both: &Reductions) -> Result<bool, AllocError> {
    let copy = both.copy()?;
    Ok(is_same(&copy, both))
}

const HOLDER_LISTS: [&[Holder]; 2] = [&[], &[Holder::Object, Holder::Array]];

// Whether a structure answers as the table does, from each expectation over no open container and over two.
fn acts_by_the_table(alloc: Global, all: &Reductions, marks: &[Mark]) -> Result<bool, AllocError> {
    let wanted = all_by_table(alloc, marks, all.depth(), &HOLDER_LISTS)?;
    comes_to(all, &HOLDER_LISTS, &wanted)
}

/// The token starts of a text. A byte that can't go on, as a separator, begins anew.
fn marks_in(alloc: Global, text: &[u8]) -> Result<Vec<Mark>, AllocError>
    ensures { IfOk result (λ marks. RisingFrom 0 marks.items) }
{
    let mut marks = Vec::new(alloc);
    let mut state = LexState::Gap;
    for (at, byte) in text.iter().enumerate() {
        let step = step(state, *byte);
        add_mark(&mut marks, step.begin, at)?;
        state = step.next.unwrap_or(LexState::Gap);
    }
    Ok(marks)
}

/// Adds a token start of this kind, if there is one, after those that are before its offset.
fn add_mark(marks: &mut Vec<Mark>, kind: Option<MarkKind>, at: usize) -> Result<(), AllocError>
    requires rising { RisingFrom 0 marks.old.items }
    requires before { EachIn (λ m. (0 ≤ m.at) × (m.at < at)) marks.old.items }
    ensures rising { OnOk result (RisingFrom 0 marks.new.items) }
    ensures before { OnOk result (EachIn (λ m. (0 ≤ m.at) × (m.at < at + 1)) marks.new.items) }
{
    if let Some(kind) = kind {
        marks.push(Mark { kind, at })?;
    }
    Ok(())
}

/// How many of these token starts are before an offset.
fn count_before(marks: &[Mark], at: usize) -> usize
    ensures { result ≤ length marks.now }
{
    let count = marks.iter().take_while(|mark| mark.at < at).count();
    count.min(marks.len())
}
