// Known stacks beside reductions, over long random lists and over nesting that goes on across the ends of words.
ghost use Rattle.std.specs.Prelude.{◌<◌};
ghost use Rattle.jx_reduce.specs.Offsets.{RisingFrom};

use crate::tests::checks::assert_right;
use crate::tests::marks::chance::{BYTES, Chance};
use crate::tests::marks::drawn::Drawn;
use crate::tests::marks::lists::{depth_of, marks_of};
use jx_lex::{Depth, Mark};
use jx_reduce::{Expect, Holder, KnownStack, Reductions, Whole};
use std::alloc::{AllocError, Global};
use std::process::Abort;
use std::test::Fail;

const DEPTHS: [u32; 7] = [0, 1, 2, 3, 64, 65, 512];

// How many containers stand in one another.
const COUNTS: [u32; 14] = [1, 2, 62, 63, 64, 65, 66, 127, 128, 129, 130, 192, 193, 300];

const ENDED: Whole = Whole::Went {
    expect: Expect::After,
    open: 0,
};

#[test]
fn drawn_lists_come_to_what_reductions_come_to(rt: HostRuntime) -> Result<(), Fail> {
    for containers in &DEPTHS {
        check_drawn(&rt, rt.alloc(), *containers)?;
    }
    for count in &COUNTS {
        check_nested(&rt, rt.alloc(), *count)?;
    }
    Ok(())
}

// Lists with many faults, with few and with none.
fn check_drawn<R: Abort>(rt: &R, alloc: Global, containers: u32) -> Result<(), AllocError> {
    for seed in 0..180u64 {
        let faults = [4usize, 60, 100_000][(seed % 3) as usize];
        let text = drawn(alloc, seed, faults.max(1))?;
        check(rt, alloc, &text, containers, None);
    }
    Ok(())
}

// So many containers, each in the one before, which are arrays or objects by several patterns.
fn check_nested<R: Abort>(rt: &R, alloc: Global, count: u32) -> Result<(), AllocError> {
    for pattern in &[0, 1, 0x8000_0000_0000_0001, 0xaaaa_aaaa_aaaa_aaaa, u64::MAX] {
        let text = nested(alloc, count as usize, *pattern)?;
        check_within_each(rt, alloc, &text, count);
    }
    Ok(())
}

// So many nested containers, within just enough and within others.
fn check_within_each<R: Abort>(rt: &R, alloc: Global, text: &[u8], count: u32) {
    for containers in &[count, 64, 65, 128] {
        let whole = if *containers < count {
            None
        } else {
            Some(ENDED)
        };
        check(rt, alloc, text, *containers, whole);
    }
}

// A list of token starts, the depth within which it is read, and its outcome where that is known.
fn check<R: Abort>(rt: &R, alloc: Global, text: &[u8], containers: u32, whole: Option<Whole>) {
    let answer = is_as_reduced(alloc, text, depth_of(containers), whole);
    assert_right(rt, answer, text, containers as usize);
}

// Whether a known stack has the outcome that is known, and that of reductions.
fn is_as_reduced(
    alloc: Global,
    text: &[u8],
    depth: Depth,
    known: Option<Whole>,
) -> Result<bool, AllocError> {
    let marks = marks_of(alloc, text)?;
    let whole = whole_of(alloc, &marks, depth)?;
    let is_known = known.is_none() || known == Some(whole);
    Ok(is_known && stack_comes_to(alloc, &marks, depth, whole)?)
}

fn whole_of(alloc: Global, marks: &[Mark], depth: Depth) -> Result<Whole, AllocError>
    requires { RisingFrom 0 marks.now }
{
    let all = Reductions::of(alloc, marks, depth)?;
    Ok(all.entry(Expect::Value).whole())
}

// Whether a known stack has this outcome, over slices and one by one.
fn stack_comes_to(
    alloc: Global,
    marks: &[Mark],
    depth: Depth,
    whole: Whole,
) -> Result<bool, AllocError> {
    let mut stack = KnownStack::new(alloc, depth);
    push_slices(&mut stack, marks)?;
    let by_slices = stack.whole();
    stack.reset();
    push_each(&mut stack, marks)?;
    Ok(by_slices == whole && stack.whole() == whole)
}

fn push_slices(stack: &mut KnownStack, marks: &[Mark]) -> Result<(), AllocError> {
    for slice in marks.chunks(7) {
        stack.extend(slice)?;
    }
    Ok(())
}

fn push_each(stack: &mut KnownStack, marks: &[Mark]) -> Result<(), AllocError> {
    for mark in marks {
        stack.push(*mark)?;
    }
    Ok(())
}

// A list that sinks by long runs and rises again. Once in so many its token start is any; at a fault the list goes on as
// if that token start were not there.
fn drawn(alloc: Global, seed: u64, faults: usize) -> Result<Vec<u8>, AllocError>
    requires { 0 < faults }
{
    let mut chance = Chance { seed };
    let mut drawn = Drawn::new(alloc, Expect::Value);
    for i in 0..1500usize {
        let top = drawn.top(Holder::Bottom);
        let byte = if chance.below(faults) == 0 {
            any(&mut chance)
        } else {
            allowed(&mut chance, drawn.expect(), top, i / 500 % 2 == 0)
        };
        drawn.try_add(byte, Holder::Bottom)?;
    }
    Ok(drawn.into_text())
}

fn any(chance: &mut Chance) -> u8 {
    BYTES[chance.below(8)]
}

// Of the bytes of a value, an opening one but once in so many.
fn value(chance: &mut Chance, scalars: usize) -> u8
    requires { 0 < scalars }
{
    let is_scalar = chance.below(scalars) == 0;
    let is_first = chance.below(2) == 0;
    let (first, second) = if is_scalar {
        (b's', b'n')
    } else {
        (b'[', b'{')
    };
    if is_first { first } else { second }
}

// A byte whose token start may stand here; while it sinks, few containers are closed.
fn allowed(chance: &mut Chance, expect: Expect, top: Holder, sinks: bool) -> u8 {
    let closes = if sinks {
        chance.below(9) == 0
    } else {
        chance.below(4) != 0
    };
    let scalars = if sinks { 5 } else { 1 };
    match expect {
        Expect::ArrayFirst if closes => b']',
        Expect::Value | Expect::ArrayFirst => value(chance, scalars),
        Expect::ObjectFirst => if closes { b'}' } else { b's' },
        Expect::Name => b's',
        Expect::Colon => b':',
        Expect::After => behind_value(chance, top, closes),
    }
}

// A byte whose token start may follow a value.
fn behind_value(chance: &mut Chance, top: Holder, closes: bool) -> u8 {
    match top {
        Holder::Bottom => any(chance),
        _ if !closes => b',',
        Holder::Array => b']',
        Holder::Object => b'}',
    }
}

// So many containers, each in the one before, opened and closed. The one at a place is an object where the place's bit
// of the pattern is set.
fn nested(alloc: Global, count: usize, pattern: u64) -> Result<Vec<u8>, AllocError> {
    let mut text = Vec::new(alloc);
    for place in 0..count {
        if is_object(pattern, place) {
            text.extend_from_slice(b"{s:")?;
        } else {
            text.push(b'[')?;
        }
    }
    text.push(b'n')?;
    for place in (0..count).rev() {
        let closing = if is_object(pattern, place) {
            b'}'
        } else {
            b']'
        };
        text.push(closing)?;
    }
    Ok(text)
}

fn is_object(pattern: u64, place: usize) -> bool {
    (pattern >> (place % 64)) & 1 == 1
}
