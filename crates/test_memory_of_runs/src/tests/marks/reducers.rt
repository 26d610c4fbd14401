// Reducers that are given long lists of token starts one by one, beside the table of moves read one token start at a time.
ghost use Rattle.std.specs.Prelude.{◌<◌};

use crate::tests::checks::assert_right;
use crate::tests::marks::chance::{BYTES, Chance};
use crate::tests::marks::drawn::Drawn;
use crate::tests::marks::lists::kind_of;
use crate::tests::marks::readings::is_as_read_at_each_cut;
use jx_reduce::{Expect, Holder, next};
use std::alloc::{AllocError, Global};
use std::process::Abort;
use std::test::Fail;
use test_words::{EXPECTS, Maker};

// So long that most token starts are quiet.
const LONG: usize = 1100;

#[test]
fn long_lists_with_frequent_faults_are_reduced_as_by_the_table(
    rt: HostRuntime,
) -> Result<(), Fail> {
    let mut chance = Chance { seed: 7 };
    for containers in &[0u32, 1, 2, 3, 512] {
        check_with_faults(&rt, rt.alloc(), &mut chance, *containers)?;
    }
    Ok(())
}

#[test]
fn long_lists_of_strings_are_reduced_as_by_the_table(rt: HostRuntime) -> Result<(), Fail> {
    for count in &[0usize, 1, 2, 3, 511, 512, 513, LONG] {
        check_strings(&rt, rt.alloc(), *count)?;
    }
    let mut chance = Chance { seed: 8 };
    for count in &[1usize, 2, 511, 512, 600] {
        check_behind_strings(&rt, rt.alloc(), &mut chance, *count, Expect::After)?;
        check_behind_strings(&rt, rt.alloc(), &mut chance, *count, Expect::Colon)?;
    }
    Ok(())
}

// A list within a depth.
fn check<R: Abort>(rt: &R, alloc: Global, text: &[u8], containers: u32) {
    let answer = is_as_read_at_each_cut(alloc, text, containers, Maker::OneByOne);
    assert_right(rt, answer, text, containers as usize);
}

// Long lists with a fault in so many token starts.
fn check_with_faults<R: Abort>(
    rt: &R,
    alloc: Global,
    chance: &mut Chance,
    containers: u32,
) -> Result<(), AllocError> {
    for faults in &[8usize, 150, 600, 100_000] {
        let most = chance.below(containers as usize + 1);
        let expect = EXPECTS[chance.below(6)];
        let text = long_by_chance(alloc, chance, expect, most, (*faults).max(1))?;
        check(rt, alloc, &text, containers);
    }
    Ok(())
}

// Strings alone.
fn check_strings<R: Abort>(rt: &R, alloc: Global, count: usize) -> Result<(), AllocError> {
    let text = strings(alloc, count)?;
    check(rt, alloc, &text, 3);
    Ok(())
}

// Strings in front of token starts that may stand where they do from this expectation on.
fn check_behind_strings<R: Abort>(
    rt: &R,
    alloc: Global,
    chance: &mut Chance,
    count: usize,
    expect: Expect,
) -> Result<(), AllocError> {
    let mut text = strings(alloc, count)?;
    add_long(&mut text, alloc, chance, expect)?;
    check(rt, alloc, &text, 3);
    Ok(())
}

// Adds many token starts that may stand where they do from this expectation on.
fn add_long(
    text: &mut Vec<u8>,
    alloc: Global,
    chance: &mut Chance,
    expect: Expect,
) -> Result<(), AllocError> {
    let marks = long_by_chance(alloc, chance, expect, 3, 100_000)?;
    Ok(text.extend_from_slice(&marks)?)
}

/// Token starts that may stand where they do from this expectation on, but once in so many any token start. At a fault the list goes
/// on as if that token start were not there, so that it has many more after the first one.
fn long_by_chance(
    alloc: Global,
    chance: &mut Chance,
    expect: Expect,
    most: usize,
    faults: usize,
) -> Result<Vec<u8>, AllocError>
    requires { 0 < faults }
{
    let around = [Holder::Array, Holder::Object][chance.below(2)];
    let mut drawn = Drawn::new(alloc, expect);
    for _ in 0..LONG {
        let byte = if chance.below(faults) == 0 {
            BYTES[chance.below(8)]
        } else {
            fitting(
                chance,
                drawn.expect(),
                drawn.top(around),
                drawn.depth(),
                most,
            )
        };
        drawn.try_add(byte, around)?;
    }
    Ok(drawn.into_text())
}

// A token start that may stand here, with no more containers open than so many, and none closed that was open at entry.
fn fitting(chance: &mut Chance, expect: Expect, top: Holder, open: usize, most: usize) -> u8 {
    for _ in 0..64 {
        let byte = BYTES[chance.below(8)];
        let deep = (byte == b'[' || byte == b'{') && open >= most;
        let out = (byte == b']' || byte == b'}') && open == 0;
        if !deep && !out && next(kind_of(byte), expect, top).is_some() {
            return byte;
        }
    }
    b','
}

// So many strings.
fn strings(alloc: Global, count: usize) -> Result<Vec<u8>, AllocError> {
    let mut text = Vec::new(alloc);
    for _ in 0..count {
        text.push(b's')?;
    }
    Ok(text)
}
