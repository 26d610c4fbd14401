// Lists of token starts, given and random ones, are read as by the table, made at once and joined at each place.
use crate::tests::checks::assert_right;
use crate::tests::marks::chance::{BYTES, Chance};
use crate::tests::marks::drawn::Drawn;
use crate::tests::marks::lists::kind_of;
use crate::tests::marks::readings::is_as_read_at_each_cut;
use jx_reduce::{Expect, Holder, next};
use std::alloc::{AllocError, Global};
use std::process::Abort;
use std::test::Fail;
use test_words::{EXPECTS, Maker};

const GIVEN: [&str; 13] = [
    "",
    "n",
    "[s,n]",
    "{s:n,s:[]}",
    "s:n,n]",
    ",n]]",
    "},[{",
    "[[[]]]",
    ",[}",
    ",{s:[n]}],",
    "]:",
    "s,s:{}",
    "{s:n,n]",
];

const DEPTHS: [u32; 5] = [0, 1, 2, 3, 512];

#[test]
fn lists_by_chance_are_read_as_by_the_table(rt: HostRuntime) -> Result<(), Fail> {
    for text in &GIVEN {
        check(&rt, rt.alloc(), text.as_bytes());
    }
    let mut chance = Chance { seed: 1 };
    for _ in 0..60 {
        check_by_chance(&rt, rt.alloc(), &mut chance)?;
    }
    Ok(())
}

#[test]
fn more_containers_than_the_depth_are_read_as_by_the_table(rt: HostRuntime) -> Result<(), Fail> {
    let list = towers(rt.alloc())?;
    check(&rt, rt.alloc(), &list);
    Ok(())
}

// A list by chance.
fn check_by_chance<R: Abort>(rt: &R, alloc: Global, chance: &mut Chance) -> Result<(), AllocError> {
    let text = text_by_chance(alloc, chance, 40)?;
    check(rt, alloc, &text);
    Ok(())
}

// Twice 260 arrays, of which the second ones are not closed.
fn towers(alloc: Global) -> Result<Vec<u8>, AllocError> {
    let mut text = Vec::new(alloc);
    for byte in &[b'[', b']', b']', b'['] {
        text.resize(text.len().saturating_add(260), *byte)?;
    }
    Ok(text)
}

// A list within each depth.
fn check<R: Abort>(rt: &R, alloc: Global, text: &[u8]) {
    for containers in &DEPTHS {
        let answer = is_as_read_at_each_cut(alloc, text, *containers, Maker::AtOnce);
        assert_right(rt, answer, text, *containers as usize);
    }
}

// Token starts by chance, of which most are allowed where they stand.
fn text_by_chance(alloc: Global, chance: &mut Chance, len: usize) -> Result<Vec<u8>, AllocError> {
    let mut drawn = Drawn::new(alloc, EXPECTS[chance.below(6)]);
    for _ in 0..len {
        add_by_chance(&mut drawn, chance)?;
    }
    Ok(drawn.into_text())
}

// One more token start by chance. After a fault anything may stand.
fn add_by_chance(drawn: &mut Drawn, chance: &mut Chance) -> Result<(), AllocError> {
    let around = [Holder::Array, Holder::Object][chance.below(2)];
    let (expect, top) = (drawn.expect(), drawn.top(around));
    let byte = mostly_allowed(chance, expect, top);
    let by_chance = EXPECTS[chance.below(6)];
    let then = next(kind_of(byte), expect, top).unwrap_or(by_chance);
    drawn.add(byte, then)
}

// Of four token starts by chance the first that is allowed here, or else the last.
fn mostly_allowed(chance: &mut Chance, expect: Expect, top: Holder) -> u8 {
    let mut byte = BYTES[chance.below(8)];
    for _ in 0..3 {
        if next(kind_of(byte), expect, top).is_none() {
            byte = BYTES[chance.below(8)];
        }
    }
    byte
}
