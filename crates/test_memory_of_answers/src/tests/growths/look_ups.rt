// Look-ups where an allocation fails.
use crate::tests::answers::LookUp;
use crate::tests::calls::{Asked, LookUps, index_of, pointer_of};
use crate::tests::growths::check;
use jx_index::FindFault;
use jx_lex::{Depth, Kind};
use jx_run::{FrontMark, NameRule};
use std::alloc::Global;
use std::env::Env;
use std::process::Abort;
use std::sync::Wait;
use std::thread::Threads;
use test_memory_of_runs::inputs::{FIVE_ROWS, NESTED, REPEATED, UNSORTED, WIDE, settings};
use test_memory_of_runs::lines::Lines;

const REPEATED_HERE: LookUp = Err(FindFault::NameRepeated { token: 0 });

// A text, three pointers into it, and the answers to them.
type Case = (&'static [u8], [&'static str; 3], [LookUp; 3]);

const LOOK_UPS: [Case; 5] = [
    (
        NESTED,
        ["/0", "/0/0/0", "/-"],
        [
            Ok((1, Kind::Array, (1, 5))),
            Err(FindFault::PastEnd { token: 2 }),
            Err(FindFault::AfterLast { token: 0 }),
        ],
    ),
    (
        FIVE_ROWS,
        ["/a/1/b", "/a/2", "/a/b"],
        [
            Ok((4, Kind::Number, (13, 14))),
            Err(FindFault::PastEnd { token: 1 }),
            Err(FindFault::NotAnIndex { token: 1 }),
        ],
    ),
    (
        REPEATED,
        ["", "/a", "/b"],
        [
            Ok((0, Kind::Object, (0, 18))),
            REPEATED_HERE,
            Err(FindFault::NoSuchMember { token: 0 }),
        ],
    ),
    (
        UNSORTED,
        ["/a", "/b", "/a/x"],
        [
            Ok((2, Kind::Number, (11, 12))),
            REPEATED_HERE,
            Err(FindFault::NotAContainer { token: 1 }),
        ],
    ),
    (
        WIDE,
        ["/\u{1F600}", "/\u{FF5E}", "/"],
        [
            Ok((2, Kind::Number, (16, 17))),
            Ok((1, Kind::Number, (7, 8))),
            Err(FindFault::NoSuchMember { token: 0 }),
        ],
    ),
];

#[test]
fn look_ups_under_a_refused_growth(rt: HostRuntime) {
    check_all(&rt, rt.alloc(), &LOOK_UPS)
}

// Each of these by one worker and by two.
fn check_all<R: Abort + Env + Threads + Wait + Sync>(rt: &R, alloc: Global, look_ups: &[Case]) {
    let mut lines = Lines::of(rt);
    for look_up in look_ups {
        for count in &[1, 2] {
            if lines.takes_next() {
                check_look_up(rt, alloc, look_up, *count);
            }
        }
    }
}

// Three pointers into a text, looked up by that many workers.
fn check_look_up<R: Abort + Threads + Wait + Sync>(
    rt: &R,
    alloc: Global,
    look_up: &Case,
    count: u8,
) {
    let (text, spelt, want) = look_up;
    let [first, second, third] = *spelt;
    let pointers = [
        pointer_of(rt, first),
        pointer_of(rt, second),
        pointer_of(rt, third),
    ];
    let index = index_of(rt, alloc, text);
    let look_ups = LookUps {
        text,
        index: &index,
        pointers: &pointers,
        want,
    };
    let settings = settings(Depth::default(), FrontMark::Refused, NameRule::Any);
    check(rt, alloc, count, Asked::Pointers(&look_ups), &settings);
}
