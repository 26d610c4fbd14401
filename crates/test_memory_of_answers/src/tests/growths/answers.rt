// Answers on texts and sequences.
use crate::tests::calls::{ALL_SEQUENCE_CALLS, ALL_TEXT_CALLS, Asked, SequenceCall, TextCall};
use crate::tests::growths::check;
use crate::tests::inputs::{
    ELEMENTS, MARKED_FIVE, MARKED_NUMBER, MARKED_REPEATED, NUMBER_ALONE, UNIQUE_NAMES,
    WorkedSequence,
};
use jx_lex::Depth;
use jx_run::{FrontMark, NameRule};
use std::alloc::Global;
use std::env::Env;
use std::process::Abort;
use std::sync::Wait;
use std::thread::Threads;
use test_memory_of_runs::inputs::{
    FIVE, NESTED_ARRAYS, REPEATED_NAME, REPEATED_SEQUENCE, SEQUENCE, TOO_DEEP, UNSORTED_NAMES,
    WIDE_NAMES, Worked, settings,
};
use test_memory_of_runs::lines::Lines;

// Texts, each with what becomes of a byte order mark and of names.
const SETTLED_TEXTS: [(Worked, FrontMark, NameRule); 8] = [
    (NESTED_ARRAYS, FrontMark::Refused, NameRule::Any),
    (TOO_DEEP, FrontMark::Refused, NameRule::Any),
    (FIVE, FrontMark::Refused, NameRule::Any),
    (REPEATED_NAME, FrontMark::Refused, NameRule::Any),
    (UNSORTED_NAMES, FrontMark::Refused, NameRule::Any),
    (WIDE_NAMES, FrontMark::Refused, NameRule::Any),
    (MARKED_FIVE, FrontMark::Ignored, NameRule::Any),
    (MARKED_REPEATED, FrontMark::Ignored, NameRule::Unique),
];

// Sequences, each with what becomes of a byte order mark and of names.
const SETTLED_SEQUENCES: [(WorkedSequence, FrontMark, NameRule); 3] = [
    ((SEQUENCE, &ELEMENTS), FrontMark::Refused, NameRule::Any),
    (
        (REPEATED_SEQUENCE, &UNIQUE_NAMES),
        FrontMark::Ignored,
        NameRule::Unique,
    ),
    (
        (MARKED_NUMBER, &NUMBER_ALONE),
        FrontMark::Ignored,
        NameRule::Unique,
    ),
];

#[test]
fn texts_by_one_worker_under_a_refused_growth(rt: HostRuntime) {
    check_texts(&rt, rt.alloc(), 1)
}

#[test]
fn texts_by_two_workers_under_a_refused_growth(rt: HostRuntime) {
    check_texts(&rt, rt.alloc(), 2)
}

#[test]
fn sequences_by_one_worker_under_a_refused_growth(rt: HostRuntime) {
    check_sequences(&rt, rt.alloc(), 1)
}

#[test]
fn sequences_by_two_workers_under_a_refused_growth(rt: HostRuntime) {
    check_sequences(&rt, rt.alloc(), 2)
}

// The call that takes no settings refuses each byte order mark.
fn is_text_meant(call: TextCall, mark: FrontMark) -> bool {
    match call {
        TextCall::Plain => mark == FrontMark::Refused,
        _ => true,
    }
}

// Each call on each text by so many workers: one reads in one pass and by runs that are joined in an accumulator, two read by runs.
fn check_texts<R: Abort + Env + Threads + Wait + Sync>(rt: &R, alloc: Global, count: u8) {
    check_settled_texts(rt, alloc, count, &SETTLED_TEXTS)
}

fn check_settled_texts<R: Abort + Env + Threads + Wait + Sync>(
    rt: &R,
    alloc: Global,
    count: u8,
    texts: &[(Worked, FrontMark, NameRule)],
) {
    let mut lines = Lines::of(rt);
    for (worked, mark, names) in texts {
        let depth = Depth::new(worked.containers).expect(rt, "a depth");
        let settings = settings(depth, *mark, *names);
        for call in &ALL_TEXT_CALLS {
            if is_text_meant(*call, *mark) && lines.takes_next() {
                check(rt, alloc, count, Asked::Text(*call, worked), &settings);
            }
        }
    }
}

fn is_sequence_meant(call: SequenceCall, mark: FrontMark) -> bool {
    match call {
        SequenceCall::Plain => mark == FrontMark::Refused,
        _ => true,
    }
}

// Each call on each sequence by so many workers.
fn check_sequences<R: Abort + Env + Threads + Wait + Sync>(rt: &R, alloc: Global, count: u8) {
    check_settled_sequences(rt, alloc, count, &SETTLED_SEQUENCES)
}

fn check_settled_sequences<R: Abort + Env + Threads + Wait + Sync>(
    rt: &R,
    alloc: Global,
    count: u8,
    sequences: &[(WorkedSequence, FrontMark, NameRule)],
) {
    let mut lines = Lines::of(rt);
    for (sequence, mark, names) in sequences {
        let settings = settings(Depth::default(), *mark, *names);
        for call in &ALL_SEQUENCE_CALLS {
            if is_sequence_meant(*call, *mark) && lines.takes_next() {
                check(
                    rt,
                    alloc,
                    count,
                    Asked::Sequence(*call, sequence),
                    &settings,
                );
            }
        }
    }
}
