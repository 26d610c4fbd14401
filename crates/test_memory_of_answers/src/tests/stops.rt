// Workers that are stopped: what they left is read by the calling thread, and the answer is the same.
use crate::tests::answers::LookUp;
use crate::tests::calls::{
    Asked, LookUps, SEQUENCE_CALLS, TEXT_CALLS, index_of, is_right, pointer_of,
};
use crate::tests::inputs::{
    MARKED_TEXTS, MARKS, RULES, SETTLED_SEQUENCES, Settled, WorkedSequence,
};
use jx_crew::{Crew, Workers};
use jx_index::FindFault;
use jx_lex::{Depth, Kind};
use jx_run::{FrontMark, NameRule, Settings};
use std::alloc::Global;
use std::process::Abort;
use std::sync::Wait;
use std::sync::atomic::AtomicBool;
use std::thread::Threads;
use test_memory_of_runs::gates::{MANY, StopFrom};
use test_memory_of_runs::inputs::{TEXTS, UNSORTED, Worked, settings};

// Texts, and what may become of a byte order mark.
const TEXT_LISTS: [(&[Worked], &[FrontMark]); 2] = [
    (&TEXTS, &MARKS),
    (&MARKED_TEXTS, &[FrontMark::Ignored]),
];

#[test]
fn texts_are_answered_alike_where_workers_stop(rt: HostRuntime) {
    check_lists(&rt, rt.alloc(), &TEXT_LISTS)
}

#[test]
fn sequences_are_answered_alike_where_workers_stop(rt: HostRuntime) {
    check_settled(&rt, rt.alloc(), &SETTLED_SEQUENCES)
}

#[test]
fn look_ups_are_answered_alike_where_workers_stop(rt: HostRuntime) {
    check_look_ups(&rt, rt.alloc())
}

// Whether a run whose workers stop at the event of this number and at all later ones meets a stop. It answers rightly.
fn meets_a_stop<R: Abort + Threads + Wait + Sync>(
    rt: &R,
    alloc: Global,
    workers: Workers,
    number: u64,
    asked: Asked<'_>,
    settings: &Settings,
) -> bool {
    let begun = AtomicBool::new(true);
    let gate = StopFrom::new(number, &begun);
    let crew = Crew {
        rt,
        alloc,
        workers,
        gate: &gate,
    };
    let right = is_right(&crew, asked, settings).expect(rt, "an answer");
    assert!(rt;
        right,
        "{} on {:?} by {settings:?} and {workers:?}, stopped at {number}",
        asked.call(),
        asked.text()
    );
    assert!(rt; !gate.was_ignored(), "{} stopped at {number}", asked.call());
    gate.has_stopped()
}

// The question to so many workers, who stop from each event on in turn until a run meets no stop. The first run meets one, as
// there are two chunks or more; there the calling thread reads all.
fn check<R: Abort + Threads + Wait + Sync>(
    rt: &R,
    alloc: Global,
    count: u8,
    asked: Asked<'_>,
    settings: &Settings,
) {
    let workers = Workers::new(count).expect(rt, "workers");
    for number in 0..MANY {
        if !meets_a_stop(rt, alloc, workers, number, asked, settings) {
            assert!(rt;
                number > 0,
                "{} on {:?} meets no stop",
                asked.call(),
                asked.text()
            );
            return;
        }
    }
    panic!(rt; "no run that meets no stop")
}

fn check_by_each<R: Abort + Threads + Wait + Sync>(
    rt: &R,
    alloc: Global,
    asked: Asked<'_>,
    settings: &Settings,
) {
    for count in &[1, 2, 5] {
        check(rt, alloc, *count, asked, settings);
    }
}

// Each call on a text by both rules for names.
fn check_text<R: Abort + Threads + Wait + Sync>(
    rt: &R,
    alloc: Global,
    worked: &Worked,
    mark: FrontMark,
) {
    let depth = Depth::new(worked.containers).expect(rt, "a depth");
    for names in &RULES {
        let settings = settings(depth, mark, *names);
        for call in &TEXT_CALLS {
            check_by_each(rt, alloc, Asked::Text(*call, worked), &settings);
        }
    }
}

fn check_texts<R: Abort + Threads + Wait + Sync>(
    rt: &R,
    alloc: Global,
    texts: &[Worked],
    mark: FrontMark,
) {
    for worked in texts {
        check_text(rt, alloc, worked, mark);
    }
}

fn check_lists<R: Abort + Threads + Wait + Sync>(
    rt: &R,
    alloc: Global,
    lists: &[(&[Worked], &[FrontMark])],
) {
    for (texts, marks) in lists {
        for mark in *marks {
            check_texts(rt, alloc, texts, *mark);
        }
    }
}

fn check_settled<R: Abort + Threads + Wait + Sync>(rt: &R, alloc: Global, lists: &[Settled]) {
    for (marks, rules, sequences) in lists {
        for mark in *marks {
            check_by_rules(rt, alloc, *mark, rules, sequences);
        }
    }
}

// These sequences by each of these rules for names.
fn check_by_rules<R: Abort + Threads + Wait + Sync>(
    rt: &R,
    alloc: Global,
    mark: FrontMark,
    rules: &[NameRule],
    sequences: &[WorkedSequence],
) {
    for names in rules {
        let settings = settings(Depth::default(), mark, *names);
        check_sequences(rt, alloc, sequences, &settings);
    }
}

// Each call on these sequences.
fn check_sequences<R: Abort + Threads + Wait + Sync>(
    rt: &R,
    alloc: Global,
    sequences: &[WorkedSequence],
    settings: &Settings,
) {
    for sequence in sequences {
        for call in &SEQUENCE_CALLS {
            check_by_each(rt, alloc, Asked::Sequence(*call, sequence), settings);
        }
    }
}

const WANT: [LookUp; 4] = [
    Ok((0, Kind::Object, (0, 19))),
    Ok((2, Kind::Number, (11, 12))),
    Err(FindFault::NameRepeated { token: 0 }),
    Err(FindFault::NoSuchMember { token: 0 }),
];

fn check_look_ups<R: Abort + Threads + Wait + Sync>(rt: &R, alloc: Global) {
    let index = index_of(rt, alloc, UNSORTED);
    let pointers = [
        pointer_of(rt, ""),
        pointer_of(rt, "/a"),
        pointer_of(rt, "/b"),
        pointer_of(rt, "/c"),
    ];
    let look_ups = LookUps {
        text: UNSORTED,
        index: &index,
        pointers: &pointers,
        want: &WANT,
    };
    let settings = settings(Depth::default(), FrontMark::Refused, NameRule::Any);
    check_by_each(rt, alloc, Asked::Pointers(&look_ups), &settings);
}
