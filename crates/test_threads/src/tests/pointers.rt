// Pointers that two workers look up, of whom one takes a chunk and waits until the other has taken one.
use crate::tests::meeting::{Meeting, Until};
use jx_answer::{Answer, TextAnswer, find_all, index_text};
use jx_claim::Cutting;
use jx_crew::{OpenGate, Workers};
use jx_index::{Indexed, Pointer};
use jx_lex::Depth;
use std::alloc::Global;
use std::process::Abort;
use std::sync::Wait;
use std::thread::Threads;

#[test]
fn another_worker_draws_while_the_first_is_held(rt: HostRuntime) {
    let pointers = [pointer_of(&rt, "/0"), pointer_of(&rt, "/1")];
    let took_place = meets(&rt, rt.alloc(), &pointers, &[(1, 3), (4, 6)]);
    assert!(rt; took_place);
}

#[test]
fn one_pointer_asks_no_gate(rt: HostRuntime) {
    let pointers = [pointer_of(&rt, "/1")];
    let took_place = meets(&rt, rt.alloc(), &pointers, &[(4, 6)]);
    assert!(rt; !took_place);
}

fn pointer_of<'p, R: Abort>(rt: &R, spelt: &'p str) -> Pointer<'p> {
    Pointer::read(spelt).expect(rt, "a pointer")
}

// Whether two workers meet as they look these pointers up, which lead to these places.
fn meets<R: Abort + Threads + Wait + Sync>(
    rt: &R,
    alloc: Global,
    pointers: &[Pointer],
    places: &[(usize, usize)],
) -> bool {
    let index = index_of(rt, alloc, b"[10,20]");
    let gate = Meeting::new(Until::Drew);
    let right = are_found(rt, alloc, &index, pointers, places, &gate);
    assert!(rt; right);
    gate.took_place()
}

// Whether the pointers lead to these places.
fn are_found<R: Abort + Threads + Wait + Sync>(
    rt: &R,
    alloc: Global,
    index: &Indexed,
    pointers: &[Pointer],
    places: &[(usize, usize)],
    gate: &Meeting,
) -> bool {
    let workers = Workers::new(2).expect(rt, "workers");
    match find_all(rt, alloc, index, pointers, workers, gate) {
        Ok(answers) => are_at(&answers, places),
        Err(_) => false,
    }
}

// Whether these are values at these places, in order.
fn are_at(answers: &[Answer], places: &[(usize, usize)]) -> bool {
    answers.len() == places.len()
        && answers.iter().zip(places).all(|(answer, place)| {
            matches!(answer, Answer::Found { span, .. } if (span.start, span.end) == *place)
        })
}

fn index_of<'a, R: Abort + Threads + Wait + Sync>(
    rt: &R,
    alloc: Global,
    text: &'a [u8],
) -> Indexed<'a> {
    let workers = Workers::new(1).expect(rt, "one worker");
    let cutting = Cutting::every(text.len(), 4).expect(rt, "pieces");
    match index_text(
        rt,
        alloc,
        text,
        &cutting,
        workers,
        Depth::default(),
        &OpenGate,
    ) {
        Ok(TextAnswer::Accepted(index)) => index,
        _ => panic!(rt; "no text"),
    }
}
