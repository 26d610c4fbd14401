// One worker takes a chunk and waits until the other has put a run into the accumulator.
use crate::tests::meeting::{Meeting, Until};
use jx_answer::{Element, ElementAnswer, TextAnswer, index_sequence, index_text};
use jx_claim::Cutting;
use jx_crew::Workers;
use jx_lex::{Depth, Span};
use std::alloc::Global;
use std::process::Abort;
use std::sync::Wait;
use std::thread::Threads;

#[test]
fn another_worker_goes_on_while_the_first_is_held(rt: HostRuntime) {
    let gate = Meeting::new(Until::Moved);
    let accepted = is_accepted(&rt, rt.alloc(), b"[1,2]", &gate);
    assert!(rt; accepted);
    assert!(rt; gate.took_place());
}

#[test]
fn another_worker_goes_on_in_a_sequence(rt: HostRuntime) {
    let gate = Meeting::new(Until::Moved);
    let place = Span { start: 1, end: 4 };
    let accepted = has_one_accepted(&rt, rt.alloc(), b"\x1E[1]", place, &gate);
    assert!(rt; accepted);
    assert!(rt; gate.took_place());
}

// Whether two workers accept a text that is cut behind two bytes.
fn is_accepted<R: Abort + Threads + Wait + Sync>(
    rt: &R,
    alloc: Global,
    text: &[u8],
    gate: &Meeting,
) -> bool {
    let workers = Workers::new(2).expect(rt, "workers");
    let cutting = Cutting::at(alloc, text.len(), &[2]).expect(rt, "cuts");
    let answer = index_text(rt, alloc, text, &cutting, workers, Depth::default(), gate);
    matches!(&answer, Ok(TextAnswer::Accepted(_)))
}

// Whether the one element of a sequence that is cut behind two bytes stands there, and two workers accept it.
fn has_one_accepted<R: Abort + Threads + Wait + Sync>(
    rt: &R,
    alloc: Global,
    text: &[u8],
    place: Span,
    gate: &Meeting,
) -> bool {
    let workers = Workers::new(2).expect(rt, "workers");
    let cutting = Cutting::at(alloc, text.len(), &[2]).expect(rt, "cuts");
    match index_sequence(rt, alloc, text, &cutting, workers, Depth::default(), gate) {
        Ok(elements) => is_one_accepted(&elements, place),
        Err(_) => false,
    }
}

fn is_one_accepted(elements: &[Element], place: Span) -> bool {
    match elements {
        [element] => element.span == place && matches!(&element.answer, ElementAnswer::Accepted(_)),
        _ => false,
    }
}
