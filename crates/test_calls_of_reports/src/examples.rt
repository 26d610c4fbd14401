// The answers of the examples.
use crate::outcome::push_output;
use jx_crew::Workers;
use jx_index::Pointer;
use jx_lex::Span;
use jx_run::Verdict;
use std::alloc::{AllocError, Global};
use std::sync::Wait;
use std::thread::Threads;
use test_examples::{
    ExampleFault, LookUp, check, check_on_own_threads, lines_of_values, look_up, whole_elements,
};
use test_words::{Line, LineFault, Out, push_span, push_verdict};

/// The answer of an example, where memory is not refused.
fn given<T: Drop>(answer: Result<T, ExampleFault>) -> Result<T, AllocError> {
    answer.ok().ok_or(AllocError)
}

/// `example NAME TEXT [POINTER]`: what an example gives that two workers read.
pub fn example<R: Threads + Wait + Sync>(line: &mut Line<'_>, rt: &R) {
    let name = line.word();
    let text = line.text();
    let pointers = line.texts();
    let told = push_example(&mut line.out, rt, line.alloc, name, &text, &pointers);
    line.settle(told);
}

fn push_example<R: Threads + Wait + Sync>(
    out: &mut Out,
    rt: &R,
    alloc: Global,
    name: &str,
    text: &[u8],
    pointers: &[String],
) -> Result<(), LineFault> {
    let workers = Workers::new(2).ok_or(LineFault::NoSuchCall)?;
    match (name, pointers) {
        ("check", []) => push_verdict(out, given(check(rt, alloc, text, workers))?),
        ("check_on_own_threads", []) => {
            push_verdict(out, given(check_on_own_threads(rt, alloc, text))?);
        }
        ("look_up", [spelt]) => {
            let pointer = Pointer::read(spelt.as_str())
                .ok()
                .ok_or(LineFault::NoSuchCall)?;
            push_led(out, given(look_up(rt, alloc, text, &pointer, workers))?);
        }
        ("whole_elements", []) => push_spans(
            out,
            &given(whole_elements(rt, alloc, text, workers))?,
        ),
        ("lines_of_values", []) => push_output(
            out,
            &given(lines_of_values(rt, alloc, text, workers))?,
        ),
        _ => return Err(LineFault::NoSuchCall),
    }
    Ok(())
}

fn push_led(out: &mut Out, led: LookUp) {
    match led {
        LookUp::Found(span) => push_span(out, span),
        LookUp::Lost(fault) => out.put(fault),
        LookUp::Refused(refusal) => push_verdict(out, Verdict::Refused(refusal)),
    }
}

fn push_spans(out: &mut Out, spans: &[Span]) {
    for span in spans {
        out.part(" ");
        push_span(out, *span);
    }
}
