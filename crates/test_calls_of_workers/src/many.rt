// More pointers than a list of pointers has chunks.
use crate::cuttings::{cutting_at, workers_of};
use crate::found::found_at;
use jx_answer::{TextAnswer, find_all, index_text};
use jx_crew::OpenGate;
use jx_index::{Indexed, Pointer};
use jx_lex::Depth;
use std::alloc::{AllocError, Global};
use std::sync::Wait;
use std::thread::Threads;
use test_words::{Line, LineFault};

/// `many COUNT TEXT POINTER`: how many of so many pointers that are all alike five workers answer as one is answered alone.
pub fn many<R: Threads + Wait + Sync>(line: &mut Line<'_>, rt: &R) {
    let count = line.number();
    let text = line.text();
    let spelt = line.word();
    let alike = answered_alike(rt, line.alloc, count, &text, spelt);
    if let Some(alike) = line.keep(alike) {
        line.out.put(alike);
    }
}

fn answered_alike<R: Threads + Wait + Sync>(
    rt: &R,
    alloc: Global,
    count: usize,
    text: &[u8],
    spelt: &str,
) -> Result<usize, LineFault> {
    let cutting = cutting_at(alloc, text.len(), &[])?;
    let (workers, depth) = (workers_of(5)?, Depth::default());
    match index_text(rt, alloc, text, &cutting, workers, depth, &OpenGate) {
        Ok(TextAnswer::Accepted(index)) => found_alike(rt, alloc, count, &index, spelt),
        Ok(TextAnswer::Refused(_)) => Err(LineFault::NoSuchCall),
        Err(_) => Err(LineFault::Memory),
    }
}

/// How many of the answers are that of one pointer alone.
fn found_alike<R: Threads + Wait + Sync>(
    rt: &R,
    alloc: Global,
    count: usize,
    index: &Indexed,
    spelt: &str,
) -> Result<usize, LineFault> {
    let pointer = Pointer::read(spelt).ok().ok_or(LineFault::NoSuchCall)?;
    let alone = found_at(index, index.find(&pointer));
    let pointers = copies(alloc, count, spelt)?;
    let answers = find_all(rt, alloc, index, &pointers, workers_of(5)?, &OpenGate);
    let answers = answers.ok().ok_or(LineFault::Memory)?;
    Ok(answers.iter().filter(|answer| **answer == alone).count())
}

/// So many copies of a pointer.
fn copies(alloc: Global, count: usize, spelt: &str) -> Result<Vec<Pointer<'_>>, AllocError> {
    let mut pointers = Vec::new(alloc);
    for _ in 0..count {
        if let Ok(pointer) = Pointer::read(spelt) {
            pointers.push(pointer)?;
        }
    }
    Ok(pointers)
}
