// The answers to lists of pointers.
use crate::cuttings::{Reading, cutting_at, readings, workers_of};
use crate::found::{found_at, told_of};
use crate::gates::StopOn;
use jx_answer::{TextAnswer, find_all, index_text_with};
use jx_crew::OpenGate;
use jx_index::{Indexed, Pointer};
use jx_lex::Depth;
use jx_run::{Settings, Verdict};
use std::alloc::{AllocError, Global};
use std::sync::Wait;
use std::thread::Threads;
use test_words::{Line, LineFault, Out, Ways, push_verdict};

/// `all SETTINGS CUTS TEXT POINTER..`: what the pointers lead to, each alone, and all together by one, two and five workers,
/// whom a gate lets go on or stops at each step. The index is read by five workers.
pub fn all<R: Threads + Wait + Sync>(line: &mut Line<'_>, rt: &R) {
    let settings = line.settings(Depth::default());
    let cuts = line.word();
    let text = line.text();
    let spelt = line.texts();
    let pointers = pointers_of(line.alloc, &spelt);
    let pointers = line.read_or(pointers, Vec::new(line.alloc));
    let mut ways = Ways::new(line.alloc);
    for reading in &readings(line, cuts, text.len(), Some(5)) {
        let done = add_reading(
            &mut ways, rt, line.alloc, &text, reading, &settings, &pointers,
        );
        line.settle(done);
    }
    ways.push_to(&mut line.out);
}

fn pointers_of(alloc: Global, spelt: &[String]) -> Result<Vec<Pointer<'_>>, LineFault> {
    let mut pointers = Vec::new(alloc);
    for text in spelt {
        match Pointer::read(text.as_str()) {
            Ok(pointer) => pointers.push(pointer)?,
            Err(_) => return Err(LineFault::NoSuchCall),
        }
    }
    Ok(pointers)
}

/// The answers in the index of a text that is read so.
fn add_reading<R: Threads + Wait + Sync>(
    ways: &mut Ways,
    rt: &R,
    alloc: Global,
    text: &[u8],
    reading: &Reading,
    settings: &Settings,
    pointers: &[Pointer],
) -> Result<(), LineFault> {
    let cutting = cutting_at(alloc, text.len(), &reading.cuts)?;
    let (way, workers) = (reading.way.as_str(), reading.workers);
    match index_text_with(rt, alloc, text, &cutting, workers, settings, &OpenGate) {
        Ok(TextAnswer::Accepted(index)) => add_index(ways, rt, alloc, way, &index, pointers),
        Ok(TextAnswer::Refused(refusal)) => {
            let mut told = Out::new(alloc);
            push_verdict(&mut told, Verdict::Refused(refusal));
            ways.add(way, told);
            Ok(())
        }
        Err(_) => Err(LineFault::Memory),
    }
}

/// The answers in an index.
fn add_index<R: Threads + Wait + Sync>(
    ways: &mut Ways,
    rt: &R,
    alloc: Global,
    way: &str,
    index: &Indexed,
    pointers: &[Pointer],
) -> Result<(), LineFault> {
    ways.add(way, found_alone(alloc, index, pointers)?);
    for count in &[1, 2, 5] {
        for gate in &[StopOn::Nothing, StopOn::Everything] {
            let told = found_by(rt, alloc, index, pointers, *count, *gate)?;
            ways.add(way, told);
        }
    }
    Ok(())
}

/// The answer to each pointer alone.
fn found_alone(alloc: Global, index: &Indexed, pointers: &[Pointer]) -> Result<Out, AllocError> {
    let mut answers = Vec::new(alloc);
    for pointer in pointers {
        answers.push(found_at(index, index.find(pointer)))?;
    }
    Ok(told_of(alloc, index, &answers))
}

/// The answers to the pointers, by so many workers.
fn found_by<R: Threads + Wait + Sync>(
    rt: &R,
    alloc: Global,
    index: &Indexed,
    pointers: &[Pointer],
    count: usize,
    gate: StopOn,
) -> Result<Out, LineFault> {
    let answers = find_all(rt, alloc, index, pointers, workers_of(count)?, &gate);
    Ok(told_of(alloc, index, &answers.ok().ok_or(LineFault::Memory)?))
}
