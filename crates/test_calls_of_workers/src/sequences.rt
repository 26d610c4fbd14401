// The answers on text sequences.
use crate::cuttings::{Reading, cutting_at, readings};
use crate::elements::{told_of, told_of_answers};
use jx_answer::{index_sequence, index_sequence_with, judge_sequence};
use jx_crew::{Crew, OpenGate};
use jx_run::{FrontMark, NameRule, Settings};
use std::alloc::Global;
use std::sync::Wait;
use std::thread::Threads;
use test_words::{Line, LineFault, Ways};

/// `seq DEPTH SETTINGS CUTS TEXT`: the elements of a text sequence with their verdicts, by one, two and five workers, or by two at
/// several cuts.
pub fn seq<R: Threads + Wait + Sync>(line: &mut Line<'_>, rt: &R) {
    let depth = line.depth();
    let settings = line.settings(depth);
    let cuts = line.word();
    let text = line.text();
    let mut ways = Ways::new(line.alloc);
    for reading in &readings(line, cuts, text.len(), None) {
        let done = add_reading(&mut ways, rt, line.alloc, &text, reading, &settings);
        line.settle(done);
    }
    ways.push_to(&mut line.out);
}

/// The answers on a sequence that is read so.
fn add_reading<R: Threads + Wait + Sync>(
    ways: &mut Ways,
    rt: &R,
    alloc: Global,
    text: &[u8],
    reading: &Reading,
    settings: &Settings,
) -> Result<(), LineFault> {
    let cutting = cutting_at(alloc, text.len(), &reading.cuts)?;
    let (way, workers, gate) = (reading.way.as_str(), reading.workers, &OpenGate);
    let elements = index_sequence_with(rt, alloc, text, &cutting, workers, settings, gate);
    let elements = elements.ok().ok_or(LineFault::Memory)?;
    ways.add(way, told_of_answers(alloc, &elements)?);
    let crew = Crew {
        rt,
        alloc,
        workers,
        gate,
    };
    ways.add(
        way,
        told_of(alloc, &judge_sequence(&crew, text, &cutting, settings)?),
    );
    if settings.mark == FrontMark::Refused && settings.names == NameRule::Any {
        let elements = index_sequence(rt, alloc, text, &cutting, workers, settings.depth, gate);
        let elements = elements.ok().ok_or(LineFault::Memory)?;
        ways.add(way, told_of_answers(alloc, &elements)?);
    }
    Ok(())
}
