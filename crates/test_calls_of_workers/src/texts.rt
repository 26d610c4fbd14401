// The answers on texts.
use crate::cuttings::{Reading, cutting_at, readings};
use jx_answer::{TextAnswer, index_text, index_text_with, verdict_of_text};
use jx_book::read_whole;
use jx_crew::{Crew, OpenGate};
use jx_run::{FrontMark, NameRule, Settings, TextRun, Verdict};
use std::alloc::Global;
use std::sync::Wait;
use std::thread::Threads;
use test_words::{Line, LineFault, Out, Ways, push_rows, push_verdict};

/// The answers to texts in several ways: verdicts in some, and rows in others.
#[derive(Drop)]
struct TextWays {
    alloc: Global,
    verdicts: Ways,
    rows: Ways,
}

impl TextWays {
    fn new(alloc: Global) -> TextWays {
        TextWays {
            alloc,
            verdicts: Ways::new(alloc),
            rows: Ways::new(alloc),
        }
    }

    fn add_verdict(&mut self, way: &str, verdict: Verdict) {
        let mut told = Out::new(self.alloc);
        push_verdict(&mut told, verdict);
        self.verdicts.add(way, told);
    }

    fn add_answer(&mut self, way: &str, answer: TextAnswer<'_>) {
        let mut told = Out::new(self.alloc);
        if let TextAnswer::Accepted(index) = &answer {
            push_rows(&mut told, index.rows());
        }
        self.rows.add(way, told);
        self.add_verdict(way, answer.into_verdict());
    }
}

/// `text DEPTH SETTINGS CUTS TEXT`: the verdict on a text and its rows, by one, two and five workers, or by two at several cuts.
pub fn text<R: Threads + Wait + Sync>(line: &mut Line<'_>, rt: &R) {
    let depth = line.depth();
    let settings = line.settings(depth);
    let cuts = line.word();
    let text = line.text();
    let mut ways = TextWays::new(line.alloc);
    for reading in &readings(line, cuts, text.len(), None) {
        let done = add_reading(&mut ways, rt, line.alloc, &text, reading, &settings);
        line.settle(done);
    }
    ways.verdicts.push_to(&mut line.out);
    ways.rows.push_to(&mut line.out);
}

/// The answers on a text that is read so.
fn add_reading<R: Threads + Wait + Sync>(
    ways: &mut TextWays,
    rt: &R,
    alloc: Global,
    text: &[u8],
    reading: &Reading,
    settings: &Settings,
) -> Result<(), LineFault> {
    let cutting = cutting_at(alloc, text.len(), &reading.cuts)?;
    let (way, workers, gate) = (reading.way.as_str(), reading.workers, &OpenGate);
    let answer = index_text_with(rt, alloc, text, &cutting, workers, settings, gate);
    ways.add_answer(way, answer.ok().ok_or(LineFault::Memory)?);
    let crew = Crew {
        rt,
        alloc,
        workers,
        gate,
    };
    ways.add_verdict(way, verdict_of_text(&crew, text, &cutting, settings)?);
    if settings.mark == FrontMark::Refused && settings.names == NameRule::Any {
        let answer = index_text(rt, alloc, text, &cutting, workers, settings.depth, gate);
        ways.add_answer(way, answer.ok().ok_or(LineFault::Memory)?);
        let run = read_whole::<TextRun, R, OpenGate>(&crew, text, &cutting, settings.depth)?;
        ways.add_verdict(way, run.run().verdict());
    }
    Ok(())
}
