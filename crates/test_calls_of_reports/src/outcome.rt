// The outcome of a report.
use crate::reader::{Giver, Giving};
use crate::writer::{Taker, Taking};
use jx_crew::{Event, Gate, Go};
use jx_ends::{End, Exit, ReportFault, Sink, Source};
use jx_report::{report, report_in_batches};
use jx_task::Command;
use std::alloc::Global;
use std::sync::Wait;
use std::thread::Threads;
use test_words::Out;

/// Lets every worker go on. Since it may be asked, short inputs have workers too.
#[derive(Clone, Copy)]
struct Passing;

impl Gate for Passing {
    fn pass(&self, _event: Event) -> Go {
        Go::On
    }
}

/// The answer of a report, what it wrote, and which of its ends has failed.
#[derive(Drop)]
pub struct Outcome {
    pub answer: Result<Exit, ReportFault>,
    pub output: Vec<u8>,
    /// Whether all of the input was read.
    pub is_read: bool,
    pub reader_failed: bool,
    pub writer_failed: bool,
}

/// The outcome of a report with such a reader and writer, which reads so many bytes at a time if given. There is none for a chunk or a
/// batch of no bytes, and for a batch of more than 4 GiB.
pub fn outcome_of<R: Threads + Wait + Sync>(
    rt: &R,
    alloc: Global,
    command: &Command,
    text: &[u8],
    giving: Giving,
    taking: Taking,
    batch: Option<usize>,
) -> Option<Outcome> {
    if command.piece == 0 {
        return None;
    }
    let mut reader = End::new(Giver::new(text, giving));
    let mut writer = End::new(Taker::new(alloc, taking));
    let (from, to) = (&mut reader, &mut writer);
    let answer = match batch {
        None => report(rt, alloc, from, to, command, &Passing),
        Some(batch) if 1 <= batch && batch <= 4_294_967_295 => {
            report_in_batches(rt, alloc, from, to, command, &Passing, batch)
        }
        Some(_) => return None,
    };
    let writer_failed = writer.failed();
    let End { inner, .. } = writer;
    let Taker { taken, .. } = inner;
    Some(Outcome {
        answer,
        output: taken,
        is_read: reader.inner.is_at_end(),
        reader_failed: reader.failed(),
        writer_failed,
    })
}

/// An output that is longer is written as its length.
const LONG: usize = 32768;

/// Appends the output, with `|` for a line feed, or `-` for nothing.
pub fn push_output(out: &mut Out, output: &[u8]) {
    match output.len() {
        0 => out.push_str("-"),
        count if count > LONG => out.put(format_args!("{count} bytes")),
        _ => push_lines(out, output),
    }
}

fn push_lines(out: &mut Out, output: &[u8]) {
    for byte in output {
        match byte {
            b'\n' => out.push_str("|"),
            _ => out.put(char::from(*byte)),
        }
    }
}

fn answer_word(answer: Result<Exit, ReportFault>) -> &'static str {
    match answer {
        Ok(Exit::Good) => "good: ",
        Ok(Exit::Bad) => "bad: ",
        Err(ReportFault::Read) => "read failed: ",
        Err(ReportFault::Write) => "write failed: ",
        Err(ReportFault::Memory) => "out of memory: ",
        Err(ReportFault::Pieces) => "too many pieces: ",
    }
}

/// Whether the reader and the writer have failed as the answer says, and all of the input was read unless the reader failed.
fn is_told(outcome: &Outcome) -> bool {
    outcome.reader_failed == (outcome.answer == Err(ReportFault::Read))
        && outcome.writer_failed == (outcome.answer == Err(ReportFault::Write))
        && (outcome.is_read || outcome.reader_failed)
}

/// The exit or the fault, and what was written.
pub fn push_outcome(out: &mut Out, outcome: &Outcome) {
    if !is_told(outcome) {
        out.push_str("not as its ends tell: ");
    }
    out.push_str(answer_word(outcome.answer));
    push_output(out, &outcome.output);
}
