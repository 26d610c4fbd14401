// The answers to puts into an accumulator, and what is left in it.
ghost use Rattle.std.specs.Prelude.{◌≡◌, ◌<◌, IfOk};

use crate::copied::Copied;
use crate::runs::{filled, push_runs, read};
use jx_book::{Book, BookState, Closed, FinishFault, Held, Put, Share};
use jx_crew::Workers;
use jx_lex::{Depth, Span};
use std::alloc::Global;
use std::marker::Brand;
use std::sync::Wait;
use std::sync::ledger::{Blank, Ledger};
use test_words::{Line, LineFault, Out, Ways, push_span, span_within};

/// The run that is put: of a part, or what the last put handed back, joined.
#[derive(Clone, Copy)]
enum Step {
    Read(Span),
    Joined,
}

/// `S..E` and `joined`, with commas between.
fn steps_of(alloc: Global, word: &str, len: usize) -> Result<Vec<Step>, LineFault> {
    let mut steps = Vec::new(alloc);
    for part in word.split(',') {
        if part == "joined" {
            steps.push(Step::Joined)?;
        } else {
            steps.push(Step::Read(span_within(part, len)?))?;
        }
    }
    Ok(steps)
}

fn next_steps(line: &mut Line<'_>, len: usize) -> Vec<Step> {
    let steps = steps_of(line.alloc, line.word(), len);
    line.read_or(steps, Vec::new(line.alloc))
}

/// The runs that are put into an accumulator, and the answers then.
#[derive(Clone, Copy)]
struct Asked<'a> {
    text: &'a [u8],
    depth: Depth,
    steps: &'a [Step],
    /// The text with which the accumulator is finished.
    other: &'a [u8],
    other_depth: Depth,
    /// Whose gaps are listed.
    part: Span,
}

/// `puts TEXT SPANS S..E`: what puts are answered by the state of an accumulator and by an accumulator that threads share, how many bytes
/// were put and taken out, which runs stand there then, and the gaps that these leave in a part, which may go on after the text.
pub fn puts<R: Wait>(line: &mut Line<'_>, rt: &R) {
    let text = line.text();
    let steps = next_steps(line, text.len());
    let asked = Asked {
        text: &text,
        depth: Depth::default(),
        steps: &steps,
        other: &text,
        other_depth: Depth::default(),
        part: line.span(usize::MAX),
    };
    let told = push_puts(&mut line.out, rt, line.alloc, &asked);
    line.settle(told);
}

fn push_puts<R: Wait>(
    out: &mut Out,
    rt: &R,
    alloc: Global,
    asked: &Asked<'_>,
) -> Result<(), LineFault> {
    let mut ways = Ways::new(alloc);
    ways.add("state", put_on_state(alloc, asked)?);
    let PutOnBook { put, gaps } = put_on_book(rt, alloc, asked)?;
    ways.add("book", put);
    ways.push_to(out);
    out.push_str("; ");
    out.push(&gaps);
    Ok(())
}

/// `finish TEXT DEPTH SPANS TEXT DEPTH S..E`: puts the runs of the spans in the one text, finishes the accumulator with the other, and
/// lists the gaps of a part, or says that a run is of another text or depth.
pub fn finish<R: Wait>(line: &mut Line<'_>, rt: &R) {
    let text = line.text();
    let depth = line.depth();
    let steps = next_steps(line, text.len());
    let other = line.text();
    let asked = Asked {
        text: &text,
        depth,
        steps: &steps,
        other: &other,
        other_depth: line.depth(),
        part: line.span(usize::MAX),
    };
    let put = put_on_book(rt, line.alloc, &asked);
    if let Some(put) = line.keep(put) {
        line.out.push(&put.gaps);
    }
}

/// The run that a step puts.
fn next_run<'a>(
    alloc: Global,
    asked: &Asked<'a>,
    step: Step,
    back: Option<Held<'a, Copied>>,
) -> Result<Held<'a, Copied>, LineFault>
    ensures { IfOk result (λ run. run.span.start < run.span.end) }
{
    match (step, back) {
        (Step::Read(span), _) => read(alloc, asked.text, span, asked.depth),
        (Step::Joined, Some(run)) => filled(run).ok_or(LineFault::NoSuchCall),
        (Step::Joined, None) => Err(LineFault::NoSuchCall),
    }
}

/// The run that came back from a put and the neighbour that it touches, as one.
fn joined<'a>(put: Put<'a, Copied>) -> Option<Held<'a, Copied>> {
    let Put::Touches(run, neighbour) = put else {
        return None;
    };
    if neighbour.span().end == run.span().start {
        return neighbour.join(run).ok();
    }
    if run.span().end == neighbour.span().start {
        return run.join(neighbour).ok();
    }
    None
}

fn push_put(out: &mut Out, put: &Put<'_, Copied>) {
    match put {
        Put::Overlaps(_) => out.push_str("overlaps, "),
        Put::Full(_) => out.push_str("full, "),
        Put::Memory(_) => out.push_str("memory, "),
        Put::Stored => out.push_str("stored, "),
        Put::Touches(_, neighbour) => {
            out.push_str("touches ");
            push_span(out, neighbour.span());
            out.push_str(", ");
        }
    }
}

/// The answers of the state of an accumulator.
fn put_on_state(alloc: Global, asked: &Asked<'_>) -> Result<Out, LineFault> {
    let mut out = Out::new(alloc);
    let mut state = BookState::new(alloc);
    let mut back = None;
    for step in asked.steps {
        let run = next_run(alloc, asked, *step, back.take())?;
        let put = state.put(run);
        push_put(&mut out, &put);
        back = joined(put);
    }
    push_totals(&mut out, state.total_put(), state.total_taken());
    push_runs(&mut out, state.runs());
    Ok(out)
}

fn push_totals(out: &mut Out, put: u128, taken: u128) {
    out.put(format_args!("put {put}, taken {taken}; runs "));
}

/// The answers of an accumulator that threads share, and the gaps of a part then, or that a run is of another text or depth.
#[derive(Drop)]
struct PutOnBook {
    put: Out,
    gaps: Out,
}

fn put_on_book<R: Wait>(rt: &R, alloc: Global, asked: &Asked<'_>) -> Result<PutOnBook, LineFault> {
    let workers = Workers::new(1).ok_or(LineFault::NoSuchCall)?;
    let (put, taken) = (Blank::new(1), Blank::new(1));
    shared::<Brand, Brand, R>(rt, alloc, asked, put, taken, workers)
}

/// The same, with the `Blank`s of an accumulator's ledgers.
fn shared<P: Ledger, T: Ledger, R: Wait>(
    rt: &R,
    alloc: Global,
    asked: &Asked<'_>,
    put: Blank,
    taken: Blank,
    workers: Workers,
) -> Result<PutOnBook, LineFault>
    requires workers { workers ≡ 1 }
    requires put { (put.name ≡ P.name) × (put.parts ≡ P.parts) × (put.parts ≡ 1) }
    requires taken { (taken.name ≡ T.name) × (taken.parts ≡ T.parts) × (taken.parts ≡ 1) }
{
    let (book, mut shares) = Book::<Copied, P, T>::open(alloc, put, taken, workers)?;
    let mut share = shares.pop().ok_or(LineFault::Memory)?;
    let (mut put, mut gaps) = (Out::new(alloc), Out::new(alloc));
    put_all(&mut put, rt, alloc, &book, &mut share, asked)?;
    push_totals(&mut put, share.total_put(), share.total_taken());
    shares.push(share)?;
    match book.finish(asked.other, asked.other_depth, shares) {
        Ok(closed) => {
            push_runs(&mut put, closed.runs());
            push_gaps(&mut gaps, &closed, asked.part);
        }
        Err(FinishFault::Other(_)) => gaps.push_str("other"),
    }
    Ok(PutOnBook { put, gaps })
}

/// Puts a run for each step, and returns what was answered.
fn put_all<'a, P: Ledger, T: Ledger, R: Wait>(
    out: &mut Out,
    rt: &R,
    alloc: Global,
    book: &Book<'a, Copied, P, T>,
    share: &mut Share<P, T>,
    asked: &Asked<'a>,
) -> Result<(), LineFault> {
    let mut back = None;
    for step in asked.steps {
        let run = next_run(alloc, asked, *step, back.take())?;
        let put = book.put(rt, share, run);
        push_put(out, &put);
        back = joined(put);
    }
    Ok(())
}

/// The parts of a span without a run, or `-` for none.
fn push_gaps(out: &mut Out, closed: &Closed<'_, Copied>, part: Span) {
    out.push_str("gaps ");
    let mut count = 0usize;
    for gap in closed.gaps(part) {
        if count > 0 {
            out.push_str(",");
        }
        push_span(out, gap);
        count = count.saturating_add(1);
    }
    if count == 0 {
        out.push_str("-");
    }
}
