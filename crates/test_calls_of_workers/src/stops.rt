// Where a worker stops, and what it holds then.
ghost use Rattle.std.specs.Prelude.{◌≡◌, length, IfOk};

use crate::cuttings::workers_of;
use crate::gates::{StopOn, next_gate};
use crate::holding::{Ended, push_ended, stop_of};
use jx_book::{Book, Held, Share};
use jx_claim::{Claims, Cutting};
use jx_crew::Workers;
use jx_lex::{Depth, Span};
use jx_run::Summary;
use std::alloc::{AllocError, Global};
use std::marker::Brand;
use std::sync::Wait;
use std::sync::ledger::{Blank, Ledger};
use test_words::{Line, LineFault};

/// A run of another text that is in the accumulator before; an empty span stands for no run.
#[derive(Drop)]
struct Before {
    text: Vec<u8>,
    span: Span,
    depth: Depth,
}

/// `[TEXT S..E DEPTH]`
fn next_before(line: &mut Line<'_>) -> Before {
    if line.count() == 0 {
        return Before {
            text: Vec::new(line.alloc),
            span: Span { start: 0, end: 0 },
            depth: Depth::default(),
        };
    }
    let text = line.text();
    let span = line.span(text.len());
    let depth = line.depth();
    Before { text, span, depth }
}

/// `work SIZE SEATS GATE TEXT [TEXT S..E DEPTH]`: why the worker of the last worker handle stops, which alone reads the first text in
/// chunks of SIZE bytes, and what it holds then. A run of the other text stands in the accumulator before.
pub fn work<S: Summary, R: Wait>(line: &mut Line<'_>, rt: &R) {
    let size = line.number();
    let seats = line.number();
    let gate = next_gate(line);
    let text = line.text();
    let before = next_before(line);
    let ended = worked::<S, R>(rt, line.alloc, &text, size, &before, gate, seats);
    if let Some(ended) = line.keep(ended) {
        push_ended(&mut line.out, ended);
    }
}

/// How the worker of the last of so many worker handles ends, over chunks of so many bytes.
fn worked<S: Summary, R: Wait>(
    rt: &R,
    alloc: Global,
    text: &[u8],
    size: usize,
    before: &Before,
    gate: StopOn,
    seats: usize,
) -> Result<Ended, LineFault> {
    let workers = workers_of(seats)?;
    let cutting = pieces_of(text.len(), size)?;
    let put = Blank::new(u64::from(workers.count()));
    let taken = Blank::new(u64::from(workers.count()));
    let ended = alone::<S, Brand, Brand, R>(
        rt, alloc, text, &cutting, before, gate, put, taken, workers,
    )?;
    Ok(ended)
}

/// A text of so many bytes in chunks of that many.
fn pieces_of(len: usize, size: usize) -> Result<Cutting, LineFault>
    ensures { IfOk result (λ cutting. cutting.len ≡ len) }
{
    if size == 0 {
        return Err(LineFault::NoSuchCall);
    }
    Cutting::every(len, size).ok().ok_or(LineFault::NoSuchCall)
}

/// The same, with the `Blank`s of an accumulator's ledgers.
fn alone<S: Summary, P: Ledger, T: Ledger, R: Wait>(
    rt: &R,
    alloc: Global,
    text: &[u8],
    cutting: &Cutting,
    before: &Before,
    gate: StopOn,
    put: Blank,
    taken: Blank,
    workers: Workers,
) -> Result<Ended, AllocError>
    requires cutting { cutting.now.len ≡ length text.now }
    requires put { (put.name ≡ P.name) × (put.parts ≡ P.parts) × (put.parts ≡ workers) }
    requires taken { (taken.name ≡ T.name) × (taken.parts ≡ T.parts) × (taken.parts ≡ workers) }
{
    let (book, mut shares) = Book::<S, P, T>::open(alloc, put, taken, workers)?;
    let (claims, mut seats) = Claims::open(alloc, cutting.count(), workers)?;
    let mut share = shares.pop().ok_or(AllocError)?;
    let seat = seats.pop().ok_or(AllocError)?;
    put_before(rt, alloc, &book, &mut share, before)?;
    let depth = Depth::default();
    match jx_book::work(
        rt, alloc, &book, text, cutting, &claims, seat, share, depth, &gate,
    ) {
        Ok(_) => Ok(Ended::Whole),
        Err(stop) => Ok(stop_of(&stop)),
    }
}

/// Puts what stands in the accumulator before.
fn put_before<'a, S: Summary, P: Ledger, T: Ledger, R: Wait>(
    rt: &R,
    alloc: Global,
    book: &Book<'a, S, P, T>,
    share: &mut Share<P, T>,
    before: &'a Before,
) -> Result<(), AllocError> {
    let Span { start, end } = before.span;
    if start < end && end <= before.text.len() {
        let run = Held::read(alloc, &before.text, start, end, before.depth)?;
        book.put(rt, share, run);
    }
    Ok(())
}
