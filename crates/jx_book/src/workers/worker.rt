ghost use Rattle.std.specs.Prelude.{◌≡◌, ◌+◌, ◌<◌, List, length, true, false, IfOk, IfErr};
ghost use Rattle.jx_summary.specs.declared.span.Span.{Span};
ghost use Rattle.jx_book.specs.Spans.{Touch, span};
ghost use Rattle.jx_book.specs.Runs.{run_len};
ghost use Rattle.jx_book.specs.Worked.{hand_len, HandedOver, HasSpan, IsLeft, MayLeave, Within, Worked};

use crate::lock::book::Book;
use crate::lock::share::Share;
use crate::stored::held::{Held, HeldFault};
use crate::stored::state::Put;
use jx_claim::{ClaimSeat, Claims, Cutting};
use jx_crew::{Event, Gate, Go, PieceNo};
use jx_summary::{Depth, Summary};
use std::alloc::Global;
use std::sync::Wait;
use std::sync::ledger::Ledger;

/// A worker that handed over all that it drew, until no chunk was left.
#[derive(Drop)]
pub struct WorkerEnd<P: Ledger, T: Ledger> {
    pub seat: ClaimSeat,
    pub share: Share<P, T>,
}

/// Why a worker stopped.
#[derive(Clone, Copy, Debug, PartialEq, Eq)]
pub enum Cause {
    /// The gate said so.
    Gate,
    /// There was no memory to read, to join or to store.
    Memory,
    /// The accumulator had a run with a byte of the one in hand.
    Overlap,
    /// A neighbour was of another text or depth.
    Other,
    /// A total of the accumulator would have passed the greatest `u128`.
    Full,
}

/// The state of a stopped worker: nobody else has it.
#[derive(Drop)]
pub enum Hand<'a, S: Summary> {
    Nothing,
    /// A chunk that it drew and did not read.
    Piece(PieceNo),
    /// A run that was not put.
    One(Held<'a, S>),
    /// Two neighbours that were not joined, the left one first.
    Two(Held<'a, S>, Held<'a, S>),
}

/// A worker that stopped before its end, with what it held.
#[derive(Drop)]
pub struct WorkerStop<'a, S: Summary, P: Ledger, T: Ledger> {
    pub seat: ClaimSeat,
    pub share: Share<P, T>,
    pub hand: Hand<'a, S>,
    pub cause: Cause,
}

impl<'a, S: Summary, P: Ledger, T: Ledger> WorkerStop<'a, S, P, T> {
    /// A stopped worker with its worker handle, its share, what is in its hand and why it stopped.
    pub(crate) fn new(
        seat: ClaimSeat,
        share: Share<P, T>,
        hand: Hand<'a, S>,
        cause: Cause,
    ) -> WorkerStop<'a, S, P, T>
        ensures seat { result.seat ≡ seat }
        ensures share { result.share ≡ share }
        ensures hand { result.hand ≡ hand.entry }
        ensures cause { result.cause ≡ cause }
    {
        WorkerStop {
            seat,
            share,
            hand,
            cause,
        }
    }
}

/// A run that was not handed over.
#[derive(Drop)]
struct Unfinished<'a, S: Summary> {
    hand: Hand<'a, S>,
    cause: Cause,
}

impl<'a, S: Summary> Unfinished<'a, S> {
    /// The run that is left in the hand, and why it was not handed over.
    fn new(hand: Hand<'a, S>, cause: Cause) -> Unfinished<'a, S>
        ensures hand { result.hand ≡ hand.entry }
        ensures cause { result.cause ≡ cause }
    {
        Unfinished { hand, cause }
    }
}

/// Takes chunks until none is left; reads each and puts it into the accumulator, joined with each neighbour that it is
/// handed. The gate is asked after each step.
///
/// It waits for the accumulator's lock. A stopped worker hands back its worker handle, its share and what is in its
/// hand. That is the chunk that it drew last, unread, or runs that have all of it, or nothing. The numbers that its
/// worker handle got before stay.
pub fn work<'a, S: Summary, P: Ledger, T: Ledger, G: Gate, R: Wait>(
    rt: &R,
    alloc: Global,
    book: &Book<'a, S, P, T>,
    text: &'a [u8],
    cutting: &Cutting,
    claims: &Claims,
    seat: ClaimSeat,
    share: Share<P, T>,
    depth: Depth,
    gate: &G,
) -> Result<WorkerEnd<P, T>, WorkerStop<'a, S, P, T>>
    requires cutting { cutting.now.len ≡ length text.now }
    requires claims { claims.now.pieces ≡ length cutting.now.pieces }
    requires seat { seat.id ≡ claims.now.id }
    requires unspent { seat.spent ≡ false }
    ensures end { IfOk result (λ e. Worked cutting.now.pieces seat share e.seat e.share 0) }
    ensures spent { IfOk result (λ e. e.seat.spent ≡ true) }
    ensures stop { IfErr result (λ s. Worked cutting.now.pieces seat share s.seat s.share (hand_len cutting.now.pieces s.hand)) }
    ensures left { IfErr result (λ s. IsLeft cutting.now.pieces s.seat.got s.hand) }
    ensures drew { IfErr result (λ s. length seat.got < length s.seat.got) }
    ensures cause { IfErr result (λ s. MayLeave s.cause s.hand) }
{
    let mut seat = seat;
    let mut share = share;
    let worker = seat.number();
    for _ in rt.forever() {
        let Some(piece) = claims.draw(&mut seat) else {
            return Ok(WorkerEnd { seat, share });
        };
        if gate.pass(Event::Drew { worker, piece }) == Go::Stop {
            return Err(WorkerStop::new(seat, share, Hand::Piece(piece), Cause::Gate));
        }
        let span = cutting.piece(piece);
        let Ok(run) = Held::read(alloc, text, span.start, span.end, depth) else {
            return Err(WorkerStop::new(seat, share, Hand::Piece(piece), Cause::Memory));
        };
        if let Err(Unfinished { hand, cause }) = hand_over(
            rt, book, &mut share, run, worker, gate,
        ) {
            return Err(WorkerStop::new(seat, share, hand, cause));
        }
    }
    unreachable!()
}

/// Puts a run, joined with each neighbour that is handed over.
fn hand_over<'a, S: Summary, P: Ledger, T: Ledger, G: Gate, R: Wait>(
    rt: &R,
    book: &Book<'a, S, P, T>,
    share: &mut Share<P, T>,
    run: Held<'a, S>,
    worker: usize,
    gate: &G,
) -> Result<(), Unfinished<'a, S>>
    requires { run.span.start < run.span.end }
    ensures ok { IfOk result (λ _. HandedOver (run_len run.entry) share.old share.new 0) }
    ensures err { IfErr result (λ s. (ps : List Span) → HandedOver (run_len run.entry) share.old share.new (hand_len ps s.hand)) }
    ensures hand { IfErr result (λ s. HasSpan run.entry.span s.hand) }
    ensures cause { IfErr result (λ s. MayLeave s.cause s.hand) }
{
    let mut run = run;
    loop {
        match book.put(rt, share, run) {
            Put::Stored => {
                if gate.pass(Event::Stored { worker }) == Go::Stop {
                    return Err(Unfinished::new(Hand::Nothing, Cause::Gate));
                }
                return Ok(());
            }
            Put::Touches(mine, neighbour) => {
                let (left, right) = in_order(mine, neighbour);
                if gate.pass(Event::Took { worker }) == Go::Stop {
                    return Err(Unfinished::new(Hand::Two(left, right), Cause::Gate));
                }
                run = join_both(left, right)?;
            }
            Put::Overlaps(mine) => return Err(Unfinished::new(Hand::One(mine), Cause::Overlap)),
            Put::Full(mine) => return Err(Unfinished::new(Hand::One(mine), Cause::Full)),
            Put::Memory(mine) => return Err(Unfinished::new(Hand::One(mine), Cause::Memory)),
        }
    }
}

/// Two neighbours, the left one first.
fn in_order<'a, S: Summary>(run: Held<'a, S>, other: Held<'a, S>) -> (Held<'a, S>, Held<'a, S>)
    requires touch { Touch other.span run.span }
    requires filled { (run.span.start < run.span.end) × (other.span.start < other.span.end) }
    ensures neighbours { result.0.span.end ≡ result.1.span.start }
    ensures filled { (result.0.span.start < result.0.span.end) × (result.1.span.start < result.1.span.end) }
    ensures len { run_len result.0 + run_len result.1 ≡ run_len run.entry + run_len other.entry }
    ensures within { Within run.entry.span (span result.0.span.start result.1.span.end) }
{
    if run.span().start < other.span().start {
        (run, other)
    } else {
        (other, run)
    }
}

/// Two neighbours as one, or both in the hand.
fn join_both<'a, S: Summary>(
    left: Held<'a, S>,
    right: Held<'a, S>,
) -> Result<Held<'a, S>, Unfinished<'a, S>>
    requires neighbours { left.span.end ≡ right.span.start }
    requires filled { (left.span.start < left.span.end) × (right.span.start < right.span.end) }
    ensures filled { IfOk result (λ h. h.span.start < h.span.end) }
    ensures len { IfOk result (λ h. run_len h ≡ run_len left.entry + run_len right.entry) }
    ensures span { IfOk result (λ h. h.span ≡ span left.entry.span.start right.entry.span.end) }
    ensures hand { IfErr result (λ s. s.hand ≡ Hand.Two left.entry right.entry) }
    ensures cause { IfErr result (λ s. MayLeave s.cause s.hand) }
{
    match left.join(right) {
        Ok(joined) => Ok(joined),
        Err(HeldFault::Memory(left, right)) => {
            Err(Unfinished::new(Hand::Two(left, right), Cause::Memory))
        }
        Err(HeldFault::Other(left, right)) => {
            Err(Unfinished::new(Hand::Two(left, right), Cause::Other))
        }
    }
}
