ghost use Rattle.std.specs.Prelude.{◌≡◌, length, All, IfOk, IfSome};
ghost use Rattle.jx_run.specs.Verdict.{Judged};
ghost use Rattle.jx_book.specs.Gathered.{IsWhole};
ghost use Rattle.jx_book.specs.Shares.{share};
ghost use Rattle.test_examples.specs.inside.Ended.{AreNew, HasEnded, IsNewSeat};

use crate::example_fault::ExampleFault;
use jx_book::{Book, Held, Share, WorkerEnd, gather, work};
use jx_claim::{ClaimSeat, Claims, Cutting};
use jx_crew::{OpenGate, Workers};
use jx_lex::Depth;
use jx_run::{OutcomeRun, Verdict};
use std::alloc::Global;
use std::marker::Brand;
use std::sync::Wait;
use std::sync::ledger::{Blank, Ledger};
use std::thread;
use std::thread::Threads;

/// The values with which a worker begins.
#[derive(Drop)]
struct Hands<P: Ledger, T: Ledger> {
    seat: ClaimSeat,
    share: Share<P, T>,
}

/// Whether bytes are a JSON text, as `check` reports it, read by two workers on threads that the caller makes.
pub fn check_on_own_threads<R: Threads + Wait + Sync>(
    rt: &R,
    alloc: Global,
    text: &[u8],
) -> Result<Verdict, ExampleFault>
    ensures { IfOk result (Judged 0 text.now 512) }
{
    let put = Blank::new(2);
    let taken = Blank::new(2);
    check_by_two::<Brand, Brand, R>(rt, alloc, text, put, taken)
}

/// The verdict on a text by two workers on threads of their own, with the `Blank`s of an accumulator's ledgers.
fn check_by_two<P: Ledger + Send + Sync, T: Ledger + Send + Sync, R: Threads + Wait + Sync>(
    rt: &R,
    alloc: Global,
    text: &[u8],
    put: Blank,
    taken: Blank,
) -> Result<Verdict, ExampleFault>
    requires put { (put.name ≡ P.name) × (put.parts ≡ P.parts) × (put.parts ≡ 2) }
    requires taken { (taken.name ≡ T.name) × (taken.parts ≡ T.parts) × (taken.parts ≡ 2) }
    ensures { IfOk result (Judged 0 text.now 512) }
{
    let workers = Workers::new(2).ok_or(ExampleFault::Stopped)?;
    let depth = Depth::default();
    let cutting = Cutting::every(text.len(), 65536)?;
    let (book, mut shares) = Book::<OutcomeRun, P, T>::open(alloc, put, taken, workers)?;
    let (claims, mut seats) = Claims::open(alloc, cutting.count(), workers)?;
    let first = next_of(&claims, &mut seats, &mut shares).ok_or(ExampleFault::Stopped)?;
    let second = next_of(&claims, &mut seats, &mut shares).ok_or(ExampleFault::Stopped)?;
    let (first, second) = both_work(rt, alloc, &book, text, &cutting, &claims, first, second);
    let (first, second) = (first?, second?);
    let seats = Vec::from_array(alloc, [first.seat, second.seat])?;
    let shares = Vec::from_array(alloc, [first.share, second.share])?;
    match gather(book, claims, text, &cutting, depth, seats, shares) {
        Ok(Some(run)) => Ok(verdict_of(text, &run)),
        Ok(None) => {
            let run = Held::read(alloc, text, 0, text.len(), depth)?;
            Ok(verdict_of(text, &run))
        }
        Err(_) => Err(ExampleFault::Stopped),
    }
}

/// The verdict of the run over the whole text.
fn verdict_of(text: &[u8], run: &Held<'_, OutcomeRun>) -> Verdict
    requires { IsWhole text.now 512 run.now }
    ensures { Judged 0 text.now 512 result }
{
    run.run().verdict()
}

/// A worker handle and a share of those that are left.
fn next_of<P: Ledger, T: Ledger>(
    claims: &Claims,
    seats: &mut Vec<ClaimSeat>,
    shares: &mut Vec<Share<P, T>>,
) -> Option<Hands<P, T>>
    requires seats { All (λ s. IsNewSeat claims.now.id s) seats.old.items }
    requires shares { All (λ s. s ≡ share 0 0) shares.old.items }
    ensures hands { IfSome result (λ h. AreNew claims.now.id h) }
    ensures seats { All (λ s. IsNewSeat claims.now.id s) seats.new.items }
    ensures shares { All (λ s. s ≡ share 0 0) shares.new.items }
{
    let seat = seats.pop()?;
    let share = shares.pop()?;
    Some(Hands { seat, share })
}

/// Lets two workers read, each on a thread of its own.
fn both_work<'a, P: Ledger + Send + Sync, T: Ledger + Send + Sync, R: Threads + Wait + Sync>(
    rt: &R,
    alloc: Global,
    book: &Book<'a, OutcomeRun, P, T>,
    text: &'a [u8],
    cutting: &Cutting,
    claims: &Claims,
    first: Hands<P, T>,
    second: Hands<P, T>,
) -> (
    Result<WorkerEnd<P, T>, ExampleFault>,
    Result<WorkerEnd<P, T>, ExampleFault>,
)
    requires cutting { cutting.now.len ≡ length text.now }
    requires claims { claims.now.pieces ≡ length cutting.now.pieces }
    requires hands { AreNew claims.now.id first × AreNew claims.now.id second }
    ensures first { IfOk result.0 (λ e. HasEnded cutting.now.pieces claims.now.id e) }
    ensures second { IfOk result.1 (λ e. HasEnded cutting.now.pieces claims.now.id e) }
{
    thread::join(
        rt,
        move || -> Result<WorkerEnd<P, T>, ExampleFault>
            requires { (cutting.now.len ≡ length text.now) × (claims.now.pieces ≡ length cutting.now.pieces) × AreNew claims.now.id first }
            ensures { IfOk result (λ e. HasEnded cutting.entry.now.pieces claims.entry.now.id e) }
        { work_to_the_end(rt, alloc, book, text, cutting, claims, first) },
        move || -> Result<WorkerEnd<P, T>, ExampleFault>
            requires { (cutting.now.len ≡ length text.now) × (claims.now.pieces ≡ length cutting.now.pieces) × AreNew claims.now.id second }
            ensures { IfOk result (λ e. HasEnded cutting.entry.now.pieces claims.entry.now.id e) }
        { work_to_the_end(rt, alloc, book, text, cutting, claims, second) },
    )
}

/// Lets one worker read until no chunk is left.
fn work_to_the_end<'a, P: Ledger, T: Ledger, R: Wait>(
    rt: &R,
    alloc: Global,
    book: &Book<'a, OutcomeRun, P, T>,
    text: &'a [u8],
    cutting: &Cutting,
    claims: &Claims,
    hands: Hands<P, T>,
) -> Result<WorkerEnd<P, T>, ExampleFault>
    requires cutting { cutting.now.len ≡ length text.now }
    requires claims { claims.now.pieces ≡ length cutting.now.pieces }
    requires hands { AreNew claims.now.id hands }
    ensures { IfOk result (λ e. HasEnded cutting.now.pieces claims.now.id e) }
{
    let Hands { seat, share } = hands;
    let depth = Depth::default();
    match work(
        rt, alloc, book, text, cutting, claims, seat, share, depth, &OpenGate,
    ) {
        Ok(end) => Ok(end),
        Err(_) => Err(ExampleFault::Stopped),
    }
}
