// Workers on threads of the test's own, by public calls alone, and what `gather` makes of the runs that they left.
ghost use Rattle.std.specs.Prelude.{◌≡◌, ◌+◌, ◌<◌, [], length, true, false, All};
ghost use Rattle.jx_claim.specs.Cut.{drawn_len};
ghost use Rattle.jx_book.specs.Shares.{share};

use crate::tests::answers::is_worked;
use crate::tests::calls::answer_of;
use jx_book::{Book, FinishFault, Held, Put, Share, WorkerEnd, gather, work};
use jx_claim::{ClaimSeat, Claims, Cutting};
use jx_crew::{OpenGate, Workers};
use jx_lex::{Depth, Kind, Span};
use jx_run::{NameRule, OutcomeRun, Refusal, TextRun};
use std::alloc::Global;
use std::marker::Brand;
use std::process::Abort;
use std::sync::Wait;
use std::sync::ledger::{Blank, Ledger};
use std::thread;
use std::thread::Threads;
use test_memory_of_runs::inputs::{FIVE, NESTED, NESTED_ARRAYS, TOO_DEEP, Worked, WorkedRow};

// A text without a repeated name within the default depth.
fn worked(text: &'static [u8], answer: Result<&'static [WorkedRow], Refusal>) -> Worked {
    Worked {
        text,
        front: 0,
        containers: 512,
        answer,
        repeated: None,
    }
}

const ALL_CUTS: [usize; 16] = [1, 2, 3, 4, 5, 6, 7, 8, 9, 10, 11, 12, 13, 14, 15, 16];

// Texts, and where each is cut.
fn cut_texts() -> [(Worked, &'static [usize]); 7] {
    [
        (
            worked(b"12", Ok(&[(Kind::Number, (0, 2), None, 0, None)])),
            &[1],
        ),
        (
            worked(
                b"\x22\xC3\xA9\x22",
                Ok(&[(Kind::String, (0, 4), None, 0, None)]),
            ),
            &[2],
        ),
        (
            worked(b"\"\\u0041\"", Ok(&[(Kind::String, (0, 8), None, 0, None)])),
            &[4],
        ),
        (TOO_DEEP, &[2, 3]),
        (NESTED_ARRAYS, &[2, 3]),
        (
            worked(b"{\"a\":1,2]", Err(Refusal::Stopped { at: 7 })),
            &[7],
        ),
        (FIVE, &ALL_CUTS),
    ]
}

#[test]
fn texts_that_are_cut_are_gathered_to_their_rows(rt: HostRuntime) {
    check_all(&rt, rt.alloc(), &cut_texts())
}

fn check_all<R: Abort + Threads + Wait + Sync>(
    rt: &R,
    alloc: Global,
    texts: &[(Worked, &'static [usize])],
) {
    for (worked, cuts) in texts {
        check(rt, alloc, worked, cuts);
    }
}

#[test]
fn a_run_that_begins_before_the_front_is_handed_back(rt: HostRuntime) {
    let cutting = Cutting::every(NESTED.len(), 6).expect(&rt, "one piece");
    assert!(rt; 1 <= cutting.len());
    let cutting = cutting.without_front(1);
    assert!(rt; is_other_of_one(&rt, rt.alloc(), NESTED, &cutting));
}

// The values with which a worker begins.
#[derive(Drop)]
struct Hands<P: Ledger, T: Ledger> {
    seat: ClaimSeat,
    share: Share<P, T>,
}

/// A worker handle and a share of those that are left.
fn next_of<P: Ledger, T: Ledger, R: Abort>(
    rt: &R,
    claims: &Claims,
    seats: &mut Vec<ClaimSeat>,
    shares: &mut Vec<Share<P, T>>,
) -> Hands<P, T>
    requires seats { All (λ s. (s.id ≡ claims.now.id) × (s.got ≡ []) × (s.spent ≡ false)) seats.old.items }
    requires shares { All (λ s. s ≡ share 0 0) shares.old.items }
    ensures seat { (result.seat.id ≡ claims.now.id) × (result.seat.got ≡ []) × (result.seat.spent ≡ false) }
    ensures share { result.share ≡ share 0 0 }
    ensures seats { All (λ s. (s.id ≡ claims.now.id) × (s.got ≡ []) × (s.spent ≡ false)) seats.new.items }
    ensures shares { All (λ s. s ≡ share 0 0) shares.new.items }
{
    let seat = seats.pop().expect(rt, "a seat");
    let share = shares.pop().expect(rt, "a share");
    Hands { seat, share }
}

/// Lets one worker read until no chunk is left.
fn work_to_the_end<'a, P: Ledger, T: Ledger, R: Abort + Wait>(
    rt: &R,
    alloc: Global,
    book: &Book<'a, TextRun, P, T>,
    text: &'a [u8],
    cutting: &Cutting,
    claims: &Claims,
    depth: Depth,
    hands: Hands<P, T>,
) -> WorkerEnd<P, T>
    requires cutting { cutting.now.len ≡ length text.now }
    requires claims { claims.now.pieces ≡ length cutting.now.pieces }
    requires seat { (hands.seat.id ≡ claims.now.id) × (hands.seat.got ≡ []) × (hands.seat.spent ≡ false) }
    requires share { hands.share ≡ share 0 0 }
    ensures seat { (result.seat.id ≡ claims.now.id) × (result.seat.spent ≡ true) }
    ensures bytes { drawn_len cutting.now.pieces result.seat.got + result.share.taken ≡ result.share.put }
{
    let Hands { seat, share } = hands;
    match work(
        rt, alloc, book, text, cutting, claims, seat, share, depth, &OpenGate,
    ) {
        Ok(end) => end,
        Err(_) => panic!(rt; "a worker that stopped"),
    }
}

/// Lets two workers read, each on a thread of its own.
fn both_work<
    'a,
    P: Ledger + Send + Sync,
    T: Ledger + Send + Sync,
    R: Abort + Threads + Wait + Sync,
>(
    rt: &R,
    alloc: Global,
    book: &Book<'a, TextRun, P, T>,
    text: &'a [u8],
    cutting: &Cutting,
    claims: &Claims,
    depth: Depth,
    first: Hands<P, T>,
    second: Hands<P, T>,
) -> (WorkerEnd<P, T>, WorkerEnd<P, T>)
    requires cutting { cutting.now.len ≡ length text.now }
    requires claims { claims.now.pieces ≡ length cutting.now.pieces }
    requires first { (first.seat.id ≡ claims.now.id) × (first.seat.got ≡ []) × (first.seat.spent ≡ false) × (first.share ≡ share 0 0) }
    requires second { (second.seat.id ≡ claims.now.id) × (second.seat.got ≡ []) × (second.seat.spent ≡ false) × (second.share ≡ share 0 0) }
    ensures first { (result.0.seat.id ≡ claims.now.id) × (result.0.seat.spent ≡ true) × (drawn_len cutting.now.pieces result.0.seat.got + result.0.share.taken ≡ result.0.share.put) }
    ensures second { (result.1.seat.id ≡ claims.now.id) × (result.1.seat.spent ≡ true) × (drawn_len cutting.now.pieces result.1.seat.got + result.1.share.taken ≡ result.1.share.put) }
{
    thread::join(
        rt,
        move || -> WorkerEnd<P, T>
            requires { (cutting.now.len ≡ length text.now) × (claims.now.pieces ≡ length cutting.now.pieces) × (first.seat.id ≡ claims.now.id) × (first.seat.got ≡ []) × (first.seat.spent ≡ false) × (first.share ≡ share 0 0) }
            ensures { (result.seat.id ≡ claims.entry.now.id) × (result.seat.spent ≡ true) × (drawn_len cutting.entry.now.pieces result.seat.got + result.share.taken ≡ result.share.put) }
        { work_to_the_end(rt, alloc, book, text, cutting, claims, depth, first) },
        move || -> WorkerEnd<P, T>
            requires { (cutting.now.len ≡ length text.now) × (claims.now.pieces ≡ length cutting.now.pieces) × (second.seat.id ≡ claims.now.id) × (second.seat.got ≡ []) × (second.seat.spent ≡ false) × (second.share ≡ share 0 0) }
            ensures { (result.seat.id ≡ claims.entry.now.id) × (result.seat.spent ≡ true) × (drawn_len cutting.entry.now.pieces result.seat.got + result.share.taken ≡ result.share.put) }
        { work_to_the_end(rt, alloc, book, text, cutting, claims, depth, second) },
    )
}

/// The one run that two workers leave of a text.
fn run_by_two<
    'a,
    P: Ledger + Send + Sync,
    T: Ledger + Send + Sync,
    R: Abort + Threads + Wait + Sync,
>(
    rt: &R,
    alloc: Global,
    text: &'a [u8],
    cutting: &Cutting,
    depth: Depth,
    put: Blank,
    taken: Blank,
) -> Held<'a, TextRun>
    requires cutting { cutting.now.len ≡ length text.now }
    requires put { (put.name ≡ P.name) × (put.parts ≡ P.parts) × (put.parts ≡ 2) }
    requires taken { (taken.name ≡ T.name) × (taken.parts ≡ T.parts) × (taken.parts ≡ 2) }
{
    let workers = Workers::new(2).expect(rt, "two workers");
    let (book, mut shares) = Book::<TextRun, P, T>::open(alloc, put, taken, workers).expect(
        rt, "a book",
    );
    let (claims, mut seats) = Claims::open(alloc, cutting.count(), workers).expect(rt, "claims");
    let first = next_of(rt, &claims, &mut seats, &mut shares);
    let second = next_of(rt, &claims, &mut seats, &mut shares);
    let (first, second) = both_work(
        rt, alloc, &book, text, cutting, &claims, depth, first, second,
    );
    let seats = Vec::from_array(alloc, [first.seat, second.seat]).expect(rt, "seats");
    let shares = Vec::from_array(alloc, [first.share, second.share]).expect(rt, "shares");
    match gather(book, claims, text, cutting, depth, seats, shares) {
        Ok(Some(run)) => run,
        _ => panic!(rt; "no run of this text"),
    }
}

/// The same, with the `Blank`s of an accumulator's ledgers.
fn run_of_two<'a, R: Abort + Threads + Wait + Sync>(
    rt: &R,
    alloc: Global,
    text: &'a [u8],
    cutting: &Cutting,
    depth: Depth,
) -> Held<'a, TextRun>
    requires cutting { cutting.now.len ≡ length text.now }
{
    let put = Blank::new(2);
    let taken = Blank::new(2);
    run_by_two::<Brand, Brand, R>(rt, alloc, text, cutting, depth, put, taken)
}

// The answer on a text that is cut there, with all its rows.
fn check<R: Abort + Threads + Wait + Sync>(rt: &R, alloc: Global, worked: &Worked, cuts: &[usize]) {
    let depth = Depth::new(worked.containers).expect(rt, "a depth");
    let cutting = Cutting::at(alloc, worked.text.len(), cuts).expect(rt, "cuts");
    let run = run_of_two(rt, alloc, worked.text, &cutting, depth);
    let answer = answer_of(alloc, &run).expect(rt, "an answer");
    let right = is_worked(&answer, worked, NameRule::Any);
    assert!(rt; right, "{worked:?} cut at {cuts:?}");
}

/// Takes a chunk and puts as many bytes that begin one byte before it, and then meets the end of the chunks.
fn put_before<'a, P: Ledger, T: Ledger, R: Abort + Wait>(
    rt: &R,
    alloc: Global,
    book: &Book<'a, OutcomeRun, P, T>,
    text: &'a [u8],
    cutting: &Cutting,
    claims: &Claims,
    hands: Hands<P, T>,
) -> Hands<P, T>
    requires cutting { cutting.now.len ≡ length text.now }
    requires front { cutting.now.front ≡ 1 }
    requires claims { claims.now.pieces ≡ length cutting.now.pieces }
    requires seat { (hands.seat.id ≡ claims.now.id) × (hands.seat.got ≡ []) × (hands.seat.spent ≡ false) }
    requires share { hands.share ≡ share 0 0 }
    ensures seat { (result.seat.id ≡ claims.now.id) × (result.seat.spent ≡ true) }
    ensures bytes { drawn_len cutting.now.pieces result.seat.got + result.share.taken ≡ result.share.put }
{
    let Hands {
        mut seat,
        mut share,
    } = hands;
    let piece = claims.draw(&mut seat).expect(rt, "a piece");
    let place = cutting.piece(piece);
    let (start, end) = (place.start - 1, place.end - 1);
    let run = Held::read(alloc, text, start, end, Depth::default()).expect(rt, "a run");
    let Put::Stored = book.put(rt, &mut share, run) else {
        panic!(rt; "a run that is not stored")
    };
    match claims.draw(&mut seat) {
        None => Hands { seat, share },
        Some(_) => panic!(rt; "a second piece"),
    }
}

/// Whether a run that begins before the front of the division comes back.
fn is_other<P: Ledger, T: Ledger, R: Abort + Wait>(
    rt: &R,
    alloc: Global,
    text: &[u8],
    cutting: &Cutting,
    put: Blank,
    taken: Blank,
) -> bool
    requires cutting { cutting.now.len ≡ length text.now }
    requires front { cutting.now.front ≡ 1 }
    requires put { (put.name ≡ P.name) × (put.parts ≡ P.parts) × (put.parts ≡ 1) }
    requires taken { (taken.name ≡ T.name) × (taken.parts ≡ T.parts) × (taken.parts ≡ 1) }
{
    let workers = Workers::new(1).expect(rt, "one worker");
    let (book, mut shares) = Book::<OutcomeRun, P, T>::open(alloc, put, taken, workers).expect(
        rt, "a book",
    );
    let (claims, mut seats) = Claims::open(alloc, cutting.count(), workers).expect(rt, "claims");
    let hands = next_of(rt, &claims, &mut seats, &mut shares);
    let hands = put_before(rt, alloc, &book, text, cutting, &claims, hands);
    let seats = Vec::from_array(alloc, [hands.seat]).expect(rt, "seats");
    let shares = Vec::from_array(alloc, [hands.share]).expect(rt, "shares");
    match gather(book, claims, text, cutting, Depth::default(), seats, shares) {
        Err(FinishFault::Other(run)) => run.span() == Span { start: 0, end: 5 },
        Ok(_) => false,
    }
}

/// The same, with the `Blank`s of an accumulator's ledgers.
fn is_other_of_one<R: Abort + Wait>(rt: &R, alloc: Global, text: &[u8], cutting: &Cutting) -> bool
    requires cutting { cutting.now.len ≡ length text.now }
    requires front { cutting.now.front ≡ 1 }
{
    let put = Blank::new(1);
    let taken = Blank::new(1);
    is_other::<Brand, Brand, R>(rt, alloc, text, cutting, put, taken)
}
