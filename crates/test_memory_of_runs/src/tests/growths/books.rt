// Runs in the hand of a worker, accumulators and their workers where an allocation fails.
ghost use Rattle.std.specs.Prelude.{◌≡◌, ◌+◌, ◌<◌, ◌≤◌, IfSome, IfErr, false, length, vec_len};

use crate::inputs::{FIVE_ROWS, NESTED, REPEATED, SEQUENCE, UNSORTED, WIDE};
use crate::lines::Lines;
use crate::tests::checks::assert_right;
use crate::tests::growths::cuts::{Joined, check_cuts};
use crate::tests::likeness::{Likeness, is_as_read};
use jx_book::{
    Book, BookState, Cause, Closed, Hand, Held, HeldFault, Put, Share, WorkerEnd, WorkerStop, work,
};
use jx_claim::{ClaimSeat, Claims, Cutting};
use jx_crew::{OpenGate, PieceNo, Workers};
use jx_lex::{Depth, Span};
use jx_run::{OutcomeRun, SeqRun, TextRun};
use std::alloc::{AllocError, Global};
use std::env::Env;
use std::marker::Brand;
use std::process::Abort;
use std::sync::Wait;
use std::sync::ledger::{Blank, Ledger};

// Which summary is made of the bytes.
#[derive(Clone, Copy)]
enum Runs {
    Texts,
    Outcomes,
    Sequences,
}

// Inputs, and the summary that is made of each.
const INPUTS: [(Runs, &[u8]); 7] = [
    (Runs::Texts, NESTED),
    (Runs::Outcomes, NESTED),
    (Runs::Outcomes, FIVE_ROWS),
    (Runs::Outcomes, REPEATED),
    (Runs::Outcomes, UNSORTED),
    (Runs::Outcomes, WIDE),
    (Runs::Sequences, SEQUENCE),
];

// The use that is made of the parts of a text.
#[derive(Clone, Copy)]
enum Part {
    /// Both sides of each cut are joined.
    Joins,
    /// Every second one is put into a state.
    State,
    /// Every second one is put into an accumulator.
    Puts,
    /// One worker reads them all.
    Worker,
}

#[test]
fn held_runs_under_a_refused_growth(rt: HostRuntime) {
    check(&rt, rt.alloc(), Part::Joins);
}

#[test]
fn states_of_a_book_under_a_refused_growth(rt: HostRuntime) {
    check(&rt, rt.alloc(), Part::State);
}

#[test]
fn puts_under_a_refused_growth(rt: HostRuntime) {
    check(&rt, rt.alloc(), Part::Puts);
}

#[test]
fn workers_under_a_refused_growth(rt: HostRuntime) {
    check(&rt, rt.alloc(), Part::Worker);
}

// This part of each input.
fn check<R: Abort + Env + Wait>(rt: &R, alloc: Global, part: Part) {
    let mut lines = Lines::of(rt);
    for (runs, text) in &INPUTS {
        check_input(rt, alloc, &mut lines, part, *runs, text);
    }
}

fn check_input<R: Abort + Wait>(
    rt: &R,
    alloc: Global,
    lines: &mut Lines,
    part: Part,
    runs: Runs,
    text: &[u8],
) {
    match part {
        Part::Joins => check_cuts(rt, alloc, lines, &joined_as(runs), text),
        _ => {
            if lines.takes_next() {
                assert_right(rt, is_right_of(rt, alloc, part, runs, text), text, 0);
            }
        }
    }
}

fn joined_as(runs: Runs) -> Joined<'static> {
    match runs {
        Runs::Texts => Joined::HeldTexts,
        Runs::Outcomes => Joined::HeldOutcomes,
        Runs::Sequences => Joined::HeldSequences,
    }
}

fn is_right_of<R: Wait>(
    rt: &R,
    alloc: Global,
    part: Part,
    runs: Runs,
    text: &[u8],
) -> Result<bool, AllocError> {
    match runs {
        Runs::Texts => is_right_again::<TextRun, R>(rt, alloc, part, text),
        Runs::Outcomes => is_right_again::<OutcomeRun, R>(rt, alloc, part, text),
        Runs::Sequences => is_right_again::<SeqRun, R>(rt, alloc, part, text),
    }
}

// Where there is no memory for a run, for the accumulator or for the claims, all of it is made again.
fn is_right_again<S: Likeness, R: Wait>(
    rt: &R,
    alloc: Global,
    part: Part,
    text: &[u8],
) -> Result<bool, AllocError> {
    match is_right::<S, R>(rt, alloc, part, text) {
        Err(AllocError) => is_right::<S, R>(rt, alloc, part, text),
        answer => answer,
    }
}

fn is_right<S: Likeness, R: Wait>(
    rt: &R,
    alloc: Global,
    part: Part,
    text: &[u8],
) -> Result<bool, AllocError> {
    match part {
        Part::State => are_stored::<S>(alloc, text),
        Part::Puts => are_put_by_one::<S, R>(rt, alloc, text),
        Part::Worker => is_read_by_one::<S, R>(rt, alloc, text),
        Part::Joins => Ok(false),
    }
}

/// Whether a run is the one that its span gives in the text that it carries.
fn is_as_held<S: Likeness>(alloc: Global, run: &Held<'_, S>) -> Result<bool, AllocError> {
    is_as_read(alloc, run.text(), run.run())
}

/// The join of two neighbours. Where it is refused, both sides have to be as they were, and are joined again.
fn joined<'a, S: Likeness>(
    alloc: Global,
    left: Held<'a, S>,
    right: Held<'a, S>,
) -> Result<Option<Held<'a, S>>, AllocError>
    requires { left.span.end ≡ right.span.start }
{
    let spans = (left.span(), right.span());
    match left.join(right) {
        Ok(run) => Ok(Some(run)),
        Err(HeldFault::Memory(left, right)) => {
            if (left.span(), right.span()) != spans {
                return Ok(None);
            }
            joined_again(alloc, left, right)
        }
        Err(HeldFault::Other(_, _)) => Ok(None),
    }
}

/// The join of two neighbours that came back, if they are as they were read.
fn joined_again<'a, S: Likeness>(
    alloc: Global,
    left: Held<'a, S>,
    right: Held<'a, S>,
) -> Result<Option<Held<'a, S>>, AllocError>
    requires { left.span.end ≡ right.span.start }
{
    if !are_as_held(alloc, &left, &right)? {
        return Ok(None);
    }
    Ok(left.join(right).ok())
}

fn are_as_held<S: Likeness>(
    alloc: Global,
    left: &Held<'_, S>,
    right: &Held<'_, S>,
) -> Result<bool, AllocError> {
    Ok(is_as_held(alloc, left)? && is_as_held(alloc, right)?)
}

/// Whether the join of both sides of a cut is as it has to be.
pub(crate) fn is_joined_at<S: Likeness>(
    alloc: Global,
    text: &[u8],
    cut: usize,
) -> Result<bool, AllocError>
    requires { cut ≤ length text.now }
{
    let depth = Depth::default();
    let left = Held::<S>::read(alloc, text, 0, cut, depth)?;
    let right = Held::<S>::read(alloc, text, cut, text.len(), depth)?;
    match joined(alloc, left, right)? {
        Some(run) => is_as_held(alloc, &run),
        None => Ok(false),
    }
}

/// Whether these are runs of so many bytes of a text, every second one, each as it was read.
fn are_every_second<S: Likeness>(
    alloc: Global,
    runs: &[Held<'_, S>],
    count: usize,
) -> Result<bool, AllocError> {
    for (place, run) in runs.iter().enumerate() {
        let start = place.saturating_mul(2);
        let end = start.saturating_add(1);
        if run.span() != (Span { start, end }) || !is_as_held(alloc, run)? {
            return Ok(false);
        }
    }
    Ok(runs.len() == count)
}

fn totals<S: Likeness>(state: &BookState<'_, S>) -> (u128, u128) {
    (state.total_put(), state.total_taken())
}

/// Whether the run stands in the state then, in which so many stood. Where it is refused, the state is as it was, and
/// the same run is put again.
fn is_stored<'a, S: Likeness>(
    alloc: Global,
    state: &mut BookState<'a, S>,
    run: Held<'a, S>,
    count: usize,
) -> Result<bool, AllocError>
    requires { run.span.start < run.span.end }
{
    let place = run.span();
    let before = totals(state);
    match state.put(run) {
        Put::Stored => Ok(true),
        Put::Memory(run) => {
            if run.span() != place || totals(state) != before {
                return Ok(false);
            }
            is_stored_again(alloc, state, run, count)
        }
        _ => Ok(false),
    }
}

/// Whether a run that came back is as it was read, beside so many that stand in the state, and is put then.
fn is_stored_again<'a, S: Likeness>(
    alloc: Global,
    state: &mut BookState<'a, S>,
    run: Held<'a, S>,
    count: usize,
) -> Result<bool, AllocError>
    requires { run.span.start < run.span.end }
{
    if !is_as_held(alloc, &run)? || !are_every_second(alloc, state.runs(), count)? {
        return Ok(false);
    }
    Ok(matches!(state.put(run), Put::Stored))
}

/// Whether every second byte of a text stands in a state then, each put for itself.
fn are_stored<S: Likeness>(alloc: Global, text: &[u8]) -> Result<bool, AllocError> {
    let mut state = BookState::<S>::new(alloc);
    let count = text.len() / 2;
    if !are_all_stored(alloc, &mut state, text, count)? {
        return Ok(false);
    }
    are_every_second(alloc, state.runs(), count)
}

fn are_all_stored<'a, S: Likeness>(
    alloc: Global,
    state: &mut BookState<'a, S>,
    text: &'a [u8],
    count: usize,
) -> Result<bool, AllocError>
    requires { count + count ≤ length text.now }
{
    for place in 0..count {
        let run = Held::read(alloc, text, 2 * place, 2 * place + 1, Depth::default())?;
        if !is_stored(alloc, state, run, place)? {
            return Ok(false);
        }
    }
    Ok(true)
}

/// The run, where it is not empty.
fn filled<'a, S: Likeness>(run: Held<'a, S>) -> Option<Held<'a, S>>
    ensures { IfSome result (λ h. h.span.start < h.span.end) }
{
    if run.span().start < run.span().end {
        Some(run)
    } else {
        None
    }
}

/// The join of two neighbours, where it is one that is not empty.
fn both_of<'a, S: Likeness>(
    alloc: Global,
    left: Held<'a, S>,
    right: Held<'a, S>,
) -> Option<Held<'a, S>>
    ensures { IfSome result (λ h. h.span.start < h.span.end) }
{
    if left.span().end != right.span().start {
        return None;
    }
    match joined(alloc, left, right) {
        Ok(Some(run)) => filled(run),
        _ => None,
    }
}

/// Whether the run stands in the accumulator then. Where it is refused, it comes back as it was, the share is as it was, and
/// the same run is put again.
fn is_put<'a, S: Likeness, P: Ledger, T: Ledger, R: Wait>(
    rt: &R,
    alloc: Global,
    book: &Book<'a, S, P, T>,
    share: &mut Share<P, T>,
    run: Held<'a, S>,
) -> Result<bool, AllocError>
    requires { run.span.start < run.span.end }
{
    let place = run.span();
    let before = (share.total_put(), share.total_taken());
    match book.put(rt, share, run) {
        Put::Stored => Ok(true),
        Put::Memory(run) => {
            let after = (share.total_put(), share.total_taken());
            if run.span() != place || after != before {
                return Ok(false);
            }
            is_put_again(rt, alloc, book, share, run)
        }
        _ => Ok(false),
    }
}

/// Whether a run that came back is as it was read, and is put then.
fn is_put_again<'a, S: Likeness, P: Ledger, T: Ledger, R: Wait>(
    rt: &R,
    alloc: Global,
    book: &Book<'a, S, P, T>,
    share: &mut Share<P, T>,
    run: Held<'a, S>,
) -> Result<bool, AllocError>
    requires { run.span.start < run.span.end }
{
    if !is_as_held(alloc, &run)? {
        return Ok(false);
    }
    Ok(matches!(book.put(rt, share, run), Put::Stored))
}

/// Whether each second byte of a text is put into the accumulator, for itself.
fn are_all_put<'a, S: Likeness, P: Ledger, T: Ledger, R: Wait>(
    rt: &R,
    alloc: Global,
    book: &Book<'a, S, P, T>,
    share: &mut Share<P, T>,
    text: &'a [u8],
    count: usize,
) -> Result<bool, AllocError>
    requires { count + count ≤ length text.now }
{
    for place in 0..count {
        let run = Held::read(alloc, text, 2 * place, 2 * place + 1, Depth::default())?;
        if !is_put(rt, alloc, book, share, run)? {
            return Ok(false);
        }
    }
    Ok(share.total_put() == count as u128 && share.total_taken() == 0)
}

/// Whether every second byte of a text stands in an accumulator at its end, each put for itself.
fn are_put<'a, S: Likeness, P: Ledger, T: Ledger, R: Wait>(
    rt: &R,
    alloc: Global,
    text: &'a [u8],
    put: Blank,
    taken: Blank,
    workers: Workers,
) -> Result<bool, AllocError>
    requires one { workers ≡ 1 }
    requires put { (put.name ≡ P.name) × (put.parts ≡ P.parts) × (put.parts ≡ workers) }
    requires taken { (taken.name ≡ T.name) × (taken.parts ≡ T.parts) × (taken.parts ≡ workers) }
{
    let (book, mut shares) = Book::<S, P, T>::open(alloc, put, taken, workers)?;
    let Some(mut share) = shares.pop() else {
        return Ok(false);
    };
    let count = text.len() / 2;
    match are_all_put(rt, alloc, &book, &mut share, text, count) {
        Ok(true) => has_every_second(alloc, book, text, shares, share),
        answer => answer,
    }
}

/// The runs of an accumulator at its end, with its last share, if they are those of the text.
fn closed_of<'a, S: Likeness, P: Ledger, T: Ledger>(
    book: Book<'a, S, P, T>,
    text: &'a [u8],
    shares: Vec<Share<P, T>>,
    share: Share<P, T>,
) -> Result<Option<Closed<'a, S>>, AllocError>
    requires { vec_len shares + 1 ≡ P.parts }
{
    let mut shares = shares;
    shares.push(share)?;
    Ok(book.finish(text, Depth::default(), shares).ok())
}

/// Whether the accumulator has every second byte of a text at its end.
fn has_every_second<'a, S: Likeness, P: Ledger, T: Ledger>(
    alloc: Global,
    book: Book<'a, S, P, T>,
    text: &'a [u8],
    shares: Vec<Share<P, T>>,
    share: Share<P, T>,
) -> Result<bool, AllocError>
    requires { vec_len shares + 1 ≡ P.parts }
{
    match closed_of(book, text, shares, share)? {
        Some(closed) => are_every_second(alloc, closed.runs(), text.len() / 2),
        None => Ok(false),
    }
}

/// The same, with the `Blank`s of an accumulator's ledgers.
fn are_put_by_one<S: Likeness, R: Wait>(
    rt: &R,
    alloc: Global,
    text: &[u8],
) -> Result<bool, AllocError> {
    let Some(workers) = Workers::new(1) else {
        return Ok(false);
    };
    let put = Blank::new(u64::from(workers.count()));
    let taken = Blank::new(u64::from(workers.count()));
    are_put::<S, Brand, Brand, R>(rt, alloc, text, put, taken, workers)
}

/// Whether the run stands in the accumulator then. Where its left neighbour may stand there, both are joined first.
fn is_handed_over<'a, S: Likeness, P: Ledger, T: Ledger, R: Wait>(
    rt: &R,
    alloc: Global,
    book: &Book<'a, S, P, T>,
    share: &mut Share<P, T>,
    run: Held<'a, S>,
) -> bool
    requires { run.span.start < run.span.end }
{
    match book.put(rt, share, run) {
        Put::Stored => true,
        Put::Touches(run, neighbour) => match both_of(alloc, neighbour, run) {
            Some(both) => matches!(is_put(rt, alloc, book, share, both), Ok(true)),
            None => false,
        },
        _ => false,
    }
}

/// The run of a chunk that a stopped worker drew.
fn run_of_piece<'a, S: Likeness>(
    alloc: Global,
    text: &'a [u8],
    cutting: &Cutting,
    piece: PieceNo,
) -> Option<Held<'a, S>>
    requires { cutting.now.len ≡ length text.now }
    ensures { IfSome result (λ h. h.span.start < h.span.end) }
{
    if piece.0 >= cutting.count() {
        return None;
    }
    let place = cutting.piece(piece);
    Held::read(alloc, text, place.start, place.end, Depth::default()).ok()
}

/// The run of all that a stopped worker holds, if it holds something, and that as it was read.
fn run_in<'a, S: Likeness>(
    alloc: Global,
    text: &'a [u8],
    cutting: &Cutting,
    hand: Hand<'a, S>,
) -> Option<Held<'a, S>>
    requires { cutting.now.len ≡ length text.now }
    ensures { IfSome result (λ h. h.span.start < h.span.end) }
{
    match hand {
        Hand::Nothing => None,
        Hand::Piece(piece) => run_of_piece(alloc, text, cutting, piece),
        Hand::One(run) => match is_as_held(alloc, &run) {
            Ok(true) => filled(run),
            _ => None,
        },
        Hand::Two(left, right) => match are_as_held(alloc, &left, &right) {
            Ok(true) => both_of(alloc, left, right),
            _ => None,
        },
    }
}

/// Whether the accumulator has one run then, over the whole of the text, like the one that reading it at once gives.
fn is_whole<'a, S: Likeness, P: Ledger, T: Ledger>(
    alloc: Global,
    book: Book<'a, S, P, T>,
    text: &'a [u8],
    shares: Vec<Share<P, T>>,
    share: Share<P, T>,
) -> Result<bool, AllocError>
    requires { vec_len shares + 1 ≡ P.parts }
{
    match closed_of(book, text, shares, share)? {
        Some(closed) => is_one_run(alloc, closed.runs(), text.len()),
        None => Ok(false),
    }
}

/// Whether there is one run, of so many bytes from the start, and that as it was read.
fn is_one_run<S: Likeness>(
    alloc: Global,
    runs: &[Held<'_, S>],
    end: usize,
) -> Result<bool, AllocError> {
    match runs {
        [run] => Ok(run.span() == (Span { start: 0, end }) && is_as_held(alloc, run)?),
        _ => Ok(false),
    }
}

/// Puts the run in the hand of a worker that stopped when out of memory: the worker's share.
fn share_behind_hand<'a, S: Likeness, P: Ledger, T: Ledger, R: Wait>(
    rt: &R,
    alloc: Global,
    book: &Book<'a, S, P, T>,
    text: &'a [u8],
    cutting: &Cutting,
    hand: Hand<'a, S>,
    share: Share<P, T>,
) -> Option<Share<P, T>>
    requires { cutting.now.len ≡ length text.now }
{
    let mut share = share;
    match run_in(alloc, text, cutting, hand) {
        Some(run) => {
            if is_handed_over(rt, alloc, book, &mut share, run) {
                Some(share)
            } else {
                None
            }
        }
        None => None,
    }
}

/// Lets a worker read on, to its end or until it stops.
fn read_on<'a, S: Likeness, P: Ledger, T: Ledger, R: Wait>(
    rt: &R,
    alloc: Global,
    book: &Book<'a, S, P, T>,
    text: &'a [u8],
    cutting: &Cutting,
    claims: &Claims,
    seat: ClaimSeat,
    share: Share<P, T>,
) -> Result<Share<P, T>, WorkerStop<'a, S, P, T>>
    requires cutting { cutting.now.len ≡ length text.now }
    requires claims { claims.now.pieces ≡ length cutting.now.pieces }
    requires seat { (seat.id ≡ claims.now.id) × (seat.spent ≡ false) }
    ensures { IfErr result (λ s. s.seat.id ≡ claims.now.id) }
{
    let depth = Depth::default();
    match work(
        rt, alloc, book, text, cutting, claims, seat, share, depth, &OpenGate,
    ) {
        Ok(WorkerEnd { seat: _, share }) => Ok(share),
        Err(stop) => Err(stop),
    }
}

/// Puts the run in the hand of a worker that stopped when out of memory, and lets the worker go on to its end: its share.
fn share_of_stopped<'a, S: Likeness, P: Ledger, T: Ledger, R: Wait>(
    rt: &R,
    alloc: Global,
    book: &Book<'a, S, P, T>,
    text: &'a [u8],
    cutting: &Cutting,
    claims: &Claims,
    stop: WorkerStop<'a, S, P, T>,
) -> Option<Share<P, T>>
    requires cutting { cutting.now.len ≡ length text.now }
    requires claims { claims.now.pieces ≡ length cutting.now.pieces }
    requires seat { stop.seat.id ≡ claims.now.id }
{
    if stop.cause != Cause::Memory || stop.seat.spent() {
        return None;
    }
    let WorkerStop {
        seat,
        share,
        hand,
        ..
    } = stop;
    match share_behind_hand(rt, alloc, book, text, cutting, hand, share) {
        Some(share) => read_on(rt, alloc, book, text, cutting, claims, seat, share).ok(),
        None => None,
    }
}

/// Lets one worker read to its end: its share.
fn share_of_worker<'a, S: Likeness, P: Ledger, T: Ledger, R: Wait>(
    rt: &R,
    alloc: Global,
    book: &Book<'a, S, P, T>,
    text: &'a [u8],
    cutting: &Cutting,
    claims: &Claims,
    seat: ClaimSeat,
    share: Share<P, T>,
) -> Option<Share<P, T>>
    requires cutting { cutting.now.len ≡ length text.now }
    requires claims { claims.now.pieces ≡ length cutting.now.pieces }
    requires seat { (seat.id ≡ claims.now.id) × (seat.spent ≡ false) }
{
    match read_on(rt, alloc, book, text, cutting, claims, seat, share) {
        Ok(share) => Some(share),
        Err(stop) => share_of_stopped(rt, alloc, book, text, cutting, claims, stop),
    }
}

/// Whether one worker reads the whole text.
fn is_read<'a, S: Likeness, P: Ledger, T: Ledger, R: Wait>(
    rt: &R,
    alloc: Global,
    text: &'a [u8],
    cutting: &Cutting,
    claims: &Claims,
    seat: ClaimSeat,
    put: Blank,
    taken: Blank,
    workers: Workers,
) -> Result<bool, AllocError>
    requires cutting { cutting.now.len ≡ length text.now }
    requires claims { claims.now.pieces ≡ length cutting.now.pieces }
    requires seat { (seat.id ≡ claims.now.id) × (seat.spent ≡ false) }
    requires one { workers ≡ 1 }
    requires put { (put.name ≡ P.name) × (put.parts ≡ P.parts) × (put.parts ≡ workers) }
    requires taken { (taken.name ≡ T.name) × (taken.parts ≡ T.parts) × (taken.parts ≡ workers) }
{
    let (book, mut shares) = Book::<S, P, T>::open(alloc, put, taken, workers)?;
    let Some(share) = shares.pop() else {
        return Ok(false);
    };
    match share_of_worker(rt, alloc, &book, text, cutting, claims, seat, share) {
        Some(share) => is_whole(alloc, book, text, shares, share),
        None => Ok(false),
    }
}

/// The same, with the `Blank`s of an accumulator's ledgers.
fn is_read_from<S: Likeness, R: Wait>(
    rt: &R,
    alloc: Global,
    text: &[u8],
    cutting: &Cutting,
    claims: &Claims,
    seat: ClaimSeat,
    workers: Workers,
) -> Result<bool, AllocError>
    requires cutting { cutting.now.len ≡ length text.now }
    requires claims { claims.now.pieces ≡ length cutting.now.pieces }
    requires seat { (seat.id ≡ claims.now.id) × (seat.spent ≡ false) }
    requires one { workers ≡ 1 }
{
    let put = Blank::new(u64::from(workers.count()));
    let taken = Blank::new(u64::from(workers.count()));
    is_read::<S, Brand, Brand, R>(rt, alloc, text, cutting, claims, seat, put, taken, workers)
}

/// Whether one worker reads a text in these chunks.
fn is_read_in_pieces<S: Likeness, R: Wait>(
    rt: &R,
    alloc: Global,
    text: &[u8],
    cutting: &Cutting,
    workers: Workers,
) -> Result<bool, AllocError>
    requires cutting { cutting.now.len ≡ length text.now }
    requires one { workers ≡ 1 }
{
    let (claims, mut seats) = Claims::open(alloc, cutting.count(), workers)?;
    match seats.pop() {
        Some(seat) => is_read_from::<S, R>(rt, alloc, text, cutting, &claims, seat, workers),
        None => Ok(false),
    }
}

/// Whether one worker reads a text in chunks of a byte.
fn is_read_by_one<S: Likeness, R: Wait>(
    rt: &R,
    alloc: Global,
    text: &[u8],
) -> Result<bool, AllocError> {
    let Some(workers) = Workers::new(1) else {
        return Ok(false);
    };
    match Cutting::every(text.len(), 1) {
        Ok(cutting) => is_read_in_pieces::<S, R>(rt, alloc, text, &cutting, workers),
        Err(_) => Ok(false),
    }
}
