ghost use Rattle.std.specs.Prelude.{◌≡◌, ◌+◌, List, length, true, All, sum_by, vec_len, IfOk, IsErr, Result};
ghost use Rattle.jx_summary.specs.declared.span.Span.{Span};
ghost use Rattle.jx_claim.specs.Claimed.{TableId, AreFresh};
ghost use Rattle.jx_claim.specs.Cut.{drawn_len};
ghost use Rattle.jx_book.specs.Shares.{share};
ghost use Rattle.jx_book.specs.Gathered.{IsRest};
ghost use Rattle.jx_book.specs.declared.workers.worker.Cause.{Cause};
ghost use Rattle.jx_book.specs.inside.Balance.{Balances, IsFresh, IsHandedBack, StopsFor};

use crate::lock::book::Book;
use crate::lock::gathering::gather;
use crate::lock::share::Share;
use crate::stored::assembling::assemble;
use crate::stored::held::Held;
use crate::workers::errand::{Errand, NoErrand};
use crate::workers::worker::{Hand, WorkerEnd, WorkerStop, work};
use jx_claim::{ClaimSeat, Claims, Cutting};
use jx_crew::{Crew, Gate, Workers};
use jx_fork::call_each;
use jx_summary::{Depth, Summary};
use std::alloc::{AllocError, Global};
use std::marker::Brand;
use std::sync::Wait;
use std::sync::ledger::{Blank, Ledger};
use std::thread;
use std::thread::Threads;

/// The handles with which a worker begins.
#[derive(Drop)]
struct Job<P: Ledger, T: Ledger> {
    seat: ClaimSeat,
    share: Share<P, T>,
}

/// The handles that the workers gave back, and whether each of them ended.
#[derive(Drop)]
struct Returned<P: Ledger, T: Ledger> {
    seats: Vec<ClaimSeat>,
    shares: Vec<Share<P, T>>,
    ended: bool,
}

/// The accumulator of a text and the claims on its chunks, with what each worker begins with.
#[derive(Drop)]
struct Opened<'a, S: Summary, P: Ledger, T: Ledger> {
    book: Book<'a, S, P, T>,
    claims: Claims,
    first: Job<P, T>,
    others: Vec<Job<P, T>>,
}

/// The result of a crew that reads a text while its first worker has an extra task.
#[derive(Drop)]
pub struct Round<'a, S: Summary, E: Errand> {
    /// The extra task, which was run.
    pub errand: E,
    /// The run over the text from the division's front on. The only fault is out of memory.
    pub run: Result<Held<'a, S>, AllocError>,
    /// How many bytes the first worker put into the accumulator after its extra task.
    pub put: u128,
}

/// Reads a text from the division's front on by the crew, each worker in a thread of its own where one can be made. It
/// waits for them, and fails only when out of memory.
///
/// Where a worker stopped, the calling thread reads what is missing, each gap as one chunk. Where there is no chunk, it
/// gives the empty run.
pub fn read_whole<'a, S: Summary + Send, R: Threads + Wait + Sync, G: Gate + Sync>(
    crew: &Crew<'_, R, G>,
    text: &'a [u8],
    cutting: &Cutting,
    depth: Depth,
) -> Result<Held<'a, S>, AllocError>
    requires { cutting.now.len ≡ length text.now }
    ensures { IfOk result (λ h. IsRest text.entry.now depth cutting.now.front h) }
{
    let Round {
        errand: _,
        run,
        put: _,
    } = read_beside::<S, NoErrand, R, G>(crew, text, cutting, depth, NoErrand);
    run
}

/// Reads a text as `read_whole` does, while the first worker has an extra task: it takes its first chunk after that, unless the
/// task says stop. The task is run even when out of memory.
pub fn read_beside<
    'a,
    S: Summary + Send,
    E: Errand + Send,
    R: Threads + Wait + Sync,
    G: Gate + Sync,
>(
    crew: &Crew<'_, R, G>,
    text: &'a [u8],
    cutting: &Cutting,
    depth: Depth,
    errand: E,
) -> Round<'a, S, E>
    requires cutting { cutting.now.len ≡ length text.now }
    requires errand { E.needs errand }
    ensures errand { E.leaves errand result.errand }
    ensures run { IfOk result.run (λ h. IsRest text.entry.now depth cutting.now.front h) }
{
    let put = Blank::new(u64::from(crew.workers.count()));
    let taken = Blank::new(u64::from(crew.workers.count()));
    read_with::<S, Brand, Brand, E, R, G>(crew, text, cutting, depth, errand, put, taken)
}

/// Reads a text as `read_beside` does, with `blanks` for the ledgers of an accumulator.
fn read_with<
    'a,
    S: Summary + Send,
    P: Ledger + Send + Sync,
    T: Ledger + Send + Sync,
    E: Errand + Send,
    R: Threads + Wait + Sync,
    G: Gate + Sync,
>(
    crew: &Crew<'_, R, G>,
    text: &'a [u8],
    cutting: &Cutting,
    depth: Depth,
    errand: E,
    put: Blank,
    taken: Blank,
) -> Round<'a, S, E>
    requires cutting { cutting.now.len ≡ length text.now }
    requires errand { E.needs errand }
    requires put { (put.name ≡ P.name) × (put.parts ≡ P.parts) × (put.parts ≡ crew.now.workers) }
    requires taken { (taken.name ≡ T.name) × (taken.parts ≡ T.parts) × (taken.parts ≡ crew.now.workers) }
    ensures errand { E.leaves errand result.errand }
    ensures run { IfOk result.run (λ h. IsRest text.entry.now depth cutting.now.front h) }
{
    let Ok(opened) = open::<S, P, T, R, G>(crew, cutting, put, taken) else {
        return alone(errand);
    };
    let Opened {
        book,
        claims,
        first,
        others,
    } = opened;
    let (errand, end, ends) = work_all(
        crew, &book, text, cutting, &claims, first, others, depth, errand,
    );
    let put = total_put(&end);
    let run = match all_ends(cutting, &claims, end, ends) {
        Ok(ends) => gathered(crew.alloc, book, claims, ends, text, cutting, depth),
        Err(AllocError) => Err(AllocError),
    };
    Round { errand, run, put }
}

/// The extra task alone, when out of memory.
fn alone<'a, S: Summary, E: Errand>(errand: E) -> Round<'a, S, E>
    requires { E.needs errand }
    ensures errand { E.leaves errand result.errand }
    ensures run { IsErr result.run }
{
    let mut errand = errand;
    let _ = errand.run();
    Round {
        errand,
        run: Err(AllocError),
        put: 0,
    }
}

/// An accumulator, claims on the chunks, and a worker handle with a share for each worker.
fn open<'a, S: Summary, P: Ledger, T: Ledger, R, G>(
    crew: &Crew<'_, R, G>,
    cutting: &Cutting,
    put: Blank,
    taken: Blank,
) -> Result<Opened<'a, S, P, T>, AllocError>
    requires put { (put.name ≡ P.name) × (put.parts ≡ P.parts) × (put.parts ≡ crew.now.workers) }
    requires taken { (taken.name ≡ T.name) × (taken.parts ≡ T.parts) × (taken.parts ≡ crew.now.workers) }
    ensures claims { IfOk result (λ o. o.claims.pieces ≡ length cutting.now.pieces) }
    ensures workers { IfOk result (λ o. o.claims.workers ≡ P.parts) }
    ensures first { IfOk result (λ o. IsFresh o.claims.id o.first) }
    ensures others { IfOk result (λ o. All (λ j. IsFresh o.claims.id j) o.others.items) }
    ensures len { IfOk result (λ o. vec_len o.others + 1 ≡ P.parts) }
{
    let _count = crew.workers.count();
    let (book, shares) = Book::<S, P, T>::open(crew.alloc, put, taken, crew.workers)?;
    let (claims, seats) = Claims::open(crew.alloc, cutting.count(), crew.workers)?;
    let mut others = pair(crew.alloc, &claims, seats, shares)?;
    let Some(first) = others.pop() else {
        unreachable!()
    };
    Ok(Opened {
        book,
        claims,
        first,
        others,
    })
}

/// A worker handle and a share for each worker.
fn pair<P: Ledger, T: Ledger>(
    alloc: Global,
    claims: &Claims,
    mut seats: Vec<ClaimSeat>,
    mut shares: Vec<Share<P, T>>,
) -> Result<Vec<Job<P, T>>, AllocError>
    requires len { vec_len seats ≡ vec_len shares }
    requires seats { AreFresh claims.now.id seats.items }
    requires shares { All (λ s. s ≡ share 0 0) shares.items }
    ensures len { IfOk result (λ v. vec_len v ≡ vec_len seats) }
    ensures jobs { IfOk result (λ v. All (λ j. IsFresh claims.now.id j) v.items) }
{
    let mut jobs = Vec::new(alloc);
    while let Some(seat) = seats.pop() {
        let Some(share) = shares.pop() else {
            unreachable!()
        };
        jobs.push(Job { seat, share })?;
    }
    Ok(jobs)
}

/// Lets the first worker run the extra task and then work, and the others work, each in a thread of its own where one
/// can be made.
fn work_all<
    'a,
    S: Summary + Send,
    P: Ledger + Send + Sync,
    T: Ledger + Send + Sync,
    E: Errand + Send,
    R: Threads + Wait + Sync,
    G: Gate + Sync,
>(
    crew: &Crew<'_, R, G>,
    book: &Book<'a, S, P, T>,
    text: &'a [u8],
    cutting: &Cutting,
    claims: &Claims,
    first: Job<P, T>,
    others: Vec<Job<P, T>>,
    depth: Depth,
    errand: E,
) -> (
    E,
    Result<WorkerEnd<P, T>, WorkerStop<'a, S, P, T>>,
    Result<Vec<Result<WorkerEnd<P, T>, WorkerStop<'a, S, P, T>>>, AllocError>,
)
    requires cutting { cutting.now.len ≡ length text.now }
    requires claims { claims.now.pieces ≡ length cutting.now.pieces }
    requires first { IsFresh claims.now.id first }
    requires others { All (λ j. IsFresh claims.now.id j) others.items }
    requires errand { E.needs errand }
    ensures errand { E.leaves errand result.0 }
    ensures first { Balances cutting.now.pieces claims.now.id result.1 }
    ensures len { IfOk result.2 (λ v. vec_len v ≡ vec_len others) }
    ensures each { IfOk result.2 (λ v. All (λ e. Balances cutting.now.pieces claims.now.id e) v.items) }
{
    let one = move || -> (E, Result<WorkerEnd<P, T>, WorkerStop<S, P, T>>)
        requires { (cutting.now.len ≡ length text.now) × (claims.now.pieces ≡ length cutting.now.pieces) × IsFresh claims.now.id first × E.needs errand }
        ensures { E.leaves errand result.0 × Balances cutting.entry.now.pieces claims.entry.now.id result.1 }
    { work_behind(crew, book, text, cutting, claims, first, depth, errand) };
    let rest = move || -> Result<Vec<Result<WorkerEnd<P, T>, WorkerStop<S, P, T>>>, AllocError>
        requires { (cutting.now.len ≡ length text.now) × (claims.now.pieces ≡ length cutting.now.pieces) × All (λ j. IsFresh claims.now.id j) others.items }
        ensures { IfOk result (λ v. (vec_len v ≡ vec_len others) × All (λ e. Balances cutting.entry.now.pieces claims.entry.now.id e) v.items) }
    { work_each(crew, book, text, cutting, claims, others, depth) };
    let ((errand, end), ends) = thread::join(crew.rt, one, rest);
    (errand, end, ends)
}

/// Runs the extra task, and lets its worker take chunks after it. If the task gives a cause, the worker stops for it.
fn work_behind<'a, S: Summary, P: Ledger, T: Ledger, E: Errand, R: Wait, G: Gate>(
    crew: &Crew<'_, R, G>,
    book: &Book<'a, S, P, T>,
    text: &'a [u8],
    cutting: &Cutting,
    claims: &Claims,
    job: Job<P, T>,
    depth: Depth,
    errand: E,
) -> (E, Result<WorkerEnd<P, T>, WorkerStop<'a, S, P, T>>)
    requires cutting { cutting.now.len ≡ length text.now }
    requires claims { claims.now.pieces ≡ length cutting.now.pieces }
    requires job { IsFresh claims.now.id job }
    requires errand { E.needs errand }
    ensures errand { E.leaves errand result.0 }
    ensures end { Balances cutting.now.pieces claims.now.id result.1 }
    ensures cause { (ended : Result (Unit {0}) Cause) × E.ends result.0 ended × StopsFor ended result.1 }
{
    let mut errand = errand;
    let Job { seat, share } = job;
    if let Err(cause) = errand.run() {
        let stop = WorkerStop::new(seat, share, Hand::Nothing, cause);
        return (errand, Err(stop));
    }
    let end = work(
        crew.rt, crew.alloc, book, text, cutting, claims, seat, share, depth, crew.gate,
    );
    (errand, end)
}

/// Lets each worker work, in a thread of its own where one can be made.
fn work_each<
    'a,
    S: Summary + Send,
    P: Ledger + Send + Sync,
    T: Ledger + Send + Sync,
    R: Threads + Wait + Sync,
    G: Gate + Sync,
>(
    crew: &Crew<'_, R, G>,
    book: &Book<'a, S, P, T>,
    text: &'a [u8],
    cutting: &Cutting,
    claims: &Claims,
    jobs: Vec<Job<P, T>>,
    depth: Depth,
) -> Result<Vec<Result<WorkerEnd<P, T>, WorkerStop<'a, S, P, T>>>, AllocError>
    requires cutting { cutting.now.len ≡ length text.now }
    requires claims { claims.now.pieces ≡ length cutting.now.pieces }
    requires jobs { All (λ j. IsFresh claims.now.id j) jobs.items }
    ensures len { IfOk result (λ v. vec_len v ≡ vec_len jobs) }
    ensures each { IfOk result (λ v. All (λ e. Balances cutting.now.pieces claims.now.id e) v.items) }
{
    call_each(
        crew.rt,
        crew.alloc,
        jobs,
        &|job: Job<P, T>| -> Result<WorkerEnd<P, T>, WorkerStop<S, P, T>>
            requires { (cutting.now.len ≡ length text.now) × (claims.now.pieces ≡ length cutting.now.pieces) × IsFresh claims.now.id job }
            ensures { Balances cutting.entry.now.pieces claims.entry.now.id result }
        {
            let Job { seat, share } = job;
            work(
                crew.rt, crew.alloc, book, text, cutting, claims, seat, share, depth, crew.gate,
            )
        },
    )
}

/// How all workers ended, the first one after the others.
fn all_ends<'a, S: Summary, P: Ledger, T: Ledger>(
    cutting: &Cutting,
    claims: &Claims,
    first: Result<WorkerEnd<P, T>, WorkerStop<'a, S, P, T>>,
    others: Result<Vec<Result<WorkerEnd<P, T>, WorkerStop<'a, S, P, T>>>, AllocError>,
) -> Result<Vec<Result<WorkerEnd<P, T>, WorkerStop<'a, S, P, T>>>, AllocError>
    requires first { Balances cutting.now.pieces claims.now.id first }
    requires len { IfOk others (λ v. vec_len v + 1 ≡ P.parts) }
    requires others { IfOk others (λ v. All (λ e. Balances cutting.now.pieces claims.now.id e) v.items) }
    ensures len { IfOk result (λ all. vec_len all ≡ P.parts) }
    ensures each { IfOk result (λ all. All (λ e. Balances cutting.now.pieces claims.now.id e) all.items) }
{
    let mut all = others?;
    all.push(first)?;
    Ok(all)
}

/// The run over the text from the division's front on, of what the workers put and handed back.
fn gathered<'a, S: Summary, P: Ledger, T: Ledger>(
    alloc: Global,
    book: Book<'a, S, P, T>,
    claims: Claims,
    ends: Vec<Result<WorkerEnd<P, T>, WorkerStop<'a, S, P, T>>>,
    text: &'a [u8],
    cutting: &Cutting,
    depth: Depth,
) -> Result<Held<'a, S>, AllocError>
    requires cutting { cutting.now.len ≡ length text.now }
    requires claims { claims.pieces ≡ length cutting.now.pieces }
    requires workers { claims.workers ≡ P.parts }
    requires len { vec_len ends ≡ P.parts }
    requires each { All (λ e. Balances cutting.now.pieces claims.id e) ends.items }
    ensures { IfOk result (λ h. IsRest text.entry.now depth cutting.now.front h) }
{
    let Returned {
        seats,
        shares,
        ended,
    } = collect(alloc, cutting, &claims, ends)?;
    if ended {
        if let Ok(Some(run)) = gather(book, claims, text, cutting, depth, seats, shares) {
            return Ok(run);
        }
    } else if let Ok(closed) = book.finish(text, depth, shares) {
        return assemble(alloc, closed, text, cutting.front(), depth);
    }
    read_alone(alloc, text, cutting, depth)
}

/// The run over the text from the division's front on, read as one chunk.
fn read_alone<'a, S: Summary>(
    alloc: Global,
    text: &'a [u8],
    cutting: &Cutting,
    depth: Depth,
) -> Result<Held<'a, S>, AllocError>
    requires cutting { cutting.now.len ≡ length text.now }
    ensures { IfOk result (λ h. IsRest text.entry.now depth cutting.now.front h) }
{
    Held::read(alloc, text, cutting.front(), text.len(), depth)
}

/// How many bytes a worker put.
fn total_put<'a, S: Summary, P: Ledger, T: Ledger>(
    end: &Result<WorkerEnd<P, T>, WorkerStop<'a, S, P, T>>,
) -> u128 {
    match end {
        Ok(end) => end.share.total_put(),
        Err(stop) => stop.share.total_put(),
    }
}

/// The `Seat` and the `Share` of each worker, and whether each of them ended.
fn collect<'a, S: Summary, P: Ledger, T: Ledger>(
    alloc: Global,
    cutting: &Cutting,
    claims: &Claims,
    mut ends: Vec<Result<WorkerEnd<P, T>, WorkerStop<'a, S, P, T>>>,
) -> Result<Returned<P, T>, AllocError>
    requires { All (λ r. Balances cutting.now.pieces claims.now.id r) ends.items }
    ensures len { IfOk result (λ r. (vec_len r.seats ≡ vec_len ends.entry) × (vec_len r.shares ≡ vec_len ends.entry)) }
    ensures seats { IfOk result (λ r. All (λ s. s.id ≡ claims.now.id) r.seats.items) }
    ensures spent { IfOk result (λ r. r.ended ≡ true → All (λ s. s.spent ≡ true) r.seats.items) }
    ensures bytes { IfOk result (λ r. r.ended ≡ true → sum_by (λ s. drawn_len cutting.now.pieces s.got) r.seats.items + sum_by (λ s. s.taken) r.shares.items ≡ sum_by (λ s. s.put) r.shares.items) }
{
    let mut seats = Vec::new(alloc);
    let mut shares = Vec::new(alloc);
    let mut ended = true;
    while let Some(end) = ends.pop() {
        let (seat, share, done) = handed_back(end);
        seats.push(seat)?;
        shares.push(share)?;
        ended = ended && done;
    }
    Ok(Returned {
        seats,
        shares,
        ended,
    })
}

/// The handles that a worker gave back, and whether it ended.
fn handed_back<'a, S: Summary, P: Ledger, T: Ledger>(
    end: Result<WorkerEnd<P, T>, WorkerStop<'a, S, P, T>>,
) -> (ClaimSeat, Share<P, T>, bool)
    ensures { (ps : List Span) (id : TableId) → Balances ps id end.entry → IsHandedBack ps id result.0 result.1 result.2 }
{
    match end {
        Ok(WorkerEnd { seat, share }) => (seat, share, true),
        Err(
            WorkerStop {
                seat,
                share,
                hand: _,
                cause: _,
            },
        ) => (seat, share, false),
    }
}
