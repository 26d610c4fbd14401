// Jobs that each run in a thread of their own.
ghost use Rattle.std.specs.Prelude.{◌≡◌, IfOk, vec_len};
ghost use Rattle.std.specs.Thread.{IsSync, IsSend};
ghost use Rattle.std.specs.Fork.{AcceptsJobs, GivesJobs};
ghost use Rattle.std.specs.Fork.Halves.{GivesFor};

use std::alloc::{AllocError, Global};
use std::thread;
use std::thread::Threads;

/// Calls `f` with each job, in a thread of its own where one can be made, and gives the results in the order of the
/// jobs. The calling thread makes all threads in a row, does no work of its own and waits. On Linux a thread whose
/// maker goes on computing may not begin until the maker's time slice ends. That is longer than most jobs here take.
/// The standard library's calls for many threads keep a job for the calling thread. Where no thread can be made, the
/// calling thread does the job. On `Err`, which means that memory ran out, the results are dropped.
pub fn call_each<R: Threads + Sync, J: Send + Drop, X: Send + Drop, F: Fn(J) -> X + Sync>(
    rt: &R,
    alloc: Global,
    jobs: Vec<J>,
    f: &F,
) -> Result<Vec<X>, AllocError>
    requires { AcceptsJobs F.Fn f.now jobs.items }
    ensures len { IfOk result (λ v. vec_len v ≡ vec_len jobs) }
    ensures each { IfOk result (λ v. GivesJobs F.Fn f.now jobs.items v.items) }
{
    call_first(rt, alloc, f, jobs)
}

/// The last job goes to a new thread; then this thread turns to those before it.
#[cycle(first)]
fn call_first<R: Threads + Sync, J: Send + Drop, X: Send + Drop, F: Fn(J) -> X + Sync>(
    rt: &R,
    alloc: Global,
    f: &F,
    mut jobs: Vec<J>,
) -> Result<Vec<X>, AllocError>
    requires { AcceptsJobs F.Fn f.now jobs.items }
    ensures { IfOk result (λ v. GivesFor F.Fn f.now jobs.items v.items) }
{
    let Some(job) = jobs.pop() else {
        return Ok(Vec::new(alloc));
    };
    let last = move || -> X
        requires { F.pre f.now job }
        ensures { F.post f.entry.now job result }
    { f(job) };
    let before = move || -> Result<Vec<X>, AllocError>
        requires { IsSync R.row × IsSync F.row × IsSend J.row × IsSend X.row × AcceptsJobs F.Fn f.now jobs.items }
        ensures { IfOk result (λ v. GivesFor F.Fn f.entry.now jobs.items v.items) }
    { call_first(rt, alloc, f, jobs) };
    let (one, rest) = thread::join(rt, last, before);
    let mut all = rest?;
    all.push(one)?;
    Ok(all)
}
