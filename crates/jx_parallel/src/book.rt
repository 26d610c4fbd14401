// Runs that workers store, joined with their neighbours.
ghost use Rattle.std.specs.Prelude.{◌≡◌, IfOk, IfSome, true};
ghost use Rattle.jx_parallel.specs.inside.Kept.{Touch};
ghost use Rattle.jx_parallel.specs.inside.Lead.{FollowsLead};

use crate::kept::Kept;
use crate::known::Known;
use crate::lead::Lead;
use std::alloc::AllocError;
use std::sync::{Mutex, Wait};

/// Runs that no other one touches.
pub(crate) type Book<K> = Mutex<Vec<Kept<K>>>;

/// Two runs of which the first ends where the second begins.
#[derive(Drop)]
struct Neighbours<K: Known> {
    left: Kept<K>,
    right: Kept<K>,
}

/// Whether a run ends where another one begins.
fn touch<K: Known>(left: &Kept<K>, right: &Kept<K>) -> bool
    ensures { result ≡ true → Touch left.now right.now }
{
    left.end() == right.at()
}

/// Which stored run touches this one.
fn neighbour<K: Known>(runs: &Vec<Kept<K>>, run: &Kept<K>) -> Option<usize> {
    for number in 0..runs.len() {
        if touch(&runs[number], run) || touch(run, &runs[number]) {
            return Some(number);
        }
    }
    None
}

/// Takes a neighbour out, or stores the run.
fn put<K: Known>(runs: &mut Vec<Kept<K>>, run: Kept<K>) -> Result<Option<Neighbours<K>>, AllocError>
    ensures { IfOk result (λ found. IfSome found (λ both. Touch both.left both.right)) }
{
    let number = match neighbour(runs, &run) {
        Some(number) if number < runs.len() => number,
        _ => {
            runs.push(run)?;
            return Ok(None);
        }
    };
    let other = runs.swap_remove(number);
    if touch(&other, &run) {
        return Ok(Some(Neighbours {
            left: other,
            right: run,
        }));
    }
    if touch(&run, &other) {
        return Ok(Some(Neighbours {
            left: run,
            right: other,
        }));
    }
    runs.push(other)?;
    runs.push(run)?;
    Ok(None)
}

/// Stores a run, joined with each neighbour. It waits for the lock.
pub(crate) fn hand_over<K: Known, R: Wait>(
    rt: &R,
    book: &Book<K>,
    run: Kept<K>,
) -> Result<(), AllocError> {
    let mut run = run;
    for _ in rt.forever() {
        let found = put(&mut *book.lock(rt), run)?;
        match found {
            None => return Ok(()),
            Some(Neighbours { left, right }) => run = left.join(right)?,
        }
    }
    unreachable!()
}

/// Takes the run out that begins there.
fn take_from<K: Known>(runs: &mut Vec<Kept<K>>, at: usize) -> Option<Kept<K>> {
    for number in 0..runs.len() {
        if runs[number].at() == at {
            return Some(runs.swap_remove(number));
        }
    }
    None
}

/// Takes the run out that the reader can follow.
pub(crate) fn next_run<K: Known>(runs: &mut Vec<Kept<K>>, lead: &Lead<K>) -> Option<Kept<K>>
    ensures { IfSome result (FollowsLead lead.now) }
{
    if lead.is_in_front() {
        return None;
    }
    let run = take_from(runs, lead.end())?;
    if run.at() == lead.end() {
        Some(run)
    } else {
        None
    }
}

/// Lets the reader follow the joined results of the accumulator. It waits for the lock.
pub(crate) fn follow_all<K: Known, R: Wait>(
    rt: &R,
    book: &Book<K>,
    lead: Lead<K>,
) -> Result<Lead<K>, AllocError> {
    let mut lead = lead;
    for _ in rt.forever() {
        let there = next_run(&mut *book.lock(rt), &lead);
        match there {
            None => return Ok(lead),
            Some(run) => lead = lead.follow(&run)?,
        }
    }
    unreachable!()
}
