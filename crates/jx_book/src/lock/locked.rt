// The state behind the lock of an accumulator.
ghost use Rattle.std.specs.Prelude.{◌≡◌, ◌+◌, ◌<◌, sum_by, vec_len};
ghost use Rattle.jx_book.specs.Runs.{IsApart, run_len};
ghost use Rattle.jx_book.specs.Shares.{IsShared};

use crate::lock::share::Share;
use crate::stored::held::Held;
use crate::stored::state::{BookState, Put};
use jx_summary::Summary;
use std::alloc::Global;
use std::sync::ledger;
use std::sync::ledger::Ledger;

/// The runs, and the ledgers of what every `Share` put and took: their totals are those of the runs.
#[derive(Drop)]
pub struct Locked<'a, S: Summary, P: Ledger, T: Ledger> {
    state: BookState<'a, S>,
    put: ledger::Book<P>,
    taken: ledger::Book<T>,
    ghost put_is: { put.total ≡ state.put },
    ghost taken_is: { taken.total ≡ state.taken },
}

impl<'a, S: Summary, P: Ledger, T: Ledger> Locked<'a, S, P, T> {
    /// The state with no runs, and empty ledgers.
    pub fn new(alloc: Global, put: ledger::Book<P>, taken: ledger::Book<T>) -> Locked<'a, S, P, T>
        requires { (put.total ≡ 0) × (taken.total ≡ 0) }
    {
        Locked {
            state: BookState::new(alloc),
            put,
            taken,
        }
    }

    /// Puts a run, and writes the bytes put or taken into the ledgers.
    pub fn put(&mut self, share: &mut Share<P, T>, run: Held<'a, S>) -> Put<'a, S>
        requires { run.span.start < run.span.end }
        ensures { IsShared share.old run.entry result share.new }
    {
        let span = run.span();
        let answer = self.state.put(run);
        match &answer {
            Put::Stored => share.add_put(
                &mut self.put,
                span.end - span.start,
                self.state.total_put(),
            ),
            Put::Touches(_, neighbour) => {
                let taken = neighbour.span();
                share.add_taken(
                    &mut self.taken,
                    taken.end - taken.start,
                    self.state.total_taken(),
                )
            }
            _ => (),
        }
        answer
    }

    /// Takes every `Share`, which together cover what the runs cover, and gives the runs.
    pub fn into_runs(self, shares: Vec<Share<P, T>>) -> Vec<Held<'a, S>>
        requires some { 0 < vec_len shares }
        requires put { vec_len shares ≡ P.parts }
        requires taken { vec_len shares ≡ T.parts }
        ensures apart { IsApart result.items }
        ensures total { sum_by run_len result.items + sum_by (λ s. s.taken) shares.items ≡ sum_by (λ s. s.put) shares.items }
    {
        let Locked {
            state,
            mut put,
            mut taken,
        } = self;
        let (mut all_put, mut all_taken) = merge_all(shares);
        put.audit(&mut all_put);
        taken.audit(&mut all_taken);
        state.into_runs()
    }
}

/// The ledgers' parts of every `Share`.
fn merge_all<P: Ledger, T: Ledger>(
    mut shares: Vec<Share<P, T>>,
) -> (ledger::Share<P>, ledger::Share<T>)
    requires { 0 < vec_len shares }
    ensures parts { (result.0.parts ≡ vec_len shares) × (result.1.parts ≡ vec_len shares) }
    ensures put { result.0.amount ≡ sum_by (λ s. s.put) shares.items }
    ensures taken { result.1.amount ≡ sum_by (λ s. s.taken) shares.items }
{
    let Some(first) = shares.pop() else {
        unreachable!()
    };
    let (mut all_put, mut all_taken) = first.into_parts();
    while let Some(share) = shares.pop() {
        let (theirs, others) = share.into_parts();
        all_put.merge(theirs);
        all_taken.merge(others);
    }
    (all_put, all_taken)
}
