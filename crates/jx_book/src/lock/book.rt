ghost use Rattle.std.specs.Prelude.{◌≡◌, ◌+◌, ◌<◌, All, sum_by, vec_len, IfOk, IfErr};
ghost use Rattle.jx_book.specs.Runs.{IsApart, run_len};
ghost use Rattle.jx_book.specs.Shares.{share, IsShared, IsOther, IsOf, IsSizedAsStored};
ghost use Rattle.jx_book.specs.HandOver.{Core};

use crate::lock::locked::Locked;
use crate::lock::share::Share;
use crate::stored::closed::Closed;
use crate::stored::held::Held;
use crate::stored::state::Put;
use jx_crew::Workers;
use jx_summary::{Depth, Summary};
use std::alloc::{AllocError, Global};
use std::fmt::Debug;
use std::marker::Model;
use std::sync::ledger::{Blank, Ledger};
use std::sync::{Mutex, Wait, ledger};
use thiserror::Error;

/// Runs that threads put. `P` and `T` name the ledgers of the bytes put and of the bytes taken out.
#[derive(Drop)]
pub struct Book<'a, S: Summary, P: Ledger, T: Ledger> {
    locked: Mutex<Locked<'a, S, P, T>>,
}

impl<'a, S: Summary, P: Ledger, T: Ledger> Model for Book<'a, S, P, T> {
    ghost use Rattle.std.specs.Prelude.{◌≡◌, ◌<◌};

    ghost Value = { Unit {0} };

    ghost view = { λ b. tt };

    ghost invariant = { λ b. (0 < P.parts) × (T.parts ≡ P.parts) };
}

impl<'a, S: Summary, P: Ledger, T: Ledger> Book<'a, S, P, T> {
    /// An empty accumulator, and a share for each worker. The `blanks` name the ledgers of its totals. It fails only
    /// when out of memory.
    ///
    /// With it comes the law of the hand-over machine. Whatever the workers do in whatever order, each chunk is
    /// untaken, in one hand or in one stored block, and in no two of these.
    pub fn open(
        alloc: Global,
        put: Blank,
        taken: Blank,
        workers: Workers,
    ) -> Result<(Book<'a, S, P, T>, Vec<Share<P, T>>), AllocError>
        requires put { (put.name ≡ P.name) × (put.parts ≡ P.parts) × (put.parts ≡ workers) }
        requires taken { (taken.name ≡ T.name) × (taken.parts ≡ T.parts) × (taken.parts ≡ workers) }
        ensures len { IfOk result (λ r. vec_len r.1 ≡ workers) }
        ensures shares { IfOk result (λ r. All (λ s. s ≡ share 0 0) r.1.items) }
        ensures core { Core }
    {
        let (put, all_put) = put.open::<P>();
        let (taken, all_taken) = taken.open::<T>();
        let shares = deal(alloc, all_put, all_taken, workers.count())?;
        let locked = Mutex::new(Locked::new(alloc, put, taken));
        Ok((Book { locked }, shares))
    }

    /// Stores a run, or takes a neighbour out and hands over both, as `BookState::put` does. It adds to the share just
    /// the bytes put or taken. It waits for the lock.
    pub fn put(&self, rt: &impl Wait, share: &mut Share<P, T>, run: Held<'a, S>) -> Put<'a, S>
        requires { run.span.start < run.span.end }
        ensures { IsShared share.old run.entry result share.new }
    {
        self.locked.lock(rt).put(share, run)
    }

    /// Takes every `Share`, and gives the stored runs in order, each now carrying this text. Their lengths add up to
    /// the bytes put minus the bytes taken. It takes no memory and waits for nobody.
    ///
    /// A stored run that is not of this text and depth is handed back; the other runs are freed. Which runs stood
    /// there, the lock forgets: of the run the contract says that it is not empty, and no longer than the bytes put
    /// minus the bytes taken.
    pub fn finish(
        self,
        text: &'a [u8],
        depth: Depth,
        shares: Vec<Share<P, T>>,
    ) -> Result<Closed<'a, S>, FinishFault<'a, S>>
        requires { vec_len shares ≡ P.parts }
        ensures apart { IfOk result (λ c. IsApart c) }
        ensures of { IfOk result (λ c. All (λ r. IsOf text.entry.now depth r) c) }
        ensures total { IfOk result (λ c. sum_by run_len c + sum_by (λ s. s.taken) shares.items ≡ sum_by (λ s. s.put) shares.items) }
        ensures err { IfErr result (λ f. IsOther text.entry.now depth f) }
        ensures size { IfErr result (λ f. IsSizedAsStored (sum_by (λ s. s.put) shares.items) (sum_by (λ s. s.taken) shares.items) f) }
    {
        let Book { locked } = self;
        let runs = locked.into_inner().into_runs(shares);
        carry_all(runs, text, depth)
    }
}

/// Why an accumulator was not finished.
#[derive(Debug, Drop, Error)]
#[error_bound(S: Debug)]
pub enum FinishFault<'a, S: Summary> {
    /// A stored run has another depth, lies outside the text handed in, or has other bytes at its span there. From
    /// `gather`, it may also begin before the division's front.
    #[error("a stored run is of another text or depth")]
    Other(Held<'a, S>),
}

/// A share for each worker.
fn deal<P: Ledger, T: Ledger>(
    alloc: Global,
    mut put: ledger::Share<P>,
    mut taken: ledger::Share<T>,
    count: u8,
) -> Result<Vec<Share<P, T>>, AllocError>
    requires put { (put.parts ≡ count) × (put.amount ≡ 0) }
    requires taken { (taken.parts ≡ count) × (taken.amount ≡ 0) }
    ensures len { IfOk result (λ v. vec_len v ≡ count) }
    ensures shares { IfOk result (λ v. All (λ s. s ≡ share 0 0) v.items) }
{
    let mut shares = Vec::new(alloc);
    for _i in 0..count {
        let mine = Share::new(put.split_off(1, 0), taken.split_off(1, 0));
        shares.push(mine)?;
    }
    Ok(shares)
}

/// Lets each run carry this text.
fn carry_all<'a, S: Summary>(
    mut runs: Vec<Held<'a, S>>,
    text: &'a [u8],
    depth: Depth,
) -> Result<Closed<'a, S>, FinishFault<'a, S>>
    requires { IsApart runs.items }
    ensures of { IfOk result (λ c. All (λ r. IsOf text.entry.now depth r) c) }
    ensures total { IfOk result (λ c. sum_by run_len c ≡ sum_by run_len runs.entry.items) }
    ensures apart { IfOk result (λ c. IsApart c) }
    ensures err { IfErr result (λ f. IsOther text.entry.now depth f) }
    ensures size { IfErr result (λ f. IsSizedAsStored (sum_by run_len runs.entry.items) 0 f) }
{
    let mut i = 0;
    while i < runs.len() {
        if !runs[i].carry(text, depth) {
            return Err(FinishFault::Other(runs.swap_remove(i)));
        }
        i += 1;
    }
    Ok(Closed::new(runs))
}
