ghost use Rattle.std.specs.Prelude.{◌≡◌, ◌+◌, ◌<◌, ◌≤◌, length, true, false, slice_index_or, All, sum_by, vec_len, IfErr, IfOk, MatchOption};
ghost use Rattle.jx_claim.specs.Claimed.{AllSeats};
ghost use Rattle.jx_claim.specs.Cut.{drawn_len};
ghost use Rattle.jx_book.specs.Runs.{IsApart, run_len};
ghost use Rattle.jx_book.specs.Shares.{IsOtherFrom, IsOf, IsSizedAsStored};
ghost use Rattle.jx_book.specs.Gathered.{IsGathered, IsRest};

use crate::lock::book::{Book, FinishFault};
use crate::lock::share::Share;
use crate::stored::held::Held;
use jx_claim::{ClaimSeat, Claims, Cutting};
use jx_summary::{Depth, Summary};
use std::sync::ledger::Ledger;

/// The one run over all chunks, where every worker ended; or none, exactly where there are no chunks. It takes no
/// memory and waits for nobody.
///
/// A stored run that is not of this text and depth is handed back, as by `Book::finish`, and so is one that begins
/// before the division's front.
pub fn gather<'a, S: Summary, P: Ledger, T: Ledger>(
    book: Book<'a, S, P, T>,
    claims: Claims,
    text: &'a [u8],
    cutting: &Cutting,
    depth: Depth,
    seats: Vec<ClaimSeat>,
    shares: Vec<Share<P, T>>,
) -> Result<Option<Held<'a, S>>, FinishFault<'a, S>>
    requires cutting { cutting.now.len ≡ length text.now }
    requires claims { claims.pieces ≡ length cutting.now.pieces }
    requires seats { AllSeats claims seats.items }
    requires spent { All (λ s. s.spent ≡ true) seats.items }
    requires shares { vec_len shares ≡ P.parts }
    requires bytes { sum_by (λ s. drawn_len cutting.now.pieces s.got) seats.items + sum_by (λ s. s.taken) shares.items ≡ sum_by (λ s. s.put) shares.items }
    ensures ok { IfOk result (λ r. IsGathered cutting.now.pieces text.entry.now depth cutting.now.front r) }
    ensures err { IfErr result (λ f. IsOtherFrom text.entry.now depth cutting.now.front f) }
    ensures size { IfErr result (λ f. IsSizedAsStored (sum_by (λ s. s.put) shares.items) (sum_by (λ s. s.taken) shares.items) f) }
{
    let front = cutting.front();
    let _len = cutting.len();
    claims.close(seats);
    let closed = book.finish(text, depth, shares)?;
    let mut runs = closed.into_runs();
    if begins_before(runs.as_slice(), front) {
        return Err(FinishFault::Other(runs.swap_remove(0)));
    }
    Ok(only_run(runs, text, front, depth))
}

/// Whether the first run begins before an offset. If not, none does.
fn begins_before<S: Summary>(runs: &[Held<'_, S>], front: usize) -> bool
    requires { IsApart runs.now }
    ensures yes { result ≡ true → (0 < length runs.now) × ((d : _) → (slice_index_or runs.now 0 d).span.start < front) }
    ensures no { result ≡ false → All (λ r. front ≤ r.span.start) runs.now }
{
    if runs.is_empty() {
        return false;
    }
    run_begins_before(&runs[0], front)
}

/// Whether a run begins before an offset.
fn run_begins_before<S: Summary>(run: &Held<'_, S>, front: usize) -> bool
    ensures yes { result ≡ true → run.now.span.start < front }
    ensures no { result ≡ false → front ≤ run.now.span.start }
{
    run.span().start < front
}

/// The one run, where the runs fill the text from an offset on.
fn only_run<'a, S: Summary>(
    mut runs: Vec<Held<'a, S>>,
    text: &'a [u8],
    front: usize,
    depth: Depth,
) -> Option<Held<'a, S>>
    requires apart { IsApart runs.items }
    requires of { All (λ r. IsOf text.now depth r) runs.items }
    requires from { All (λ r. front ≤ r.span.start) runs.items }
    requires total { front + sum_by run_len runs.items ≡ length text.now }
    ensures { MatchOption result (length text.entry.now ≡ front) (λ h. (front < length text.entry.now) × IsRest text.entry.now depth front h) }
{
    match runs.pop() {
        Some(run) => Some(run),
        None => None,
    }
}
