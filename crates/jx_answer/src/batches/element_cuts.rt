// Where a batch of a text sequence is cut: at record separators, so that each element stands in one chunk.
ghost use Rattle.std.specs.Prelude.{◌≡◌, ◌≤◌, length, IfOk};

use jx_claim::{CutFault, Cutting};
use jx_run::separated_part;
use std::alloc::{AllocError, Global};

/// Where the next record separator stands, from an offset on, or the end of the batch.
fn next_separator(batch: &[u8], from: usize) -> usize
    requires from { from ≤ length batch.now }
    ensures ordered { from ≤ result }
    ensures within { result ≤ length batch.now }
{
    match separated_part(&batch[from..batch.len()]) {
        Some(part) => from + part.start,
        None => batch.len(),
    }
}

/// The first record separators after so many bytes, counted from the batch's start and from each of them.
fn element_cuts(alloc: Global, batch: &[u8], piece: usize) -> Result<Vec<usize>, AllocError>
    requires piece { 1 ≤ piece }
{
    let mut cuts = Vec::new(alloc);
    let mut at = 0;
    while batch.len() - at > piece {
        at = next_separator(batch, at + piece);
        if at < batch.len() {
            cuts.push(at)?;
        }
    }
    Ok(cuts)
}

/// A batch in chunks of so many bytes and what is left of an element then. Where there is no memory to list them, the
/// chunks have so many bytes.
pub(crate) fn element_cutting(
    alloc: Global,
    batch: &[u8],
    piece: usize,
) -> Result<Cutting, CutFault>
    requires piece { 1 ≤ piece }
    ensures len { IfOk result (λ c. c.len ≡ length batch.now) }
    ensures front { IfOk result (λ c. c.front ≡ 0) }
{
    match element_cuts(alloc, batch, piece) {
        Ok(cuts) => Cutting::at(alloc, batch.len(), &cuts),
        Err(AllocError) => Cutting::every(batch.len(), piece),
    }
}
