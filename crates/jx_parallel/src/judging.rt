// The work of each worker on a text that is judged part by part.
ghost use Rattle.std.specs.Prelude.{◌≡◌, Some, length};

use crate::check_fault::CheckFault;
use crate::part_reader::PartReader;
use crate::pieces::Pieces;
use crate::placed::Placed;
use crate::reading::read_some;
use crate::ruled::Ruled;
use crate::shared_at::SharedAt;
use crate::working::buffer_for;
use std::alloc::{AllocError, Global};
use std::sync::{Mutex, Wait};

/// Parts that workers have judged, in no order.
pub(crate) type Parts<L, K> = Mutex<Vec<Placed<L, K>>>;

/// Stores a part. It waits for the lock.
fn store<L: PartReader, K: Ruled<L::Rule>, R: Wait>(
    rt: &R,
    parts: &Parts<L, K>,
    part: Placed<L, K>,
) -> Result<(), AllocError> {
    let stored = &mut *parts.lock(rt);
    stored.push(part)?;
    Ok(())
}

/// Judges what one read gives there, and returns whether any byte stands there.
fn judge_there<F: SharedAt, L: PartReader, K: Ruled<L::Rule>, R: Wait>(
    rt: &R,
    alloc: Global,
    file: &F,
    rule: &L::Rule,
    parts: &Parts<L, K>,
    buffer: &mut [u8],
    at: usize,
) -> Result<bool, CheckFault<F::Fault>>
    requires text { K.text ≡ F.content file.now }
    requires rule { K.rule ≡ Some rule.now }
    ensures length { length buffer.new ≡ length buffer.old }
{
    let count = read_some(file, buffer, at)?;
    if count == 0 {
        return Ok(false);
    }
    match Placed::<L, K>::judge(alloc, rule, &buffer[..count], at)? {
        None => Ok(true),
        Some(part) => {
            store::<L, K, R>(rt, parts, part)?;
            Ok(true)
        }
    }
}

/// Judges chunks that begin before an offset, until one begins at the end of the text or after it.
fn judge_pieces<F: SharedAt, L: PartReader, K: Ruled<L::Rule>, R: Wait>(
    rt: &R,
    alloc: Global,
    file: &F,
    rule: &L::Rule,
    parts: &Parts<L, K>,
    pieces: &Pieces,
    end: usize,
) -> Result<(), CheckFault<F::Fault>>
    requires text { K.text ≡ F.content file.now }
    requires rule { K.rule ≡ Some rule.now }
{
    let mut buffer = buffer_for(alloc, pieces)?;
    for _ in rt.forever() {
        let Some(at) = pieces.draw(1) else {
            return Ok(());
        };
        if at >= end {
            return Ok(());
        }
        let slice = buffer.as_mut_slice();
        if !judge_there::<F, L, K, R>(rt, alloc, file, rule, parts, slice, at)? {
            return Ok(());
        }
    }
    unreachable!()
}

/// Judges chunks that begin before an offset, and returns whether nothing failed. If an allocation or a read fails, all workers
/// stop: what they did not judge is read when they have ended.
pub(crate) fn judge_some<F: SharedAt, L: PartReader, K: Ruled<L::Rule>, R: Wait>(
    rt: &R,
    alloc: Global,
    file: &F,
    rule: &L::Rule,
    parts: &Parts<L, K>,
    pieces: &Pieces,
    end: usize,
) -> bool
    requires text { K.text ≡ F.content file.now }
    requires rule { K.rule ≡ Some rule.now }
{
    match judge_pieces::<F, L, K, R>(rt, alloc, file, rule, parts, pieces, end) {
        Ok(()) => true,
        Err(_) => {
            pieces.stop();
            false
        }
    }
}
