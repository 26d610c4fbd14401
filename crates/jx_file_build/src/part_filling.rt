// A part of a chunk that is kept until it is whole.
ghost use Rattle.std.specs.Prelude.{◌≡◌, ◌<◌, ◌≤◌, ◌++◌, length, take, IfOk, OnOk};

use std::alloc::AllocError;

/// Adds to a part of a chunk bytes of a slice, until it is a whole chunk. Gives how many it took.
pub(crate) fn fill(part: &mut Vec<u8>, slice: &[u8], size: usize) -> Result<usize, AllocError>
    ensures within { IfOk result (λ n. n ≤ length slice.now) }
    ensures filled { IfOk result (λ n. part.new.items ≡ part.old.items ++ take n slice.now) }
    ensures fits { OnOk result (length part.old.items < size → length part.new.items ≤ size) }
    ensures all { IfOk result (λ n. length part.new.items < size → n ≡ length slice.now) }
{
    let room = size.saturating_sub(part.len());
    let len = if slice.len() < room {
        slice.len()
    } else {
        room
    };
    part.extend_from_slice(&slice[0..len])?;
    Ok(len)
}
