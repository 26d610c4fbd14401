// Bytes of an element are copied after what is kept of it.
ghost use Rattle.std.specs.Prelude.{◌≡◌, ◌+◌, ◌≤◌, ◌++◌, [], OnOk, if◌then◌else◌, length, slice_range};

use crate::blocks::BLOCK;
use std::alloc::AllocError;

/// Appends up to 64 bytes of an element, by a copy of 64 that is cut back: that takes less time than a copy of any length.
#[inline(always)]
fn push_short(part: &mut Vec<u8>, bytes: &[u8], from: usize, to: usize) -> Result<(), AllocError>
    requires order { (from ≤ to) × (to ≤ from + 64) }
    requires room { from + 64 ≤ length bytes.now }
    ensures { OnOk result (part.new.items ≡ part.old.items ++ slice_range bytes.now from to) }
{
    part.extend_from_slice(&bytes[from..from + BLOCK])?;
    part.truncate(part.len() - (from + BLOCK - to));
    Ok(())
}

/// Appends a part of an element, or none of it where elements are not kept.
#[inline(always)]
pub(crate) fn push_stretch(
    part: &mut Vec<u8>,
    takes: bool,
    bytes: &[u8],
    from: usize,
    to: usize,
) -> Result<(), AllocError>
    requires { (from ≤ to) × (to ≤ length bytes.now) }
    ensures { OnOk result (part.new.items ≡ part.old.items ++ (if takes then slice_range bytes.now from to else [])) }
{
    if !takes {
        return Ok(());
    }
    if from == to {
        return Ok(());
    }
    if to - from <= BLOCK && bytes.len() - from >= BLOCK {
        push_short(part, bytes, from, to)
    } else {
        part.extend_from_slice(&bytes[from..to])
    }
}
