// The bytes of a name that the edge of a slice may cut.
ghost use Rattle.std.specs.Prelude.{◌≡◌, ◌+◌, ◌++◌, ◌<◌, ◌≤◌, ℕ, List, Some, drop, length, slice_range, true, IfOk};
ghost use Rattle.jx_lex.specs.declared.alphabet.mark.Mark.{Mark};

use jx_lex::Mark;
use std::alloc::AllocError;

/// An offset of a slice that stands from `base` on, in the whole text.
#[inline(always)]
pub fn moved(base: usize, at: usize) -> Result<usize, AllocError>
    ensures { IfOk result (λ offset. offset ≡ base + at) }
{
    base.checked_add(at).ok_or(AllocError)
}

/// The bytes from one offset to another.
#[inline(always)]
fn part(bytes: &[u8], from: usize, to: usize) -> Result<&[u8], AllocError>
    ensures part { IfOk result (λ part. part.now ≡ slice_range bytes.now from to) }
    ensures order { IfOk result (λ _. from ≤ to) }
    ensures within { IfOk result (λ _. to ≤ length bytes.now) }
{
    if from <= to && to <= bytes.len() {
        Ok(&bytes[from..to])
    } else {
        Err(AllocError)
    }
}

/// The bytes of a token that stands whole in a slice, from one of its offsets to another. They are those of the text,
/// where the slice stands from `base` on.
#[inline(always)]
pub fn bytes_there(slice: &[u8], from: usize, to: usize) -> Result<&[u8], AllocError>
    ensures { IfOk result (λ bytes. (before future : List ℕ) (base : ℕ) → base ≡ length before
        → bytes.now ≡ slice_range ((before ++ slice.now) ++ future) (base + from) (base + to)) }
{
    part(slice, from, to)
}

/// The bytes of a token that begins at `from`, if they are wanted, up to its end at an offset of a slice that stands from `base`
/// on. Where it begins before the slice, `name` has its bytes there.
#[inline(always)]
pub fn token_bytes<'b>(
    name: &'b mut Vec<u8>,
    slice: &'b [u8],
    base: usize,
    from: usize,
    at: usize,
    wanted: bool,
) -> Result<&'b [u8], AllocError>
    ensures { IfOk result (λ bytes. wanted ≡ true → (before future : List ℕ) → base ≡ length before → (from < base → name.old.items ≡ drop from before)
        → bytes.now ≡ slice_range ((before ++ slice.now) ++ future) from (base + at)) }
{
    if from >= base {
        return part(slice, from - base, at);
    }
    if wanted {
        let more = part(slice, 0, at)?;
        name.extend_from_slice(more)?;
    }
    Ok(name)
}

/// The bytes of a token that has begun, if they are wanted, up to the end of a slice that stands from `base` on. Where it begins
/// before the slice, `name` has its bytes there.
pub fn held_name(
    name: Vec<u8>,
    slice: &[u8],
    base: usize,
    begun: Option<Mark>,
    wanted: bool,
) -> Result<Vec<u8>, AllocError>
    ensures { IfOk result (λ held. wanted ≡ true → (m : Mark) → begun ≡ Some m → (before : List ℕ) → base ≡ length before → (m.at < base → name.items ≡ drop m.at before)
        → held.items ≡ drop m.at (before ++ slice.now)) }
{
    let mut held = name;
    let Some(mark) = begun else {
        return Ok(held);
    };
    if !wanted {
        return Ok(held);
    }
    if mark.at < base {
        held.extend_from_slice(slice)?;
        return Ok(held);
    }
    let more = part(slice, mark.at - base, slice.len())?;
    held.clear();
    held.extend_from_slice(more)?;
    Ok(held)
}
