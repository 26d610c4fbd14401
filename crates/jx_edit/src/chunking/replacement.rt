// The bytes that an edit puts into a text.
ghost use Rattle.std.specs.Prelude.{◌≡◌, ◌-◌, ◌^◌, IfOk, drop, length, min};
ghost use Rattle.jx_edit.specs.inside.Replacements.{all_of};
ghost use Rattle.jx_run.specs.Front.{front_of};

use jx_run::{Front, FrontMark, front};
use std::alloc::{AllocError, Global};

/// The bytes that an edit puts in, and a few before and after them that it takes out and puts in again.
#[derive(Clone, Copy)]
pub(crate) struct Replacement<'a> {
    pub(crate) before: &'a [u8],
    pub(crate) bytes: &'a [u8],
    pub(crate) behind: &'a [u8],
}

/// The bytes from a place on.
fn rest_of(bytes: &[u8], at: usize) -> &[u8]
    ensures { result.now ≡ drop at bytes.now }
{
    &bytes[at.min(bytes.len())..]
}

impl<'a> Replacement<'a> {
    /// These bytes alone.
    pub(crate) fn of(bytes: &'a [u8]) -> Replacement<'a>
        ensures { all_of result ≡ bytes.now }
    {
        Replacement {
            before: &[],
            bytes,
            behind: &[],
        }
    }

    /// How many bytes there are, or the most that can be counted.
    pub(crate) fn len(self) -> usize
        ensures { result ≡ min (length (all_of self.entry)) (2 ^ 64 - 1) }
    {
        let some = self.before.len().saturating_add(self.bytes.len());
        some.saturating_add(self.behind.len())
    }

    /// The replacement without the first so many bytes.
    pub(crate) fn without(self, count: usize) -> Replacement<'a>
        ensures { all_of result ≡ drop count (all_of self.entry) }
    {
        let more = count.saturating_sub(self.before.len());
        let most = more.saturating_sub(self.bytes.len());
        Replacement {
            before: rest_of(self.before, count),
            bytes: rest_of(self.bytes, more),
            behind: rest_of(self.behind, most),
        }
    }

    /// The front of a text that begins with them, or has no others. The first three bytes of the replacement decide it.
    pub(crate) fn front(self, alloc: Global, mark: FrontMark) -> Result<Front, AllocError>
        ensures { IfOk result (λ f. f ≡ front_of mark (all_of self.entry)) }
    {
        let mut bytes = Vec::from_slice(alloc, self.before)?;
        bytes.extend_from_slice(&self.bytes[..self.bytes.len().min(3)])?;
        bytes.extend_from_slice(self.behind)?;
        Ok(front(&bytes, mark))
    }
}
