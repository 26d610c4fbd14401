// Fields of a run file, and lists of them.
ghost use Rattle.std.specs.Prelude.{◌≡◌, ◌++◌, ℕ, List, Option, OnOk};
ghost use Rattle.jx_portion.specs.Reading.{many_at, optional_at, several_at, Gives};
ghost use Rattle.jx_portion.specs.Spelling.{optional, several, AreSpelt, IfThere};

use crate::choices::flag_of;
use crate::fault::DecodeFault;
use std::alloc::{AllocError, Global};

/// A field with one encoding in a run file.
pub(crate) trait Spelt: Copy {
    ghost use Rattle.std.specs.Prelude.{ℕ, List, Result};
    ghost use Rattle.jx_portion.specs.declared.fault.RunFault.{RunFault};

    /// Its encoding.
    ghost spelling: { Self → List ℕ };

    /// The field at the front of bytes, and the bytes after it.
    ghost reading: { List ℕ → Result (Self × List ℕ) RunFault };

    /// It is not too large to be written.
    ghost fits: { Self → Type 0 };

    /// Puts its encoding after these bytes.
    fn put(self, out: &mut Vec<u8>) -> Result<(), AllocError>
        ensures fits { fits self }
        ensures put { OnOk result (out.new.items ≡ out.old.items ++ spelling self) };

    /// Reads it from the front of bytes.
    fn read(bytes: &[u8]) -> Result<(Self, &[u8]), DecodeFault>
        ensures { Gives (λ x. (x.0, x.1.now)) result (reading bytes.now) };
}

/// Reads what may be absent.
#[tactic(auto, unfolding(crate::specs::Reading::optional_at))]
pub(crate) fn read_optional<T: Spelt>(bytes: &[u8]) -> Result<(Option<T>, &[u8]), DecodeFault>
    ensures { Gives (λ x. (x.0, x.1.now)) result (optional_at T.reading bytes.now) }
{
    let (is_there, rest) = flag_of(bytes)?;
    if is_there {
        let (item, rest) = T::read(rest)?;
        Ok((Some(item), rest))
    } else {
        Ok((None, rest))
    }
}

/// Reads so many items. Nothing is reserved by the count: room grows as the items come.
fn read_many<T: Spelt>(
    alloc: Global,
    count: usize,
    bytes: &[u8],
) -> Result<(Vec<T>, &[u8]), DecodeFault>
    ensures { Gives (λ x. (x.0.items, x.1.now)) result (many_at T.reading count bytes.now) }
{
    let mut items = Vec::new(alloc);
    let mut rest = bytes;
    for _ in 0..count {
        let (item, after) = T::read(rest)?;
        items.push(item)?;
        rest = after;
    }
    Ok((items, rest))
}

/// Reads how many items there are, and each of them.
#[tactic(auto, unfolding(crate::specs::Reading::several_at))]
pub(crate) fn read_several<T: Spelt>(
    alloc: Global,
    bytes: &[u8],
) -> Result<(Vec<T>, &[u8]), DecodeFault>
    ensures { Gives (λ x. (x.0.items, x.1.now)) result (several_at T.reading bytes.now) }
{
    let (count, rest) = usize::read(bytes)?;
    read_many(alloc, count, rest)
}

/// Puts what may be absent after these bytes.
pub(crate) fn put_optional<T: Spelt>(item: Option<T>, out: &mut Vec<u8>) -> Result<(), AllocError>
    ensures fits { OnOk result (IfThere T.fits item) }
    ensures put { OnOk result (out.new.items ≡ out.old.items ++ optional T.spelling item) }
{
    match item {
        None => {
            out.push(0)?;
        }
        Some(item) => {
            out.push(1)?;
            item.put(out)?;
        }
    }
    Ok(())
}

/// Puts how many items there are, and each of them, after these bytes.
pub(crate) fn put_several<T: Spelt>(items: &[T], out: &mut Vec<u8>) -> Result<(), AllocError>
    ensures fits { OnOk result (AreSpelt T.fits items.now) }
    ensures put { OnOk result (out.new.items ≡ out.old.items ++ several T.spelling items.now) }
{
    items.len().put(out)?;
    for item in items {
        item.put(out)?;
    }
    Ok(())
}
