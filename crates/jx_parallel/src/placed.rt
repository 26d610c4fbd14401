// A part that was judged by a worker.
ghost use Rattle.std.specs.Prelude.{◌≡◌, Some, IfOk, IfSome};
ghost use Rattle.jx_parallel.specs.Offsets.{StandThere};
ghost use Rattle.jx_parallel.specs.inside.Placed.{IsPlaced};

use crate::part_reader::{Judged, PartReader};
use crate::ruled::Ruled;
use std::alloc::{AllocError, Global};
use std::marker::{Model, PhantomData};

/// A part that was judged by a worker, and where its bytes stand in the text that the type names.
#[derive(Drop)]
pub(crate) struct Placed<L: PartReader, K: Ruled<L::Rule>> {
    pub(crate) part: L::Part,
    pub(crate) at: usize,
    pub(crate) len: usize,
    pub(crate) of: PhantomData<K>,
}

impl<L: PartReader, K: Ruled<L::Rule>> Model for Placed<L, K> {
    ghost use Rattle.jx_parallel.specs.inside.Placed.{PlacedValue, IsPartBy, IsPlaced, placed};

    ghost Value = { PlacedValue L.Part };

    ghost view = { λ p. placed p.part p.at p.len };

    ghost invariant = { λ p. IsPlaced K.text (IsPartBy L.is_part K.rule) (placed p.part p.at p.len) };
}

impl<L: PartReader, K: Ruled<L::Rule>> Placed<L, K> {
    /// Judges what it can of bytes from an offset on. It fails too if the last of them has no offset.
    pub fn judge(
        alloc: Global,
        rule: &L::Rule,
        bytes: &[u8],
        at: usize,
    ) -> Result<Option<Placed<L, K>>, AllocError>
        requires there { StandThere K.text at bytes.now }
        requires rule { K.rule ≡ Some rule.now }
    {
        if bytes.len() >= usize::MAX - at {
            return Err(AllocError);
        }
        let found = L::judge(alloc, rule, bytes, at)?;
        match found {
            None => Ok(None),
            Some(judged) => {
                let Judged { part, from, to } = judged;
                Ok(Some(Placed {
                    part,
                    at: at + from,
                    len: to - from,
                    of: PhantomData,
                }))
            }
        }
    }

    /// The offset at which its bytes begin.
    pub fn at(&self) -> usize
        ensures { result ≡ self.now.at }
    {
        self.at
    }
}
