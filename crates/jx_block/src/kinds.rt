// The tokens that begin in a block, by their kinds.
ghost use Rattle.std.specs.Prelude.{◌≡◌, ◌≤◌, ◌+◌, ℕ, List, IfSome, length};
ghost use Rattle.std.specs.Simd.Lanes.{chunk};
ghost use Rattle.jx_block.specs.Kinds.{AreKinds};

use crate::planes::{equal, scalars_among};
use std::simd::prelude::*;

/// The bytes of a block that begin a token, in a word for each kind. Bit k of a word stands for byte k of the block.
#[derive(Clone, Copy, Debug, PartialEq, Eq)]
pub struct TokenKinds {
    pub commas: u64,
    pub colons: u64,
    pub strings: u64,
    /// Numbers and literals.
    pub scalars: u64,
    pub open_arrays: u64,
    pub close_arrays: u64,
    pub open_objects: u64,
    pub close_objects: u64,
}

/// The kinds of the tokens that begin at these places of a block. It gives nothing where no token can begin with one of
/// these bytes.
#[inline(always)]
pub(crate) fn kinds_of(block: u8x64, starts: u64) -> Option<TokenKinds>
    ensures kinds { IfSome result (λ kinds. (text : List ℕ) (at : ℕ) → at + 64 ≤ length text → block ≡ chunk at 64 text → AreKinds text at starts kinds) }
{
    let commas = starts & equal(block, b',');
    let colons = starts & equal(block, b':');
    let strings = starts & equal(block, b'"');
    let open_arrays = starts & equal(block, b'[');
    let close_arrays = starts & equal(block, b']');
    let open_objects = starts & equal(block, b'{');
    let close_objects = starts & equal(block, b'}');
    let others = starts
        & !(commas | colons | strings | open_arrays | close_arrays | open_objects | close_objects);
    let scalars = scalars_among(block, others);
    if others & !scalars != 0 {
        return None;
    }
    Some(TokenKinds {
        commas,
        colons,
        strings,
        scalars,
        open_arrays,
        close_arrays,
        open_objects,
        close_objects,
    })
}
