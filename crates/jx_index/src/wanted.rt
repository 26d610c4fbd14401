// The tokens of a pointer.
ghost use Rattle.std.specs.Prelude.{◌≡◌, IfOk};
ghost use Rattle.jx_index.specs.Pointers.{tokens};
ghost use Rattle.jx_index.specs.inside.Found.{tokens_of};

use crate::find::token_len;
use crate::names::keep;
use crate::pointer::Pointer;
use crate::units::skip;
use std::alloc::{AllocError, Global};

/// A token of a pointer as it is written.
#[derive(Clone, Copy, Debug)]
pub struct Wanted<'p> {
    pub name: &'p [u8],
}

/// The tokens of a pointer, in order.
pub(crate) fn wanted_of<'p>(
    alloc: Global,
    pointer: &Pointer<'p>,
) -> Result<Vec<Wanted<'p>>, AllocError>
    ensures { IfOk result (λ wanted. tokens_of wanted.items ≡ tokens pointer.now) }
{
    let mut wanted = Vec::new(alloc);
    let mut rest = pointer.bytes();
    while !rest.is_empty() {
        let bytes = skip(rest, 1);
        let len = token_len(bytes);
        wanted.push(Wanted {
            name: keep(bytes, len),
        })?;
        rest = skip(bytes, len);
    }
    Ok(wanted)
}
