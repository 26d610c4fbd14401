ghost use Rattle.std.specs.Prelude.{◌≡◌};
ghost use Rattle.jx_edit.specs.declared.document_fault.DocumentFault.TheVariants.{Memory};

use std::alloc::AllocError;
use thiserror::Error;

/// Why a document was not made, not edited, or its bytes not handed out.
#[derive(Clone, Copy, Debug, PartialEq, Eq, Error)]
pub enum DocumentFault {
    /// The range ends before it starts, or after the last byte.
    #[error("out of bounds")]
    OutOfBounds,
    /// The settings ask for unique names, and a document keeps no names.
    #[error("a document keeps no names")]
    UniqueNames,
    /// An allocation failed.
    #[error("out of memory")]
    Memory,
}

impl From<AllocError> for DocumentFault {
    ghost from_gives = { λ _ fault. fault ≡ Memory };

    fn from(_: AllocError) -> DocumentFault {
        DocumentFault::Memory
    }
}
