ghost use Rattle.std.specs.Prelude.{◌≡◌};
ghost use Rattle.jx_string.specs.declared.string_fault.StringFault.TheVariants.{Memory};

use std::alloc::AllocError;
use thiserror::Error;

/// Why a string was not unescaped.
#[derive(Clone, Copy, Debug, Error, PartialEq, Eq)]
pub enum StringFault {
    /// The bytes are no string (RFC 8259, section 7).
    #[error("no string")]
    NoString,
    /// One of its code units is half of a surrogate pair without the other half, so no UTF-8 stands for it (section 8.2).
    #[error("a lone surrogate")]
    LoneSurrogate,
    /// An allocation failed.
    #[error("out of memory")]
    Memory,
}

impl From<AllocError> for StringFault {
    ghost from_gives = { λ _ fault. fault ≡ Memory };

    fn from(_: AllocError) -> StringFault {
        StringFault::Memory
    }
}
