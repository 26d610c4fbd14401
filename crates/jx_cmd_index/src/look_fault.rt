// Why pointers are not looked up by a saved index.
ghost use Rattle.std.specs.Prelude.{◌≡◌};
ghost use Rattle.jx_cmd_index.specs.inside.Faults.{saved_fault, walk_fault};

use jx_file_index::SavedFault;
use jx_file_query::WalkFault;
use jx_lex::Span;
use std::alloc::AllocError;
use thiserror::Error;

/// Why a look-up by a saved index has no answer. Nothing was written, unless writing failed.
#[derive(Debug, Drop, Error)]
pub enum LookFault {
    /// A read of the index failed. Nothing of the text was read.
    #[error("read failed")]
    SavedRead,
    /// A read of the text failed.
    #[error("read failed")]
    TextRead,
    /// The writer failed, or took no byte.
    #[error("write failed")]
    Write,
    /// An allocation failed.
    #[error("out of memory")]
    Memory,
    /// The bytes given as an index are not an index.
    #[error("{0}")]
    Saved(SavedFault),
    /// The text has another size than the one that was indexed. Nothing of it was read.
    #[error("{size} bytes, and the index is of {indexed}")]
    OtherSize { size: usize, indexed: usize },
    /// The bytes there are not those of the text that was indexed.
    #[error("changed in {}..{}", .0.start, .0.end)]
    Changed(Span),
    /// The index is not that of any text.
    #[error("damaged")]
    NoText,
}

impl From<AllocError> for LookFault {
    ghost use Rattle.jx_cmd_index.specs.declared.look_fault.LookFault.TheVariants.{Memory};

    ghost from_gives = { λ _ fault. fault ≡ Memory };

    fn from(_: AllocError) -> LookFault {
        LookFault::Memory
    }
}

/// The fault of bytes that are not read as an index.
pub(crate) fn saved_fault(fault: SavedFault) -> LookFault
    ensures { result ≡ saved_fault fault }
{
    match fault {
        SavedFault::Memory => LookFault::Memory,
        fault => LookFault::Saved(fault),
    }
}

/// The fault of a walk.
pub(crate) fn walk_fault(fault: WalkFault) -> LookFault
    ensures { result ≡ walk_fault fault }
{
    match fault {
        WalkFault::Changed(span) => LookFault::Changed(span),
        WalkFault::Damaged => LookFault::NoText,
    }
}
