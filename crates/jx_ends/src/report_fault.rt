ghost use Rattle.std.specs.Prelude.{◌≡◌};

use std::alloc::AllocError;
use thiserror::Error;

/// Why a report gave no answer.
#[derive(Clone, Copy, Debug, PartialEq, Eq, Error)]
pub enum ReportFault {
    /// The reader failed: a call of `read` answered an error, of whatever kind. Nothing was written.
    #[error("jx: read failed")]
    Read,
    /// The writer failed, or took no byte. A beginning of the output was written.
    #[error("jx: write failed")]
    Write,
    /// An allocation failed. Nothing was written.
    #[error("jx: out of memory")]
    Memory,
    /// The input has more than 4,294,967,295 chunks. Nothing was written, and memory was taken for the reading alone.
    #[error("jx: too many pieces")]
    Pieces,
}

impl From<AllocError> for ReportFault {
    ghost use Rattle.jx_ends.specs.declared.report_fault.ReportFault.TheVariants.{Memory};

    ghost from_gives = { λ _ fault. fault ≡ Memory };

    fn from(_: AllocError) -> ReportFault {
        ReportFault::Memory
    }
}
