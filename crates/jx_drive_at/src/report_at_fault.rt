use std::alloc::AllocError;

/// Why a report on bytes that are read at offsets gave no answer.
#[derive(Debug, Drop)]
pub enum ReportAtFault<E> {
    /// An allocation failed. What is due of a beginning was written where output is due while the bytes are read, and else nothing.
    Memory,
    /// A read failed, for this reason. As much was written.
    Read(E),
    /// The writer failed, or took no byte. A beginning of the output was written.
    Write,
}

impl<E> From<AllocError> for ReportAtFault<E> {
    ghost use Rattle.std.specs.Prelude.{◌≡◌};
    ghost use Rattle.jx_drive_at.specs.declared.report_at_fault.ReportAtFault.TheVariants.{Memory};

    ghost from_gives = { λ _ fault. fault ≡ Memory };

    fn from(_: AllocError) -> ReportAtFault<E> {
        ReportAtFault::Memory
    }
}
