use jx_answer::Fault;
use jx_claim::CutFault;
use jx_ends::ReportFault;
use std::alloc::AllocError;
use thiserror::Error;

/// Why an example has no answer.
#[derive(Clone, Copy, Debug, PartialEq, Eq, Error)]
pub enum ExampleFault {
    /// The input has too many chunks.
    #[error(transparent)]
    Cut(#[from] CutFault),
    /// There is no answer on the input.
    #[error(transparent)]
    Answer(#[from] Fault),
    /// A report failed.
    #[error(transparent)]
    Report(#[from] ReportFault),
    /// A worker on a thread of the example's own stopped before its end.
    #[error("a worker stopped")]
    Stopped,
    /// The memory of the example itself was refused.
    #[error("out of memory")]
    Memory(#[from(alloc)] AllocError),
}
