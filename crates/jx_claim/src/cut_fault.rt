use thiserror::Error;

/// Why a text was not cut. Of the faults of its cuts the one at the least index is given, and at one index `Outside`.
#[derive(Clone, Copy, Debug, PartialEq, Eq, Error)]
pub enum CutFault {
    /// The cut at this index is not above 0 and below the length of the text.
    #[error("the cut at index {index} is outside the text")]
    Outside { index: usize },
    /// The cut at this index is not above the one before it.
    #[error("the cut at index {index} is not above the one before it")]
    NotRising { index: usize },
    /// There would be more than 4,294,967,295 chunks.
    #[error("too many pieces")]
    TooManyPieces,
    /// No memory could be had.
    #[error("out of memory")]
    Memory,
}
