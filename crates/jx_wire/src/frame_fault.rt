use thiserror::Error;

/// Why a stream cannot be read on: where its next frame begins is not known any more.
#[derive(Clone, Copy, Debug, Error, PartialEq, Eq)]
pub enum FrameFault {
    /// A line of a header does not end by CR LF.
    #[error("a header line ends without a carriage return")]
    BareLineFeed,
    /// A line of a header has more bytes than are read.
    #[error("a header line is too long")]
    LongLine,
    /// A line of a header is no field: it has no colon.
    #[error("a header line has no colon")]
    NoColon,
    /// A header gives no length.
    #[error("a header has no Content-Length")]
    NoLength,
    /// A header gives two lengths that differ.
    #[error("a header has two lengths")]
    TwoLengths,
    /// A length is no list of decimal digits.
    #[error("a length is no number")]
    NoNumber,
    /// A length is greater than those that are read.
    #[error("a frame is too long")]
    LongFrame,
}
