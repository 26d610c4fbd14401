use thiserror::Error;

/// Why the words are no command.
#[derive(Debug, Drop, Error)]
pub enum ArgFault {
    /// The words are wrong, or ask for help.
    #[error("{0}")]
    Clap(clap::Error),
    /// More than one of the words for what is read is `-`.
    #[error("error: the word '-' stands for standard input, which is read once")]
    StandardTwice,
    /// There is no such number of workers.
    #[error("error: invalid value '{0}' for '--workers <N>': N is auto, or 1 to 64")]
    Workers(String),
    /// No chunk has so many bytes.
    #[error("error: invalid value for '--chunk <N>': N is no power of two")]
    Chunk,
    /// A row with this word would have other cells.
    #[error("error: invalid value for '--null <WORD>': WORD has a tab, a comma, a quotation mark or a line end")]
    Null,
    /// An allocation failed.
    #[error("jx: out of memory")]
    Memory,
}
