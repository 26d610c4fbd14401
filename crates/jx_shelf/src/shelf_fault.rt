use jx_index::Indexed;
use thiserror::Error;

/// Why an index was not published. It is handed back.
#[derive(Debug, Drop, Error)]
pub enum ShelfFault<'a> {
    /// Another index stands on the shelf.
    #[error("another index is on the shelf")]
    Taken(Indexed<'a>),
    /// No memory could be had.
    #[error("out of memory")]
    Memory(Indexed<'a>),
}
