//! An index of the lines of a text that is saved beside it, and its bytes: of each chunk of the text how many line feeds
//! stand up to its end, and its checksum. By it a line is found by its number, and a few chunks are read.
#![tactic(auto)]

mod counting;
mod decoding;
mod line_index;
mod line_indexer;
mod place;
mod spelling;

pub use line_index::{LineEntry, LineIndex};
pub use line_indexer::LineIndexer;
pub use place::{LinePlace, behind_feeds};
