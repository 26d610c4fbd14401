//! An index of a text that is saved beside it, and its bytes: of each chunk of the text where its reading begins, and what its token
//! starts do to open containers. After it tables of the names that the chunks have, by which a look-up skips chunks.
#![tactic(auto)]

mod chunk_size;
mod digest;
mod entry;
mod index;
mod index_decoding;
mod index_spelling;
mod laws;
mod lengths;
mod levels;
mod name_hash;
mod name_tables;
mod saved_text;
mod sum;
mod text_decoding;
mod text_spelling;

pub use chunk_size::ChunkSize;
pub use digest::digest_of;
pub use entry::Entry;
pub use index::Index;
pub use index_decoding::SavedFault;
pub use laws::{levels_of_an_index, sum_of_joined_starts};
pub use levels::{Levels, levels_of};
pub use name_hash::{hash_of_string, hash_of_token};
pub use name_tables::{NameTable, NameTables};
pub use saved_text::SavedText;
pub use sum::Sum;
