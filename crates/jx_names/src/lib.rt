//! JSON texts whose objects may repeat no name (RFC 8259, section 4), fed slice by slice, without the text.
#![tactic(auto)]

mod held;
mod key_pairs;
mod key_table;
mod name_bytes;
mod name_key;
mod name_lists;
mod names_reader;
mod on_slice;
mod open_names;

pub use names_reader::NamesReader;
