//! The look-up of JSON Pointers (RFC 6901) in one pass over a text, which may be fed slice by slice and need not be kept.
#![tactic(auto)]

mod finder;
mod found_each;
mod held;
mod on_slice;
mod pointer_trie;
mod reading;
mod seek_counts;
mod texts;

pub use finder::Finder;
pub use found_each::{find_each_by, find_each_through};
pub use held::Sought;
pub use on_slice::{Before, OnSlice};
pub use pointer_trie::PointerTrie;
pub use texts::Findings;
