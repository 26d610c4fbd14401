//! Orders that arguments give, in words.
#![tactic(auto)]

mod orders;

pub use orders::{push_order, push_pointers, push_task};
