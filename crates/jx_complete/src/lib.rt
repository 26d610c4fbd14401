//! Texts in place of bytes that are not valid JSON: the bytes before the fault, with fixed bytes that end them.
#![tactic(auto)]

mod closing;
mod completed;

pub use completed::{Completed, complete};
