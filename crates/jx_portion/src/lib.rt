//! Partial results of parts of a text as bytes: run files that other machines read and join.
#![tactic(auto)]

mod choices;
mod decoding;
mod encoding;
mod fault;
mod fields;
mod forms;
mod numbers;
mod portion;
mod record;
mod spelt;

pub use decoding::decode;
pub use fault::{DecodeFault, Field, RunFault};
pub use portion::{Mismatch, Portion};
pub use record::{HEAD, Head, head_of};
