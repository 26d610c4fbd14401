//! Tests of the crates below `jx_answer`: each allocation refused in turn, and lists by chance. What the tests
//! above read too is public: inputs, the lines of a table, and a gate that stops workers.
#![tactic(auto)]

pub mod gates;
pub mod inputs;
pub mod lines;
pub mod rows;
#[cfg(test)]
mod tests;
