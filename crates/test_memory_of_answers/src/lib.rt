//! Tests that cross crates: each allocation refused in turn, stops of workers, ends that fail, and every cut.
#![tactic(auto)]

#[cfg(test)]
mod tests;
