//! Tests of commands and reports: each allocation refused in turn, and workers who stop.
#![tactic(auto)]

#[cfg(test)]
mod tests;
