//! Tests of two threads and more: workers of whom one waits at a gate until another went on, and callers' own threads.
#![tactic(auto)]

#[cfg(test)]
mod tests;
