//! The calls of C: thin exports over the crates that check and index JSON texts.
#![tactic(auto)]

mod editing;
mod runs;
mod saving;
mod shapes;
mod streams;
mod texts;
