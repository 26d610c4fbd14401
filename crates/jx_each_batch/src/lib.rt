//! Lines of a container's elements, made by several workers.
#![tactic(auto)]

mod border;
mod sections;
mod taking;

pub use taking::feed_shared;
