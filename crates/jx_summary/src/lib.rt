//! Spans, a depth, and summaries of parts of a text that can be joined with their neighbours': the facts of reading
//! that accumulators, workers and chunk queues know.
#![tactic(auto)]

mod depth;
mod join_fault;
mod span;
mod summary;

pub use depth::Depth;
pub use join_fault::JoinFault;
pub use span::Span;
pub use summary::Summary;
