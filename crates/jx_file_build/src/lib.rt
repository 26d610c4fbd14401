//! An index of a text and the tables of its names, made while the text is fed. Threads may read its chunks before.
#![tactic(auto)]

mod blocks;
mod chunk_reading;
mod chunk_sum;
mod held;
mod indexer;
mod likely;
mod lone_chunk;
mod named_chunks;
mod on_chunk;
mod open_kinds;
mod part_filling;
mod sink_pair;
mod standing;

pub use indexer::Indexer;
pub use lone_chunk::LoneChunk;
