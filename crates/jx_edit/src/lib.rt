//! A text that is edited, and its verdict after each edit.
#![tactic(auto)]

mod chunking;
mod document;
mod document_fault;
mod laws;
mod positions;
mod reading;

pub use chunking::chunks::Chunks;
pub use document::Document;
pub use document_fault::DocumentFault;
pub use laws::position_round_trip;
pub use positions::encoding::Encoding;
pub use positions::position::Position;
pub use reading::standing::Stand;
