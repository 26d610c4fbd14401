//! Who works on an input: how many workers, by which runtime, and whom they ask after each step.
#![tactic(auto)]

mod crew;
mod gate;
mod piece_no;
mod workers;

pub use crew::Crew;
pub use gate::{Event, Gate, Go, OpenGate};
pub use piece_no::PieceNo;
pub use workers::Workers;
