//! The verdict on a text that several threads read at offsets, each for itself.
#![tactic(auto)]

mod book;
mod by_parts;
mod check;
mod check_fault;
mod finishing;
mod judging;
mod kept;
mod known;
mod lead;
mod part_reader;
mod pieces;
mod placed;
mod reading;
mod ruled;
mod shared_at;
mod taking;
mod working;

pub use by_parts::{read_by_parts, read_round};
pub use check::check_at;
pub use check_fault::CheckFault;
pub use part_reader::{Judged, PartReader, PartRule};
pub use shared_at::SharedAt;
