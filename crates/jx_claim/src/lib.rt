//! Who reads which chunk: divisions of a text into chunks, and claims, from which workers take each chunk once.
#![tactic(auto)]

mod claims;
mod cut_fault;
mod cutting;
mod drawn;
mod piece_list;
mod rule;
mod seat;

pub use claims::Claims;
pub use cut_fault::CutFault;
pub use cutting::Cutting;
pub use drawn::Drawn;
pub use seat::ClaimSeat;
