//! A shelf on which one thread puts the index of a text while others look.
#![tactic(auto)]

mod shelf;
mod shelf_fault;

pub use shelf::{Shelf, ShelfNote};
pub use shelf_fault::ShelfFault;
