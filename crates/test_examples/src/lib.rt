//! Callers of the library, each with a contract that says what it gets. README quotes them.
#![tactic(auto)]

mod example_fault;
mod own_threads;
mod pointers;
mod reports;
mod sequences;
mod texts;

pub use example_fault::ExampleFault;
pub use own_threads::check_on_own_threads;
pub use pointers::{LookUp, look_up};
pub use reports::lines_of_values;
pub use sequences::whole_elements;
pub use texts::check;
