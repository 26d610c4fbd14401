//! Questions that may be asked of an input, and how it is to be read. It knows nothing of the words that ask for it.
#![tactic(auto)]

mod command;
mod task;
mod values_task;

pub use command::Command;
pub use task::Task;
pub use values_task::ValuesTask;
