//! Reports on several inputs, one after another: the output for each follows the argument that names it.
#![tactic(auto)]

mod file_fault;
mod naming;
mod opener;
mod reason;
mod reports;
mod status;
mod telling;

pub use file_fault::FileFault;
pub use naming::{named_lines, write_named};
pub use opener::Opener;
pub use reason::Reason;
pub use reports::report_on_each;
pub use status::Status;
pub use telling::tell;
