//! One driver for the reports that are written while an input is read: what a read gives is taken and what is due of it is
//! written before the next read.
#![tactic(auto)]

mod by_steps;
mod driver;
mod messages;
mod reporter;

pub use by_steps::{StepTaker, take_by_steps};
pub use driver::report_by;
pub use messages::tell;
pub use reporter::Reporter;
