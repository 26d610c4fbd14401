//! One driver for the reports on bytes that workers read at offsets: what is due of a round is written before the next.
#![tactic(auto)]

mod driver;
mod report_at_fault;
mod rounds;
mod steps;

pub use driver::report_by_rounds;
pub use report_at_fault::ReportAtFault;
pub use steps::step_of;
