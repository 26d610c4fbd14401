//! Where reports read from and write to: readers and writers that may fail, what a failure of them is called, and how a report
//! ends.
#![tactic(auto)]

mod end;
mod exit;
mod reading;
mod report_fault;
mod sink;
mod source;
mod writing;

pub use end::End;
pub use exit::Exit;
pub use reading::{fill_buffer, read_to_end};
pub use report_fault::ReportFault;
pub use sink::Sink;
pub use source::Source;
pub use writing::write_whole;
