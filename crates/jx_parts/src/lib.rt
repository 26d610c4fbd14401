//! One text in parts: a part is read to its run, runs are joined, and the verdict on the whole is written. It reads and writes
//! through the ends of a report, in memory for one batch of bytes, or for two runs.
#![tactic(auto)]

mod joining;
mod next_portion;
mod parts_fault;
mod portion_reading;
mod record_reading;
mod record_writing;
mod reporting;

pub use parts_fault::{PartsFault, RunRefusal};
pub use reporting::{report_joined, report_part, report_whole};
