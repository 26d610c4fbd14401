//! The command of an index of lines: the index of the lines of what is read is written.
#![tactic(auto)]

mod index_reporting;
mod line_reading;

pub use index_reporting::report_line_index;
