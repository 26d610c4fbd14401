//! The reports of `jx check`, `jx seq` and `jx lines` on bytes that several threads read at offsets, each for itself.
#![tactic(auto)]

mod elements_part;
mod elements_reader;
mod elements_report;
mod lines_reader;
mod lines_report;
mod lines_words;
mod reporting;

pub use lines_report::report_lines_at;
pub use reporting::{is_shared, report_at};
