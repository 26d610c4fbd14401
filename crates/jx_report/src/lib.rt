//! Reports: an input is read to its end, answered by several workers, and the output for it is written.
#![tactic(auto)]

mod answering;
mod column;
mod element_words;
mod laws;
mod line_end;
mod name_check;
mod page;
mod pointer_answers;
mod pointer_reader;
mod pointer_reply;
mod reading;
mod reply;
mod reporting;
mod row_pages;
mod row_words;
mod sequence_reader;
mod writing;

pub use laws::unique_output;
pub use pointer_answers::answers_to_pointers;
pub use reporting::{report, report_in_batches};
