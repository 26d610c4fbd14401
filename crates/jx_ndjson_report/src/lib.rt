//! Reports on JSON Lines and on text sequences while they are read: each line that is not valid JSON,
//! or each element, as soon as it is known. The accepted lines may pass through.
#![tactic(auto)]

mod element_teller;
mod first_lines;
mod laws;
mod line_batch;
mod line_passer;
mod line_teller;
mod passing;
mod reporting;
mod task;
mod words;

pub use element_teller::exit_past;
pub use first_lines::report_first_lines;
pub use laws::output_as_of_seq;
pub use passing::pass_lines;
pub use reporting::{report_lines, report_sequence};
pub use task::{BlankRule, ElementsTask, LineForm, LinesTask};
pub use words::{add_counts, add_element, add_line, is_bad};
