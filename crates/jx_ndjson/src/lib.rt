//! JSON Lines and text sequences: the lines or the elements of an input, each judged as a JSON text of its own while the
//! input comes slice by slice.
#![tactic(auto)]

mod element_reader;
mod judged_line;
mod laws;
mod line_end;
mod line_reader;
mod line_tally;
mod lines_run;
mod part_lines;
mod text_lines;
mod whole_lines;

pub use element_reader::{ElementReader, ElementStep};
pub use judged_line::{JudgedLine, LineVerdict};
pub use laws::{
    elements_as_lines, ended_elements_of_a_prefix, ended_elements_of_a_reader,
    ended_lines_of_a_prefix, ended_lines_of_a_reader, line_numbers, unique_answer,
};
pub use line_reader::{LineReader, Step};
pub use line_tally::{LineCounts, LineEnd, LineTally};
pub use lines_run::LinesRun;
pub use part_lines::{lines_of_part, whole_lines_of};
pub use text_lines::texts_in_front;
pub use whole_lines::WholeLines;
