//! A stream of JSON texts, one behind another, each judged as soon as it has ended, while the input comes slice by slice.
#![tactic(auto)]

mod borders;
mod judged_text;
mod laws;
mod reporting;
mod task;
mod teller;
mod text_reader;

pub use judged_text::JudgedText;
pub use laws::settled_texts_of_a_reader;
pub use reporting::report_texts;
pub use task::TextsTask;
pub use text_reader::{TextReader, TextStep};
