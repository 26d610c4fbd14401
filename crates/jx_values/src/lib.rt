//! Reports on values: an input is read to its end, pointers are looked up in it, and the bytes of their values are written.
//! Or the elements of a container are written while the text is read.
#![tactic(auto)]

mod compact;
mod counting;
mod elements;
mod elements_teller;
mod form;
mod gathered;
mod hints;
mod kept;
mod laws;
mod putting;
mod raw;
mod reply;
mod reporting;
mod showing;
mod sought;
mod tally;
mod telling;
mod value;
mod value_reader;
mod writing;

pub use counting::report_count;
pub use elements::{report_elements, report_name_texts};
pub use form::Form;
pub use laws::compact_tree;
pub use reporting::report_values;
pub use telling::{add_told, exit_by, tell, told_of_refusal};
pub use writing::write_values;
