//! The elements of a container in a text, as lines that come while the text is read.
#![tactic(auto)]

mod blocks;
mod content;
mod copies;
mod deep;
mod each;
mod elements;
mod flat;
mod joining;
mod laws;
mod making;
mod nest;
mod number;
mod places;
mod runs;
mod section;
mod sign;
mod stand;
mod stretch;
mod target;
mod token;
mod way;

pub use content::LineContent;
pub use each::Each;
pub use laws::{
    lines_due_of_a_prefix, lines_due_of_a_text, lines_due_of_no_byte, lines_taken_and_waiting,
    unique_lines_due,
};
pub use section::Section;
pub use stand::{LineStand, Stage};
pub use target::Target;
