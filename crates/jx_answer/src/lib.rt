//! Answers on whole inputs that several workers read: the rows of a text, the elements of a text sequence, or what pointers
//! lead to in an index.
#![tactic(auto)]

mod batches;
mod bytes;
mod element;
mod fault;
mod find_answer;
mod laws;

pub use batches::asking::read_pieces;
pub use batches::judging::{judge_batch, judge_sequence};
pub use batches::naming::{named_element, named_elements};
pub use batches::reading::{Balance, is_short, read_batch};
pub use bytes::lookups::find_all;
pub use bytes::sequences::{index_sequence, index_sequence_with};
pub use bytes::texts::{index_text, index_text_with, rows_of_text, verdict_of_text};
pub use element::{Element, ElementAnswer};
pub use fault::Fault;
pub use find_answer::Answer;
pub use jx_index::TextAnswer;
pub use laws::{
    answer_with_settings_off, unique_answer, unique_answer_by_settings, unique_element_verdicts,
    unique_elements_by_settings, unique_verdicts_by_settings, verdict_without_a_rule_on_names,
    verdict_without_index,
};
