//! The words of reports: the line of a refusal, and strings that are read as pointers (RFC 6901) with the line of each
//! answer.
#![tactic(auto)]

mod pointer_answer;
mod pointer_words;
mod showing;
mod told;
mod verdict_words;
mod words;

pub use pointer_answer::{
    PointerAnswer, ReadPointer, ReadPointers, answer_at, answers_in, exit_of_answers, read_pointer,
    read_pointers,
};
pub use pointer_words::push_pointer;
pub use showing::{shown_name, write_shown};
pub use told::{add_answer, add_number, add_refusal, add_span};
pub use verdict_words::{exit_of_verdict, push_verdict, write_verdict};
pub use words::{push_byte, push_bytes, push_kind, push_number, push_refusal, push_span};
