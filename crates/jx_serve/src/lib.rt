//! A language server as a state machine: a message goes in, and a reply comes out. It reads nothing and writes nothing.
#![tactic(auto)]

mod bad_lines;
mod fold_words;
mod held;
mod hover;
mod line_block;
mod line_mark;
mod line_sentence;
mod line_table;
mod line_words;
mod mark;
mod near;
mod nested_words;
mod plain;
mod pointer_to;
mod reply;
mod reply_words;
mod selection_words;
mod selections;
mod sentence;
mod server;
mod sorted_out;
mod standing;
mod symbol_words;
mod symbols;
mod under_cursor;
mod value_words;

pub use held::Held;
pub use hover::Hover;
pub use line_mark::{LineMark, LineMarks};
pub use mark::{Mark, mark_of};
pub use reply::{Code, Reply, Trouble};
pub use reply_words::message_of;
pub use selections::{Extent, Selection};
pub use server::{Phase, Server};
pub use sorted_out::{answer_to, broken_stream};
pub use standing::standing_in;
pub use symbols::{Outline, Symbol};
pub use under_cursor::{ValueAt, value_at};
