//! The lexical layer of JSON texts: byte classes, the lexical machine and its token starts, and the scan of a text from
//! a known state.
#![tactic(auto)]

mod alphabet;
mod kind;
mod laws;
mod scanner;

pub use alphabet::class::{Class, class_of};
pub use alphabet::lex_exit::LexExit;
pub use alphabet::machine::step;
pub use alphabet::mark::{Mark, MarkKind};
pub use alphabet::state::{LexState, Step, TokenEnd};
pub use jx_summary::{Depth, JoinFault, Span};
pub use kind::Kind;
pub use laws::{grammar_of_tokens, lex_of_two_parts, skipped_bytes_without_events, state_ordinals};
pub use scanner::ahead::Ahead;
pub use scanner::byte_sets::{digit_end, plain_end};
pub use scanner::counts::TokenCounts;
pub use scanner::scan;
pub use scanner::sink::TokenSink;
pub use scanner::tokens::Tokens;
pub use scanner::whole::{pass_blanks, pass_literal, pass_number, pass_string};
