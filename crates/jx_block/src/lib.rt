//! Blocks of a JSON text: the token starts among 63 of 64 bytes, as words of bits.
#![tactic(auto)]

mod counting;
mod cutting;
mod kinds;
mod levels;
mod masks;
mod numbers;
mod planes;
mod reading;
mod scalars;
mod strings;

pub use counting::counts_of;
pub use cutting::{is_bit, with_behind};
pub use kinds::TokenKinds;
pub use masks::Masks;
pub use reading::read_tokens;
