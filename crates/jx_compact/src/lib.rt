//! The compact form of a JSON value: its tokens, one after another, each with the bytes that it has.
#![tactic(auto)]

mod alone;
mod compacting;
mod laws;
mod place;
mod placing;

pub use compacting::{compact, compact_onto};
pub use laws::{compact_idempotence, compact_of_two_parts, compact_without_line_ends};
pub use place::{Place, is_kept, next};
pub use placing::{compact_into, compact_len};
