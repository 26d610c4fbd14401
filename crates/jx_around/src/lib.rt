//! The values of a JSON text around an offset, in one pass that keeps no rows of other values.
#![tactic(auto)]

mod around;
mod collector;
mod on_tokens;
mod reading;

pub use around::Around;
pub use reading::values_around;
