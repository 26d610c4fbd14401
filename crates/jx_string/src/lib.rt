//! Values of JSON strings: characters, and texts in UTF-8 (RFC 8259, section 7).
#![tactic(auto)]

mod characters;
mod laws;
mod reading;
mod spelt;
mod string_fault;
mod texts;
mod tokens;
mod units;

pub use characters::{Characters, between_marks};
pub use laws::units_of_strings;
pub use string_fault::StringFault;
pub use texts::{has_text, unescaped};
pub use tokens::{has_units, token_units};
pub use units::Units;
