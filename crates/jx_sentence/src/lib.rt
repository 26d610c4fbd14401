//! Messages about a place of a text: where a reading stands there, what could stand there instead, and a sentence of
//! both.
#![tactic(auto)]

mod choice;
mod earlier_name;
mod place;
mod sentence;
mod shown;
mod standing;
mod whole;

pub use choice::{Choice, Choices, choices_for};
pub use place::{Place, place_of};
pub use sentence::{
    is_in_string, push_repeated, push_stopped, push_string_open, push_too_deep, push_truncated,
};
pub use shown::{columns, first_columns, last_columns, push_shown};
pub use standing::{Standing, choices_at, innermost, standing_behind};
pub use whole::{offset_of, push_sentence, standing_before};
