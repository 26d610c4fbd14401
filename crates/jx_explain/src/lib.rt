//! Refusals in words for people: where a text stops being one, what stands there, and what could stand there instead.
#![tactic(auto)]

mod excerpt;
mod explain;
mod explainer;
mod first_pass;
mod hint;
mod notes;
mod object;
mod position;
mod reached;
mod reporting;
mod scene;
mod seen;
mod sentence;
mod trail;

pub use explain::{Form, Marking, explained};
pub use explainer::Explainer;
pub use first_pass::exit_of_input;
pub use object::object_front;
pub use reporting::report_explained;
