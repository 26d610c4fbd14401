//! The wire of a language server: frames, messages, what the strings of messages stand for, and what messages call for.
#![tactic(auto)]

mod call;
mod content;
mod field;
mod frame_fault;
mod frame_reader;
mod laws;
mod members;
mod message;
mod method;
mod number;
mod parameters;
mod positions;
mod quoting;
mod request;
mod request_fault;
mod writing;

pub use call::{Call, Change, Content, Offer, Place, Request, Uri, Versioned};
pub use frame_fault::FrameFault;
pub use frame_reader::{Fed, FrameReader, Part};
pub use jx_string::{StringFault, unescaped};
pub use laws::{frame_round_trip, frames_of_two_parts};
pub use message::{Message, Value};
pub use number::number_of;
pub use quoting::quoted;
pub use request::request_of;
pub use request_fault::RequestFault;
pub use writing::framed;
