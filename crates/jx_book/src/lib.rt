//! Runs with their text, the accumulator that threads share, and the workers that fill it.
#![tactic(auto)]

mod lock;
mod stored;
mod workers;

pub use lock::book::{Book, FinishFault};
pub use lock::gathering::gather;
pub use lock::share::Share;
pub use stored::assembling::assemble;
pub use stored::closed::Closed;
pub use stored::gaps::Gaps;
pub use stored::held::{Held, HeldFault};
pub use stored::state::{BookState, Put};
pub use workers::errand::Errand;
pub use workers::reading::{Round, read_beside, read_whole};
pub use workers::worker::{Cause, Hand, WorkerEnd, WorkerStop, work};
