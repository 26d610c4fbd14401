//! Answers on a text by its saved index, from chunks of it: where JSON Pointers (RFC 6901) lead, and the parts of an array or an object for so many
//! loaders.
#![tactic(auto)]

mod among;
mod blocks;
mod chunks;
mod cutting;
mod laws;
mod marked;
mod members;
mod part;
mod split;
mod split_passing;
mod split_reaching;
mod split_reading;
mod walk;
mod walk_passing;
mod walk_reaching;
mod walk_reading;

pub use chunks::{chunk_at, is_kept};
pub use cutting::{Aim, Parting};
pub use laws::{children_of_parts, skipped_parts};
pub use members::TextNames;
pub use part::ContainerPart;
pub use split::{PausedSplit, Split};
pub use walk::{PausedWalk, Walk, WalkFault};
