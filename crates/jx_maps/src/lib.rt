//! Chunk maps: the reading of a part of a JSON text from each lexical state, whatever stands to its left, in segments that
//! its tracks share.
#![tactic(auto)]

mod bundle;
mod chunk_map;
mod items;
mod lane;
mod link;
mod path;
mod reach;
mod segment;
mod side_by_side;
mod track_view;
mod two_tracks;

pub use chunk_map::ChunkMap;
pub use items::{Ends, Marks};
pub use link::Link;
pub use path::Path;
pub use segment::Segment;
pub use track_view::TrackView;
