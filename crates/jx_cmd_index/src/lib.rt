//! The commands of a saved index: the index of a text is written, with tables of its names where these are asked for; and by an index
//! pointers are looked up, or a container is split, in a text of which only the chunks are read that have to be.
#![tactic(auto)]

mod answers;
mod file_part;
mod held_chunk;
mod index_at;
mod index_reader;
mod index_reporting;
mod look_fault;
mod looking;
mod part_lines;
mod parts_reporting;
mod place_lines;
mod places_reporting;
mod read_at;
mod saved_reading;
mod saved_showing;
mod saving;
mod splitting;
mod text_reading;
mod value_lines;
mod value_reading;
mod values_reporting;
mod walking;

pub use index_at::report_index_at;
pub use index_reporting::report_index;
pub use look_fault::LookFault;
pub use parts_reporting::report_parts;
pub use places_reporting::report_places;
pub use read_at::ReadAt;
pub use values_reporting::report_values_by_index;
