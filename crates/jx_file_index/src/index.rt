// The index that is saved beside a text.
use crate::chunk_size::ChunkSize;
use crate::entry::Entry;
use jx_run::Settings;

/// An index of a text. It has for each chunk where its reading begins, and for neighbours what their token starts do to
/// open containers.
#[derive(Debug, Drop)]
pub struct Index {
    /// By which the text is one.
    pub settings: Settings,
    /// How many bytes each chunk has, but for the last one.
    pub chunk: ChunkSize,
    /// How many bytes the text has.
    pub size: usize,
    /// An entry for each chunk, in order, then one for each 64 of these, and so on up to the level below the top. Nothing
    /// where the text is one chunk.
    pub entries: Vec<Entry>,
    /// The one entry of the top level.
    pub top: Entry,
}
