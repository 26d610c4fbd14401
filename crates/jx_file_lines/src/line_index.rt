// The index of a text's lines.
use jx_file_index::ChunkSize;

/// The entry of a chunk of a text.
#[derive(Clone, Copy, Debug, PartialEq, Eq)]
pub struct LineEntry {
    /// How many line feeds the text has up to the end of the chunk.
    pub feeds: usize,
    /// XXH64 of the chunk's bytes.
    pub digest: u64,
}

/// An index of a text's lines.
#[derive(Debug, Drop)]
pub struct LineIndex {
    /// How many bytes each chunk has, but for the last one.
    pub chunk: ChunkSize,
    /// How many bytes the text has.
    pub size: usize,
    /// An entry for each chunk, in order.
    pub entries: Vec<LineEntry>,
}
