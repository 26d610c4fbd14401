// The words that are shown of the value under a cursor.
use crate::under_cursor::ValueAt;
use jx_edit::Position;

/// A value, and the positions of both its ends in a document.
#[derive(Debug, Drop)]
pub struct Hover {
    /// A value of the text that stands in the place of the document's bytes.
    pub value: ValueAt,
    /// How many of these bytes are before the fault. The value is shown as far as they go.
    pub kept: usize,
    pub start: Position,
    pub end: Position,
}
