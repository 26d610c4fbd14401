// A part of a text, by its offsets.

/// The bytes from the offset `start` up to the offset `end`, which is not included.
#[derive(Clone, Copy, Debug, PartialEq, Eq)]
pub struct Span {
    pub start: usize,
    pub end: usize,
}
