ghost use Rattle.std.specs.Prelude.{◌*◌, ◌≤◌, vec_capacity};

use crate::row_words::LONGEST_ROW;
use std::alloc::{AllocError, Global};

/// How many rows a page has room for, at the least. Their lines take about a millisecond: a thread may take as long to begin.
pub(crate) const LEAST_PAGE: usize = 16_384;

/// How many rows a page has room for, at the most. Their lines have some 4 MB.
pub(crate) const GREATEST_PAGE: usize = 65_536;

/// The lines of rows that follow one another, in room that is taken for them beforehand.
#[derive(Drop)]
pub(crate) struct Page {
    pub(crate) lines: Vec<u8>,
    /// For how many rows there is room.
    pub(crate) size: usize,
    /// How many pages of a round come before it.
    pub(crate) place: usize,
    /// The row of its first line.
    pub(crate) first: usize,
    /// The row behind that of its last line.
    pub(crate) next: usize,
    ghost room: { size * 156 ≤ vec_capacity lines },
}

impl Page {
    /// A page without lines so far.
    pub(crate) fn new(alloc: Global, size: usize, place: usize) -> Result<Page, AllocError>
        requires { size ≤ GREATEST_PAGE }
    {
        let lines = Vec::with_capacity(alloc, size * LONGEST_ROW)?;
        Ok(Page {
            lines,
            size,
            place,
            first: 0,
            next: 0,
        })
    }
}
