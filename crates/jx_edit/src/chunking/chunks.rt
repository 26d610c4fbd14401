// The bytes of a document without a copy.
ghost use Rattle.std.specs.Prelude.{◌≡◌};
ghost use Rattle.jx_edit.specs.inside.Pieces.{pieces};

use crate::chunking::chunk::Chunk;
use std::marker::Model;

/// The bytes of a document, chunk by chunk.
#[derive(Drop)]
pub struct Chunks<'a> {
    // the rest of a byte order mark that is in none of the chunks
    front: &'a [u8],
    rest: &'a [Chunk],
}

impl<'a> Model for Chunks<'a> {
    ghost use Rattle.std.specs.Prelude.{List, ℕ};
    ghost use Rattle.jx_edit.specs.inside.Pieces.{pieces};

    ghost Value = { List (List ℕ) };

    ghost view = { λ c. pieces c.front.now c.rest.now };
}

impl<'a> Chunks<'a> {
    /// The bytes of a front and of the chunks after it.
    pub(crate) fn of(front: &'a [u8], rest: &'a [Chunk]) -> Chunks<'a>
        ensures { result ≡ pieces front.now rest.now }
    {
        Chunks { front, rest }
    }
}

impl<'a> Iterator for Chunks<'a> {
    ghost use Rattle.std.specs.Iterator.{YieldsFirstRef, item_count};

    type Item = &'a [u8];

    ghost next_gives = { YieldsFirstRef (λ pieces. pieces) };

    ghost remaining = { item_count (λ pieces. pieces) };

    fn next(&mut self) -> Option<&'a [u8]> {
        if !self.front.is_empty() {
            let piece = self.front;
            self.front = &[];
            return Some(piece);
        }
        let (first, rest) = self.rest.split_first()?;
        self.rest = rest;
        Some(first.bytes())
    }
}
