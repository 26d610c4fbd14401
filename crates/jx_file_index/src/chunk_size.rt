// How many bytes a chunk has.
ghost use Rattle.std.specs.Prelude.{◌≡◌, ◌↔◌, ◌≤◌, IfSome, IsSome};
ghost use Rattle.jx_file_index.specs.Chunks.{IsChunkSize};

use std::marker::Model;

/// How many bytes each chunk of a text has, but for the last one: a power of two from 64 to 1,048,576.
#[derive(Clone, Copy, Debug, PartialEq, Eq)]
pub struct ChunkSize {
    bytes: usize,
}

impl Model for ChunkSize {
    ghost use Rattle.std.specs.Prelude.{ℕ};
    ghost use Rattle.jx_file_index.specs.Chunks.{IsChunkSize};

    ghost Value = { ℕ };

    ghost view = { λ c. c.bytes };

    ghost invariant = { λ c. IsChunkSize c.bytes };

    ghost inverse = { λ n. record { bytes = n } };
}

impl ChunkSize {
    /// Chunks of so many bytes; none where it is no power of two from 64 to 1,048,576.
    pub fn new(bytes: usize) -> Option<ChunkSize>
        ensures valid { IsSome result ↔ IsChunkSize bytes }
        ensures value { IfSome result (λ c. c ≡ bytes) }
    {
        if bytes >= 64 && bytes <= 1_048_576 && bytes.is_power_of_two() {
            Some(ChunkSize { bytes })
        } else {
            None
        }
    }

    /// The number of bytes that a chunk has.
    pub fn bytes(self) -> usize
        ensures value { result ≡ self }
        ensures within { (64 ≤ result) × (result ≤ 1048576) }
    {
        self.bytes
    }
}
