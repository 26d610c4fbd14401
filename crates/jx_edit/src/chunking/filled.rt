// Chunks that are made of bytes as these come.
ghost use Rattle.std.specs.Prelude.{◌≡◌, ◌<◌, ◌++◌, IfOk};
ghost use Rattle.jx_edit.specs.inside.Chunks.{text_of, AreFresh};
ghost use Rattle.jx_edit.specs.inside.Fills.{text_in, IsFilled};

use crate::chunking::chunk::Chunk;
use jx_lex::Depth;
use std::alloc::{AllocError, Global};
use std::mem::replace;

/// Chunks, and the bytes with which the next one has begun.
#[derive(Drop)]
pub(crate) struct Filled {
    pub(crate) chunks: Vec<Chunk>,
    pub(crate) begun: Vec<u8>,
}

impl Filled {
    /// Those of these bytes.
    pub(crate) fn of(
        alloc: Global,
        bytes: &[u8],
        size: usize,
        depth: Depth,
    ) -> Result<Filled, AllocError>
        requires { 0 < size }
        ensures filled { IfOk result (IsFilled depth size) }
        ensures text { IfOk result (λ f. text_in f ≡ bytes.now) }
    {
        let begun = Vec::with_capacity(alloc, size)?;
        let none = Filled {
            chunks: Vec::new(alloc),
            begun,
        };
        none.with(alloc, bytes, size, depth)
    }

    /// The chunks with more bytes after them. Each `size` bytes fill a chunk.
    pub(crate) fn with(
        self,
        alloc: Global,
        bytes: &[u8],
        size: usize,
        depth: Depth,
    ) -> Result<Filled, AllocError>
        requires size { 0 < size }
        requires filled { IsFilled depth size self }
        ensures filled { IfOk result (IsFilled depth size) }
        ensures text { IfOk result (λ f. text_in f ≡ text_in self ++ bytes.now) }
    {
        let Filled {
            mut chunks,
            mut begun,
        } = self;
        let mut rest = bytes;
        while size <= begun.len().saturating_add(rest.len()) {
            let (fits, behind) = rest.split_at(size - begun.len());
            begun.extend_from_slice(fits)?;
            let next = Vec::with_capacity(alloc, size)?;
            let full = replace(&mut begun, next);
            chunks.push(Chunk::of(alloc, full, depth)?)?;
            rest = behind;
        }
        begun.extend_from_slice(rest)?;
        Ok(Filled { chunks, begun })
    }

    /// All chunks. The bytes after them become one more.
    pub(crate) fn finish(self, alloc: Global, depth: Depth) -> Result<Vec<Chunk>, AllocError>
        requires { AreFresh depth self.chunks.items }
        ensures fresh { IfOk result (λ chunks. AreFresh depth chunks.items) }
        ensures bytes { IfOk result (λ chunks. text_of chunks.items ≡ text_in self) }
    {
        let Filled { mut chunks, begun } = self;
        if begun.is_empty() {
            return Ok(chunks);
        }
        chunks.push(Chunk::of(alloc, begun, depth)?)?;
        Ok(chunks)
    }
}
