// The chunks of a long text, of which several workers make parts.
ghost use Rattle.std.specs.Prelude.{◌≡◌, ◌<◌, All, IfOk, length};
ghost use Rattle.jx_edit.specs.inside.Chunks.{text_of, AreFresh};
ghost use Rattle.jx_edit.specs.inside.Parts.{IsMadePart, IsPart};

use crate::chunking::chunk::{Chunk, chunks_of};
use jx_fork::call_each;
use jx_lex::{Depth, Span};
use std::alloc::{AllocError, Global};
use std::thread::Threads;

/// Part of a text, and its chunks.
#[derive(Drop)]
struct MadePart {
    span: Span,
    chunks: Vec<Chunk>,
}

/// The parts of so many bytes, from the last one to the first, none of them longer than `size`.
fn parts_of(alloc: Global, len: usize, size: usize) -> Result<Vec<Span>, AllocError>
    requires { 0 < size }
    ensures { IfOk result (λ parts. All (IsPart len) parts.items) }
{
    let mut parts = Vec::new(alloc);
    let mut end = len;
    while 0 < end {
        let start = (end - 1) / size * size;
        parts.push(Span { start, end })?;
        end = start;
    }
    Ok(parts)
}

/// The chunks of one part.
fn make_part(
    alloc: Global,
    bytes: &[u8],
    span: Span,
    size: usize,
    depth: Depth,
) -> Result<MadePart, AllocError>
    requires part { IsPart (length bytes.now) span }
    requires size { 0 < size }
    ensures { IfOk result (IsMadePart bytes.now depth) }
{
    let chunks = chunks_of(alloc, &bytes[span.start..span.end], size, depth)?;
    Ok(MadePart { span, chunks })
}

/// The chunks of each part, each made in a thread of its own where one can be made.
fn make_parts<R: Threads + Sync>(
    rt: &R,
    alloc: Global,
    bytes: &[u8],
    parts: Vec<Span>,
    size: usize,
    depth: Depth,
) -> Result<Vec<Result<MadePart, AllocError>>, AllocError>
    requires parts { All (IsPart (length bytes.now)) parts.items }
    requires size { 0 < size }
    ensures { IfOk result (λ made. All (λ r. IfOk r (IsMadePart bytes.now depth)) made.items) }
{
    call_each(
        rt,
        alloc,
        parts,
        &|span: Span| -> Result<MadePart, AllocError>
            requires { IsPart (length bytes.now) span × (0 < size) }
            ensures { IfOk result (IsMadePart bytes.entry.now depth) }
        { make_part(alloc, bytes, span, size, depth) },
    )
}

/// The chunks of the parts, of which the last one comes first, and of what they leave.
fn joined(
    alloc: Global,
    bytes: &[u8],
    made: Vec<Result<MadePart, AllocError>>,
    size: usize,
    depth: Depth,
) -> Result<Vec<Chunk>, AllocError>
    requires made { All (λ r. IfOk r (IsMadePart bytes.now depth)) made.items }
    requires size { 0 < size }
    ensures fresh { IfOk result (λ chunks. AreFresh depth chunks.items) }
    ensures bytes { IfOk result (λ chunks. text_of chunks.items ≡ bytes.now) }
{
    let mut made = made;
    let mut chunks = Vec::new(alloc);
    let mut done = 0;
    while let Some(part) = made.pop() {
        let part = part?;
        if part.span.start == done {
            let mut more = part.chunks;
            chunks.append(&mut more)?;
            done = part.span.end;
        }
    }
    let mut rest = chunks_of(alloc, &bytes[done..bytes.len()], size, depth)?;
    chunks.append(&mut rest)?;
    Ok(chunks)
}

/// The chunks of these bytes, none of them longer than `size`, of which so many workers make each a part.
pub(crate) fn chunks_by<R: Threads + Sync>(
    rt: &R,
    alloc: Global,
    bytes: &[u8],
    size: usize,
    depth: Depth,
    workers: usize,
) -> Result<Vec<Chunk>, AllocError>
    requires { 0 < size }
    ensures fresh { IfOk result (λ chunks. AreFresh depth chunks.items) }
    ensures bytes { IfOk result (λ chunks. text_of chunks.items ≡ bytes.now) }
{
    let share = bytes.len() / workers.max(1) / size + 1;
    let parts = parts_of(alloc, bytes.len(), share.saturating_mul(size))?;
    let made = make_parts(rt, alloc, bytes, parts, size, depth)?;
    joined(alloc, bytes, made, size, depth)
}
