// Where a place in the text lies among the chunks, and the bytes beside it.
ghost use Rattle.std.specs.Prelude.{◌≡◌, ◌≤◌, ◌<◌, ◌+◌, ◌^◌, ◌++◌, IfOk, length, slice_range};
ghost use Rattle.jx_edit.specs.inside.Chunks.{text_of, IsFront, IsBack, IsSeam};
ghost use Rattle.jx_edit.specs.inside.Sums.{AreSums};

use crate::chunking::chunk::{Chunk, text_of};
use crate::chunking::sums::{Sum, border_before};
use std::alloc::{AllocError, Global};

/// After so many chunks, which have so many bytes, come one or none, in which or at whose end the place lies.
#[derive(Clone, Copy)]
struct Seam {
    before: usize,
    bytes: usize,
    here: usize,
}

/// The bytes from a border between chunks up to a place, and the border: how many chunks and bytes are before it.
#[derive(Clone, Copy)]
pub(crate) struct Front<'a> {
    pub(crate) before: usize,
    pub(crate) offset: usize,
    pub(crate) bytes: &'a [u8],
}

/// The bytes from a place up to a border between chunks, and how many chunks are before the border: those of the chunk in which
/// the place lies, and those of the next one where it is taken too.
#[derive(Clone, Copy)]
pub(crate) struct Back<'a> {
    pub(crate) before: usize,
    pub(crate) here: &'a [u8],
    pub(crate) next: &'a [u8],
}

/// Where a place lies among a few chunks, which are looked at one by one: a border belongs to the chunk before it.
fn seam_in(chunks: &[Chunk], at: usize) -> Seam
    requires fits { length (text_of chunks.now) < 2 ^ 64 }
    requires within { at ≤ length (text_of chunks.now) }
    ensures { IsSeam chunks.now at result.before result.bytes result.here }
{
    let mut bytes = 0usize;
    for place in 0..chunks.len() {
        let next = bytes + chunks[place].bytes().len();
        if at <= next {
            return Seam {
                before: place,
                bytes,
                here: 1,
            };
        }
        bytes = next;
    }
    Seam {
        before: chunks.len(),
        bytes,
        here: 0,
    }
}

/// Where a place lies. The groups before it are passed by their sums.
fn seam_at(chunks: &[Chunk], sums: &[Sum], at: usize) -> Seam
    requires fits { length (text_of chunks.now) < 2 ^ 64 }
    requires sums { AreSums chunks.now sums.now }
    requires within { at ≤ length (text_of chunks.now) }
    ensures { IsSeam chunks.now at result.before result.bytes result.here }
{
    let border = border_before(chunks, sums, at);
    let near = seam_in(&chunks[border.before..], at - border.bytes);
    Seam {
        before: border.before + near.before,
        bytes: border.bytes + near.bytes,
        here: near.here,
    }
}

/// The bytes from a place up to the end of the chunk that has the byte at it, or none where no byte stands there.
pub(crate) fn rest_at<'a>(chunks: &'a [Chunk], sums: &[Sum], at: usize) -> &'a [u8]
    requires fits { length (text_of chunks.now) < 2 ^ 64 }
    requires sums { AreSums chunks.now sums.now }
    ensures part { result.now ≡ slice_range (text_of chunks.now) at (at + length result.now) }
    ensures some { at < length (text_of chunks.now) → 0 < length result.now }
{
    let border = border_before(chunks, sums, at.saturating_add(1));
    rest_in(&chunks[border.before..], at - border.bytes)
}

/// The bytes from a place up to the end of its chunk, among a few chunks, which are looked at one by one.
fn rest_in(chunks: &[Chunk], at: usize) -> &[u8]
    requires fits { length (text_of chunks.now) < 2 ^ 64 }
    ensures part { result.now ≡ slice_range (text_of chunks.now) at (at + length result.now) }
    ensures some { at < length (text_of chunks.now) → 0 < length result.now }
{
    let mut before = 0usize;
    for place in 0..chunks.len() {
        let bytes = chunks[place].bytes();
        let here = at - before;
        if here < bytes.len() {
            return &bytes[here..];
        }
        before += bytes.len();
    }
    &[]
}

/// The bytes of the chunk in which a place lies, or none.
fn bytes_here(chunks: &[Chunk], seam: Seam) -> &[u8]
    requires within { seam.before + seam.here ≤ length chunks.now }
    requires few { seam.here ≤ 1 }
    ensures { result.now ≡ text_of (slice_range chunks.now seam.before (seam.before + seam.here)) }
{
    if seam.here == 0 {
        return &[];
    }
    chunks[seam.before].bytes()
}

/// The bytes up to a place, from the last border before it.
pub(crate) fn front_of<'a>(chunks: &'a [Chunk], sums: &[Sum], at: usize) -> Front<'a>
    requires fits { length (text_of chunks.now) < 2 ^ 64 }
    requires sums { AreSums chunks.now sums.now }
    requires within { at ≤ length (text_of chunks.now) }
    ensures { IsFront chunks.now at result.before result.offset result.bytes.now }
{
    let seam = seam_at(chunks, sums, at);
    let here = bytes_here(chunks, seam);
    let bytes = &here[..at - seam.bytes];
    Front {
        before: seam.before,
        offset: seam.bytes,
        bytes,
    }
}

/// The bytes from one place up to another. No chunk is looked at but those in which they lie.
pub(crate) fn between(
    alloc: Global,
    chunks: &[Chunk],
    sums: &[Sum],
    start: usize,
    end: usize,
) -> Result<Vec<u8>, AllocError>
    requires fits { length (text_of chunks.now) < 2 ^ 64 }
    requires sums { AreSums chunks.now sums.now }
    requires order { start ≤ end }
    requires within { end ≤ length (text_of chunks.now) }
    ensures { IfOk result (λ bytes. bytes.items ≡ slice_range (text_of chunks.now) start end) }
{
    let seam = seam_at(chunks, sums, start);
    let close = seam_at(chunks, sums, end);
    let all = text_of(alloc, &chunks[seam.before..close.before + close.here])?;
    let bytes = Vec::from_slice(alloc, &all[start - seam.bytes..end - seam.bytes])?;
    Ok(bytes)
}

/// The bytes from a place up to the next border.
fn back_of_one<'a>(chunks: &'a [Chunk], sums: &[Sum], at: usize) -> Back<'a>
    requires fits { length (text_of chunks.now) < 2 ^ 64 }
    requires sums { AreSums chunks.now sums.now }
    requires within { at ≤ length (text_of chunks.now) }
    ensures { IsBack chunks.now at result.before result.here.now }
{
    let seam = seam_at(chunks, sums, at);
    let bytes = bytes_here(chunks, seam);
    let here = &bytes[at - seam.bytes..];
    Back {
        before: seam.before + seam.here,
        here,
        next: &[],
    }
}

/// The bytes from a place up to a border after it: the next one, or where so few bytes lie before that, one after it.
pub(crate) fn back_of<'a>(chunks: &'a [Chunk], sums: &[Sum], at: usize, few: usize) -> Back<'a>
    requires fits { length (text_of chunks.now) < 2 ^ 64 }
    requires sums { AreSums chunks.now sums.now }
    requires within { at ≤ length (text_of chunks.now) }
    ensures { IsBack chunks.now at result.before (result.here.now ++ result.next.now) }
{
    let Back { before, here, .. } = back_of_one(chunks, sums, at);
    if few <= here.len() || chunks.len() <= before {
        return Back {
            before,
            here,
            next: &[],
        };
    }
    let next = chunks[before].bytes();
    Back {
        before: before + 1,
        here,
        next,
    }
}
