// The chunks that an edit makes of others.
ghost use Rattle.std.specs.Prelude.{◌≡◌, ◌≤◌, ◌<◌, ◌-◌, ◌^◌, ◌++◌, IfOk, OnOk, OnErr, length};
ghost use Rattle.jx_edit.specs.inside.Chunks.{loosened, replaced, text_of, AreFresh, IsMade};
ghost use Rattle.jx_edit.specs.inside.Replacements.{all_of};
ghost use Rattle.jx_edit.specs.inside.Sums.{AreSums};

use crate::chunking::chunk::Chunk;
use crate::chunking::filled::Filled;
use crate::chunking::replacement::Replacement;
use crate::chunking::seam::{Back, back_of, front_of};
use crate::chunking::sums::{GROUP, Sum, groups_for, renew};
use crate::positions::encoding::Encoding;
use jx_lex::Depth;
use std::alloc::{AllocError, Global};

/// Chunks that take the place of those from `first` up to `last`.
#[derive(Drop)]
pub(crate) struct Patch {
    pub(crate) first: usize,
    pub(crate) last: usize,
    pub(crate) chunks: Vec<Chunk>,
}

/// The length of each chunk where so many bytes are cut evenly, into chunks of at least this size and less than twice that;
/// fewer bytes are one chunk.
pub(crate) fn piece_for(len: usize, size: usize) -> usize
    requires { 0 < size }
    ensures { 0 < result }
{
    let count = (len / size).max(1);
    (len / count).saturating_add(1)
}

/// So few bytes after an edit are taken together with the next chunk: where half a chunk is not reached otherwise.
fn few_for(size: usize, before: usize, put: usize) -> usize {
    (size / 2).saturating_sub(before).saturating_sub(put)
}

/// The chunks of a front, of a replacement and of a back, one after another. The bytes are copied once.
#[tactic(auto, using(crate::proofs::Texts::together))]
fn chunks_between(
    alloc: Global,
    front: &[u8],
    replacement: Replacement<'_>,
    back: Back<'_>,
    size: usize,
    depth: Depth,
) -> Result<Vec<Chunk>, AllocError>
    requires { 0 < size }
    ensures fresh { IfOk result (λ made. AreFresh depth made.items) }
    ensures bytes { IfOk result (λ made. text_of made.items ≡ (front.now ++ all_of replacement.entry) ++ (back.entry.here.now ++ back.entry.next.now)) }
{
    let len = front.len().saturating_add(replacement.len());
    let more = back.here.len().saturating_add(back.next.len());
    let piece = piece_for(len.saturating_add(more), size);
    let filled = Filled::of(alloc, front, piece, depth)?;
    let filled = filled.with(alloc, replacement.before, piece, depth)?;
    let filled = filled.with(alloc, replacement.bytes, piece, depth)?;
    let filled = filled.with(alloc, replacement.behind, piece, depth)?;
    let filled = filled.with(alloc, back.here, piece, depth)?;
    let filled = filled.with(alloc, back.next, piece, depth)?;
    filled.finish(alloc, depth)
}

/// The chunks with which the bytes from `start` up to `end` give place to others. What stays of the chunks in which both
/// places lie is read anew, and no other.
pub(crate) fn patch_of(
    alloc: Global,
    chunks: &[Chunk],
    sums: &[Sum],
    start: usize,
    end: usize,
    replacement: Replacement<'_>,
    size: usize,
    depth: Depth,
) -> Result<Patch, AllocError>
    requires fits { length (text_of chunks.now) < 2 ^ 64 }
    requires sums { AreSums chunks.now sums.now }
    requires order { start ≤ end }
    requires within { end ≤ length (text_of chunks.now) }
    requires size { 0 < size }
    ensures fresh { IfOk result (λ patch. AreFresh depth patch.chunks.items) }
    ensures made { IfOk result (λ patch. IsMade start end (all_of replacement.entry) chunks.now patch.first patch.last patch.chunks.items) }
{
    let front = front_of(chunks, sums, start);
    let few = few_for(size, front.bytes.len(), replacement.len());
    let back = back_of(chunks, sums, end, few);
    let chunks = chunks_between(alloc, front.bytes, replacement, back, size, depth)?;
    Ok(Patch {
        first: front.before,
        last: back.before,
        chunks,
    })
}

/// The first one gives its link up.
fn loosen(chunks: &mut [Chunk])
    ensures { chunks.new ≡ loosened chunks.old }
{
    if chunks.is_empty() {
        return;
    }
    chunks[0].unlink();
}

/// Puts as many chunks in the place of those from `first` up to `last`, and gives up the link of the next one.
fn exchange(chunks: &mut [Chunk], first: usize, last: usize, made: Vec<Chunk>)
    requires order { first ≤ last }
    requires within { last ≤ length chunks.old }
    requires same { length made.items ≡ last - first }
    ensures { chunks.new ≡ replaced first last made.items chunks.old }
{
    let mut made = made;
    chunks[first..last].swap_with_slice(&mut made);
    if last < chunks.len() {
        chunks[last].unlink();
    }
}

/// Puts chunks in the place of those from `first` up to `last`, and gives up the link of the next one. Where memory is
/// refused nothing changes.
fn replace(
    chunks: &mut Vec<Chunk>,
    first: usize,
    last: usize,
    made: Vec<Chunk>,
) -> Result<(), AllocError>
    requires order { first ≤ last }
    requires within { last ≤ length chunks.old.items }
    ensures ok { OnOk result (chunks.new.items ≡ replaced first last made.items chunks.old.items) }
    ensures err { OnErr result (chunks.new.items ≡ chunks.old.items) }
{
    let mut made = made;
    // All that can fail comes first.
    chunks.reserve(made.len())?;
    let mut behind = chunks.split_off(last)?;
    loosen(&mut behind);
    chunks.truncate(first);
    match chunks.append(&mut made) {
        Ok(()) => {}
        Err(AllocError) => unreachable!(),
    }
    match chunks.append(&mut behind) {
        Ok(()) => {}
        Err(AllocError) => unreachable!(),
    }
    Ok(())
}

/// Puts chunks in the place of those from `first` up to `last`, gives up the link of the next one, and makes the sums anew
/// that are others now: those of the groups in which chunks change, or all after them where the chunks after them move. When
/// out of memory nothing changes.
pub(crate) fn put(
    chunks: &mut Vec<Chunk>,
    sums: &mut Vec<Sum>,
    first: usize,
    last: usize,
    made: Vec<Chunk>,
    counted: Option<Encoding>,
) -> Result<(), AllocError>
    requires order { first ≤ last }
    requires within { last ≤ length chunks.old.items }
    requires sums { AreSums chunks.old.items sums.old.items }
    requires fits { length (text_of (replaced first last made.items chunks.old.items)) < 2 ^ 63 }
    ensures ok { OnOk result (chunks.new.items ≡ replaced first last made.items chunks.old.items) }
    ensures err { OnErr result (chunks.new.items ≡ chunks.old.items) }
    ensures sums { AreSums chunks.new.items sums.new.items }
{
    if made.len() == last - first {
        exchange(chunks, first, last, made);
        let end = (last / GROUP + 1).min(sums.len());
        renew(chunks, sums, first / GROUP, end, counted);
        return Ok(());
    }
    // All that can fail comes first.
    sums.reserve(groups_for(made.len()))?;
    replace(chunks, first, last, made)?;
    let end = groups_for(chunks.len());
    match sums.resize(end, Sum::unknown()) {
        Ok(()) => {}
        Err(AllocError) => unreachable!(),
    }
    renew(chunks, sums, first / GROUP, end, counted);
    Ok(())
}
