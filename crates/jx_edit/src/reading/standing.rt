// Where a reading stands in a text, by what its chunks keep.
ghost use Rattle.std.specs.Prelude.{◌≡◌, ◌≤◌, ◌<◌, ◌^◌, ◌+◌, ◌*◌, ℕ, true, IfOk, IfSome, length, take};
ghost use Rattle.jx_edit.specs.inside.Chunks.{text_of};
ghost use Rattle.jx_edit.specs.inside.Links.{place_behind, AreLinked};
ghost use Rattle.jx_edit.specs.inside.Places.{came_to, origin};
ghost use Rattle.jx_edit.specs.inside.Sums.{AreLinkedBelow, AreLinkedFrom, AreSums};
ghost use Rattle.jx_run.specs.Reading.{read_text};

use crate::chunking::chunk::Chunk;
use crate::chunking::seam::{Front, front_of};
use crate::chunking::sums::{GROUP, Sum, chunks_before};
use crate::reading::led::{Led, follow_bytes};
use crate::reading::place::Place;
use jx_lex::{Depth, LexState};
use jx_reduce::{Expect, Holder};
use std::alloc::{AllocError, Global};

/// Where a reading is after bytes with which a text begins.
#[derive(Debug, Drop)]
pub struct Stand {
    /// How far it is in a token, or that it stands between two.
    pub state: LexState,
    /// The expectation between tokens.
    pub expect: Expect,
    /// The open containers, outermost first.
    pub holders: Vec<Holder>,
}

/// Whether each chunk of a group that is one of the first so many is linked.
fn are_linked_in(chunks: &[Chunk], group: usize, count: usize) -> bool
    requires { count ≤ length chunks.now }
    ensures { result ≡ true → AreLinkedBelow chunks.now count (group * 64) ((group + 1) * 64) }
{
    let first = chunks_before(group, count);
    let end = first.saturating_add(GROUP).min(count);
    for place in first..end {
        if !chunks[place].is_linked() {
            return false;
        }
    }
    true
}

/// Whether each chunk of a group is linked. None of the chunks is looked at where all are known to be linked.
fn is_group_linked(chunks: &[Chunk], sums: &[Sum], group: usize, count: usize) -> bool
    requires sums { AreSums chunks.now sums.now }
    requires group { group < length sums.now }
    requires within { count ≤ length chunks.now }
    ensures { result ≡ true → AreLinkedBelow chunks.now count (group * 64) ((group + 1) * 64) }
{
    if sums[group].linked {
        return true;
    }
    are_linked_in(chunks, group, count)
}

/// Whether each of the first so many chunks is linked.
fn are_linked(chunks: &[Chunk], sums: &[Sum], count: usize) -> bool
    requires sums { AreSums chunks.now sums.now }
    requires within { count ≤ length chunks.now }
    ensures { result ≡ true → AreLinkedFrom chunks.now 0 count }
{
    for group in 0..sums.len() {
        if !is_group_linked(chunks, sums, group, count) {
            return false;
        }
    }
    true
}

/// The place that the last of so many chunks keeps, or the first one.
fn place_behind<'a>(chunks: &'a [Chunk], first: &'a Place, count: usize, depth: Depth) -> &'a Place
    requires start { first.now ≡ origin }
    requires within { count ≤ length chunks.now }
    requires linked { AreLinked depth origin chunks.now }
    ensures place { result.now ≡ place_behind origin (take count chunks.now) }
    ensures within { length result.now.holders ≤ depth }
{
    if count == 0 {
        return first;
    }
    let last = count - 1;
    let before = &chunks[last];
    before.place()
}

/// Where a reading is after so many bytes of a text, where a text begins with these and the chunks before the last of these bytes
/// are known to be linked, as they are after a verdict. The bytes of one chunk are read.
pub(crate) fn stand_behind(
    alloc: Global,
    depth: Depth,
    chunks: &[Chunk],
    sums: &[Sum],
    at: usize,
) -> Result<Option<Place>, AllocError>
    requires linked { AreLinked depth origin chunks.now }
    requires sums { AreSums chunks.now sums.now }
    requires fits { length (text_of chunks.now) < 2 ^ 64 }
    requires within { at ≤ length (text_of chunks.now) }
    ensures { IfOk result (λ found. IfSome found (λ p. (start : ℕ) → read_text depth start (take at (text_of chunks.now)) ≡ came_to p)) }
{
    let Front { before, bytes, .. } = front_of(chunks, sums, at);
    if !are_linked(chunks, sums, before) {
        return Ok(None);
    }
    let first = Place::origin(alloc);
    let from = place_behind(chunks, &first, before, depth);
    let led = follow_bytes(alloc, from, bytes, depth)?;
    match led {
        Led::On(place) => Ok(Some(place)),
        Led::Stopped(_) | Led::TooDeep(_) => Ok(None),
    }
}
