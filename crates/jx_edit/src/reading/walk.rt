// Where chunks lead, one after another.
ghost use Rattle.std.specs.Prelude.{◌≡◌, ◌≤◌, ◌<◌, ◌+◌, ◌*◌, ◌^◌, IfOk, IfSome, IsNone, length, map, take};
ghost use Rattle.jx_edit.specs.inside.Chunks.{bytes_of, text_of};
ghost use Rattle.jx_edit.specs.inside.Leads.{reading_in, IsLedWithin};
ghost use Rattle.jx_edit.specs.inside.Links.{bytes_at, place_behind, AreLinked, IsReached, IsWalked};
ghost use Rattle.jx_edit.specs.inside.Places.{came_to, origin, read_on};
ghost use Rattle.jx_edit.specs.inside.Sums.{AreLinkedFrom, AreSums};
ghost use Rattle.jx_run.specs.Laws.{verdict_of};
ghost use Rattle.jx_run.specs.declared.texts.verdict.Verdict.TheVariants.{Refused};
ghost use Rattle.jx_run.specs.Verdict.{Judged};

use crate::chunking::chunk::Chunk;
use crate::chunking::sums::{GROUP, Sum, chunks_before};
use crate::reading::led::Led;
use crate::reading::place::Place;
use jx_lex::Depth;
use jx_run::{Refusal, Verdict, reader_and_grammar};
use std::alloc::{AllocError, Global};

/// The result of reading one chunk more.
#[derive(Clone, Copy)]
enum Step {
    On,
    /// The offsets count from the start of the input.
    Stopped(usize),
    TooDeep(usize),
}

/// Where a chunk leads from the place that the one before it keeps.
fn led_at(chunks: &[Chunk], first: &Place, depth: Depth, number: usize) -> Result<Led, AllocError>
    requires start { first.now ≡ origin }
    requires number { number < length chunks.now }
    requires linked { AreLinked depth origin chunks.now }
    ensures reads { IfOk result (λ led. reading_in led ≡ read_on depth (place_behind origin (take number chunks.now)) (bytes_at chunks.now number)) }
    ensures within { IfOk result (IsLedWithin depth) }
{
    if number == 0 {
        let led = chunks[number].follow(first)?;
        return Ok(led);
    }
    let last = number - 1;
    let before = &chunks[last];
    let place = before.place();
    let led = chunks[number].follow(place)?;
    Ok(led)
}

/// The verdict on a text that was read up to the place that the last chunk keeps.
fn verdict_behind(chunks: &[Chunk], first: &Place) -> Verdict
    requires { first.now ≡ origin }
    ensures { result ≡ verdict_of (came_to (place_behind origin chunks.now)) }
{
    let count = chunks.len();
    if count == 0 {
        return first.verdict();
    }
    let last = count - 1;
    let chunk = &chunks[last];
    let place = chunk.place();
    place.verdict()
}

/// Links a chunk to the place to which it leads. The next one keeps its link where that is the place from which it was linked.
fn link_at(chunks: &mut [Chunk], sums: &mut [Sum], depth: Depth, number: usize, to: Place)
    requires number { number < length chunks.old }
    requires linked { AreLinked depth origin chunks.old }
    requires sums { AreSums chunks.old sums.old }
    requires within { length to.holders ≤ depth }
    requires leads { read_on depth (place_behind origin (take number chunks.old)) (bytes_at chunks.old number) ≡ came_to to }
    ensures linked { AreLinked depth origin chunks.new }
    ensures bytes { map bytes_of chunks.new ≡ map bytes_of chunks.old }
    ensures place { place_behind origin (take (number + 1) chunks.new) ≡ to }
    ensures on { AreLinkedFrom chunks.old 0 number → AreLinkedFrom chunks.new 0 (number + 1) }
    ensures sums { AreSums chunks.new sums.new }
    ensures count { length sums.new ≡ length sums.old }
{
    if chunks[number].link(to) {
        return;
    }
    let next = number + 1;
    if next < chunks.len() {
        chunks[next].unlink();
        sums[next / GROUP].linked = false;
    }
}

/// Goes on with the next chunk, where the text of those before it was read. A chunk that is linked is not followed.
fn go_on(
    chunks: &mut [Chunk],
    sums: &mut [Sum],
    first: &Place,
    depth: Depth,
    number: usize,
    offset: usize,
    start: usize,
) -> Result<Step, AllocError>
    requires first { first.now ≡ origin }
    requires number { number < length chunks.old }
    requires walked { IsWalked depth start number chunks.old }
    requires sums { AreSums chunks.old sums.old }
    requires offset { offset ≡ start + length (text_of (take number chunks.old)) }
    requires fits { start + length (text_of chunks.old) < 2 ^ 64 }
    ensures linked { AreLinked depth origin chunks.new }
    ensures bytes { map bytes_of chunks.new ≡ map bytes_of chunks.old }
    ensures sums { AreSums chunks.new sums.new }
    ensures count { length sums.new ≡ length sums.old }
    ensures reached { IfOk result (IsReached depth start (number + 1) chunks.new) }
{
    reader_and_grammar();
    if chunks[number].is_linked() {
        return Ok(Step::On);
    }
    let led = led_at(chunks, first, depth, number)?;
    match led {
        Led::On(place) => {
            link_at(chunks, sums, depth, number, place);
            Ok(Step::On)
        }
        Led::Stopped(at) => Ok(Step::Stopped(offset.saturating_add(at))),
        Led::TooDeep(at) => Ok(Step::TooDeep(offset.saturating_add(at))),
    }
}

/// Goes on with the chunks of a group, one after another, where the text of those before it was read. A fault in them is that
/// of the whole text, as is a depth that is too great.
fn walk_group(
    chunks: &mut [Chunk],
    sums: &mut [Sum],
    first: &Place,
    depth: Depth,
    group: usize,
    offset: usize,
    start: usize,
) -> Result<Option<Refusal>, AllocError>
    requires first { first.now ≡ origin }
    requires walked { IsWalked depth start (group * 64) chunks.old }
    requires sums { AreSums chunks.old sums.old }
    requires offset { offset ≡ start + length (text_of (take (group * 64) chunks.old)) }
    requires fits { start + length (text_of chunks.old) < 2 ^ 64 }
    ensures linked { AreLinked depth origin chunks.new }
    ensures bytes { map bytes_of chunks.new ≡ map bytes_of chunks.old }
    ensures sums { AreSums chunks.new sums.new }
    ensures count { length sums.new ≡ length sums.old }
    ensures refused { IfOk result (λ r. IfSome r (λ refusal. Judged start (text_of chunks.old) depth (Refused refusal))) }
    ensures walked { IfOk result (λ r. IsNone r → IsWalked depth start ((group + 1) * 64) chunks.new) }
{
    reader_and_grammar();
    let mut offset = offset;
    let begin = chunks_before(group, chunks.len());
    let end = begin.saturating_add(GROUP).min(chunks.len());
    for number in begin..end {
        let next = offset + chunks[number].bytes().len();
        let step = go_on(chunks, sums, first, depth, number, offset, start)?;
        match step {
            Step::On => {}
            Step::Stopped(at) => return Ok(Some(Refusal::Stopped { at })),
            Step::TooDeep(at) => return Ok(Some(Refusal::TooDeep { at })),
        }
        offset = next;
    }
    Ok(None)
}

/// Goes on with the chunks of a group. None of the chunks is looked at where all are known to be linked.
fn pass_group(
    chunks: &mut [Chunk],
    sums: &mut [Sum],
    first: &Place,
    depth: Depth,
    group: usize,
    offset: usize,
    start: usize,
) -> Result<Option<Refusal>, AllocError>
    requires first { first.now ≡ origin }
    requires group { group < length sums.old }
    requires walked { IsWalked depth start (group * 64) chunks.old }
    requires sums { AreSums chunks.old sums.old }
    requires offset { offset ≡ start + length (text_of (take (group * 64) chunks.old)) }
    requires fits { start + length (text_of chunks.old) < 2 ^ 64 }
    ensures linked { AreLinked depth origin chunks.new }
    ensures bytes { map bytes_of chunks.new ≡ map bytes_of chunks.old }
    ensures sums { AreSums chunks.new sums.new }
    ensures count { length sums.new ≡ length sums.old }
    ensures refused { IfOk result (λ r. IfSome r (λ refusal. Judged start (text_of chunks.old) depth (Refused refusal))) }
    ensures walked { IfOk result (λ r. IsNone r → IsWalked depth start ((group + 1) * 64) chunks.new) }
{
    if sums[group].linked {
        return Ok(None);
    }
    let refused = walk_group(chunks, sums, first, depth, group, offset, start)?;
    match refused {
        Some(refusal) => Ok(Some(refusal)),
        None => {
            sums[group].linked = true;
            Ok(None)
        }
    }
}

/// The verdict on the bytes of chunks, one after another, as a text whose first byte has this offset.
pub(crate) fn walk(
    alloc: Global,
    depth: Depth,
    start: usize,
    chunks: &mut [Chunk],
    sums: &mut [Sum],
) -> Result<Verdict, AllocError>
    requires linked { AreLinked depth origin chunks.old }
    requires sums { AreSums chunks.old sums.old }
    requires fits { start + length (text_of chunks.old) < 2 ^ 64 }
    ensures linked { AreLinked depth origin chunks.new }
    ensures bytes { map bytes_of chunks.new ≡ map bytes_of chunks.old }
    ensures sums { AreSums chunks.new sums.new }
    ensures count { length sums.new ≡ length sums.old }
    ensures verdict { IfOk result (Judged start (text_of chunks.old) depth) }
{
    reader_and_grammar();
    let first = Place::origin(alloc);
    let mut offset = start;
    for group in 0..sums.len() {
        let next = offset + sums[group].bytes;
        let refused = pass_group(chunks, sums, &first, depth, group, offset, start)?;
        if let Some(refusal) = refused {
            return Ok(Verdict::Refused(refusal));
        }
        offset = next;
    }
    Ok(verdict_behind(chunks, &first))
}
