// A slice is taken by a crew.
ghost use Rattle.std.specs.Prelude.{◌≡◌, ◌+◌, ◌<◌, ◌≤◌, ◌^◌, ◌++◌, ℕ, List, All, IfSome, IsErr, OnErr, OnOk, length};
ghost use Rattle.jx_book.specs.Gathered.{IsRest};
ghost use Rattle.jx_run.specs.Reader.{IsInFront};
ghost use Rattle.jx_each.specs.declared.content.LineContent.{LineContent};
ghost use Rattle.jx_each.specs.Each.{HasFailed, HasTakenBy};
ghost use Rattle.jx_each.specs.Machine.{aimed};
ghost use Rattle.jx_each.specs.Sections.{IsSection};

use crate::sections::sections_of;
use jx_answer::is_short;
use jx_book::{Held, read_whole};
use jx_claim::Cutting;
use jx_crew::{Crew, Gate};
use jx_each::{Each, Section};
use jx_run::OutcomeRun;
use std::alloc::AllocError;
use std::sync::Wait;
use std::thread::Threads;

/// How many bytes the calling thread takes before the others are shared, so that the container may be reached. Where no
/// line ends there, elements are taken to be so long that no part begins with one.
const FRONT: usize = 64 * 1024;

/// Takes a slice by a run over it and by parts of it.
fn follow_run(
    each: &mut Each,
    slice: &[u8],
    run: &Held<'_, OutcomeRun>,
    sections: Vec<Option<Section>>,
) -> Result<(), AllocError>
    requires fits { each.old.reader.start + each.old.reader.count + length slice.now < 2 ^ 64 }
    requires behind { IsInFront each.old.reader → ⊥ }
    requires run { IsRest slice.now each.old.reader.settings.depth 0 run.now }
    requires sections { All (λ s. IfSome s (IsSection (aimed each.old.content each.old.path) slice.now)) sections.items }
    ensures settings { each.new.reader.settings ≡ each.old.reader.settings }
    ensures path { each.new.path ≡ each.old.path }
    ensures content { each.new.content ≡ each.old.content }
    ensures taken { OnOk result ((content : LineContent) (pointer bytes given : List ℕ) → HasTakenBy content pointer bytes given each.old → HasTakenBy content pointer (bytes ++ slice.now) given each.new) }
    ensures start { each.new.reader.start ≡ each.old.reader.start }
    ensures count { OnOk result (each.new.reader.count ≡ each.old.reader.count + length slice.now) }
    ensures err { OnErr result (HasFailed each.new) }
    ensures failed { HasFailed each.old → IsErr result }
{
    each.follow(slice, run.run(), sections)
}

/// Makes parts of a slice, where it stands in the container.
fn sections_for<R: Threads + Sync, G: Sync>(
    crew: &Crew<'_, R, G>,
    each: &Each,
    slice: &[u8],
    piece: usize,
) -> Vec<Option<Section>>
    ensures { All (λ s. IfSome s (IsSection (aimed each.now.content each.now.path) slice.now)) result.items }
{
    let Some(stage) = each.stage() else {
        return Vec::new(crew.alloc);
    };
    match sections_of(crew, each.target(), stage, slice, piece) {
        Ok(sections) => sections,
        Err(AllocError) => Vec::new(crew.alloc),
    }
}

/// Takes a slice, which the crew reads; each of its workers makes a part, where that is asked for.
fn follow_shared<R: Threads + Wait + Sync, G: Gate + Sync>(
    crew: &Crew<'_, R, G>,
    each: &mut Each,
    slice: &[u8],
    piece: usize,
    by_sections: bool,
) -> Result<(), AllocError>
    requires piece { 1 ≤ piece }
    requires fits { each.old.reader.start + each.old.reader.count + length slice.now < 2 ^ 64 }
    ensures settings { each.new.reader.settings ≡ each.old.reader.settings }
    ensures path { each.new.path ≡ each.old.path }
    ensures content { each.new.content ≡ each.old.content }
    ensures taken { OnOk result ((content : LineContent) (pointer bytes given : List ℕ) → HasTakenBy content pointer bytes given each.old → HasTakenBy content pointer (bytes ++ slice.now) given each.new) }
    ensures start { each.new.reader.start ≡ each.old.reader.start }
    ensures count { OnOk result (each.new.reader.count ≡ each.old.reader.count + length slice.now) }
    ensures err { OnErr result (HasFailed each.new) }
    ensures failed { HasFailed each.old → IsErr result }
{
    if each.reader().is_in_front() || each.reader().is_done() {
        return each.feed(slice);
    }
    let depth = each.reader().settings().depth;
    let Ok(cutting) = Cutting::every(slice.len(), piece) else {
        return each.feed(slice);
    };
    let Ok(run) = read_whole::<OutcomeRun, R, G>(crew, slice, &cutting, depth) else {
        return each.feed(slice);
    };
    let sections = if by_sections {
        sections_for(crew, each, slice, piece)
    } else {
        Vec::new(crew.alloc)
    };
    follow_run(each, slice, &run, sections)
}

/// Takes the slice after all bytes that a maker of lines has taken, as `Each::feed` does, by the crew. One worker, or a
/// slice of one chunk, or one that is short and whose reading nobody is asked about, is taken by the calling thread
/// alone.
///
/// Of several workers each takes chunks of so many bytes, reads them and puts the runs into an accumulator, and makes
/// the lines of one part of the slice. Where a part is made from another place than the bytes before it lead to, the
/// calling thread makes its lines, and it makes all of them where none ends among the first bytes. The gate is asked as
/// chunks are read. Fails only when out of memory, and from then on every slice is.
pub fn feed_shared<R: Threads + Wait + Sync, G: Gate + Sync>(
    crew: &Crew<'_, R, G>,
    each: &mut Each,
    slice: &[u8],
    piece: usize,
) -> Result<(), AllocError>
    requires piece { 1 ≤ piece }
    requires fits { each.old.reader.start + each.old.reader.count + length slice.now < 2 ^ 64 }
    ensures settings { each.new.reader.settings ≡ each.old.reader.settings }
    ensures path { each.new.path ≡ each.old.path }
    ensures content { each.new.content ≡ each.old.content }
    // For every crew and every chunk, it has taken the slice, and the lines that are due then wait.
    ensures taken { OnOk result ((content : LineContent) (pointer bytes given : List ℕ) → HasTakenBy content pointer bytes given each.old → HasTakenBy content pointer (bytes ++ slice.now) given each.new) }
    ensures start { each.new.reader.start ≡ each.old.reader.start }
    ensures count { OnOk result (each.new.reader.count ≡ each.old.reader.count + length slice.now) }
    ensures err { OnErr result (HasFailed each.new) }
    ensures failed { HasFailed each.old → IsErr result }
{
    let is_alone = crew.workers.count() == 1 || slice.len() <= piece;
    if is_alone || is_short(slice.len(), crew.gate) {
        return each.feed(slice);
    }
    let (front, rest) = slice.split_at(FRONT.min(slice.len()));
    let lines = each.ready().len();
    each.feed(front)?;
    let by_sections = lines < each.ready().len();
    follow_shared(crew, each, rest, piece, by_sections)
}
