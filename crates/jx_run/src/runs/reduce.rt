// The transitions of a chunk map and their structures. The tokens of each segment are reduced once, and those of each
// path.
ghost use Rattle.std.specs.Prelude.{◌≡◌, ◌<◌, ◌≤◌, ◌+◌, ◌++◌, [], ◌∷◌, List, All, None, Some, length, flat_map, IfOk, IfSome, IsSomeAnd, IsTrue, OnOk};
ghost use Rattle.jx_maps.specs.Map.{track};
ghost use Rattle.jx_lex.specs.Ordinal.{all_states};
ghost use Rattle.jx_maps.specs.View.{marks_at, view_track};
ghost use Rattle.jx_lex.specs.declared.alphabet.mark.Mark.{Mark};
ghost use Rattle.jx_reduce.specs.Offsets.{EachIn, RisingFrom};
ghost use Rattle.jx_run.specs.inside.Joins.{IsAbove};
ghost use Rattle.jx_run.specs.OutcomeRun.{IsFormWithin};
ghost use Rattle.jx_run.specs.inside.Reduced.{path_at, AreInside, ArePaths, AreReduced, AreRising, AreTransitionsOf, IsAt, IsLoneIn, IsReduced};

use crate::runs::transition::Transition;
use jx_lex::{Depth, LexState, Mark};
use jx_maps::{ChunkMap, Path, Segment, TrackView};
use jx_reduce::{Structure, spans_of_structures};
use std::alloc::{AllocError, Global};

/// Reduces the tokens of a segment, unless that was done before.
fn fill(
    alloc: Global,
    segment: &Segment,
    slot: &mut Option<Structure>,
    depth: Depth,
) -> Result<(), AllocError>
    requires slot { IfSome slot.old (IsReduced depth segment.now.marks) }
    requires rising { RisingFrom 0 segment.now.marks }
    ensures slot { OnOk result (IsSomeAnd slot.new (IsReduced depth segment.now.marks)) }
{
    if slot.is_some() {
        return Ok(());
    }
    let reduced = Structure::of(alloc, segment.marks(), depth)?;
    *slot = Some(reduced);
    Ok(())
}

/// Goes on with the tokens of a segment.
fn take_in(
    alloc: Global,
    reduced: Structure,
    segment: &Segment,
    slot: &mut Option<Structure>,
) -> Result<Structure, AllocError>
    requires slot { IfSome slot.old (IsReduced reduced.depth segment.now.marks) }
    requires rising { (marks : List Mark) × IsReduced reduced.depth marks reduced × RisingFrom 0 (marks ++ segment.now.marks) }
    ensures slot { OnOk result (IsSomeAnd slot.new (IsReduced reduced.depth segment.now.marks)) }
    ensures depth { IfOk result (λ r. r.depth ≡ reduced.depth) }
    ensures reduced { IfOk result (λ r. (marks : List Mark) → IsReduced reduced.depth marks reduced → IsReduced reduced.depth (marks ++ segment.now.marks) r) }
{
    spans_of_structures();
    fill(alloc, segment, slot, reduced.depth())?;
    match slot {
        Some(slot) => {
            let more = reduced.extended(slot)?;
            Ok(more)
        }
        None => unreachable!(),
    }
}

/// The structure of the tokens of the segments on the path.
fn reduce_path(
    alloc: Global,
    segments: &[Segment],
    slots: &mut [Option<Structure>],
    path: Path<'_>,
    depth: Depth,
) -> Result<Structure, AllocError>
    requires many { length slots.old ≡ length segments.now }
    requires slots { AreReduced depth segments.now slots.old }
    requires within { All (λ n. n < length segments.now) path }
    requires rising { RisingFrom 0 (flat_map (marks_at segments.now) path) }
    ensures slots { OnOk result (AreReduced depth segments.now slots.new) }
    ensures reduced { IfOk result (IsReduced depth (flat_map (marks_at segments.now) path.entry)) }
{
    let mut reduced = Structure::new(alloc, depth);
    let mut path = path;
    while let Some(number) = path.next() {
        reduced = take_in(alloc, reduced, &segments[number], &mut slots[number])?;
    }
    Ok(reduced)
}

/// So many places that are still to be filled.
fn none<T: Drop>(alloc: Global, count: usize) -> Result<Vec<Option<T>>, AllocError>
    ensures many { IfOk result (λ v. length v.items ≡ count) }
    ensures none { IfOk result (λ v. All (λ x. x ≡ None) v.items) }
{
    let mut places = Vec::with_capacity(alloc, count)?;
    for _ in 0..count {
        places.push(None)?;
    }
    Ok(places)
}

/// Whether a track has no tokens.
fn is_bare(track: &TrackView<'_>) -> bool
    ensures { IsTrue result → (view_track track.now).marks ≡ [] }
{
    track.marks().next().is_none()
}

/// The number with which the path of a track begins, or the count of the segments where it has none, or no tokens.
fn first_of(track: &TrackView<'_>, count: usize) -> usize
    requires { count ≡ length track.now.segments }
    ensures low { result ≤ count }
    ensures marks { flat_map (marks_at track.now.segments) (path_at track.now.segments result) ≡ (view_track track.now).marks }
{
    if is_bare(track) {
        return count;
    }
    let mut path = track.path();
    match path.next() {
        Some(number) => number,
        None => count,
    }
}

/// The token of a track that has no other.
fn lone_mark(track: &TrackView<'_>) -> Option<Mark>
    ensures { IfSome result (λ mark. (view_track track.now).marks ≡ mark ∷ []) }
{
    let mut marks = track.marks();
    let first = marks.next()?;
    match marks.next() {
        None => Some(first),
        Some(_) => None,
    }
}

/// The structure of the tokens of the track from a state. That of a token alone, or of none, is made of no segment's.
fn structure_from(
    alloc: Global,
    map: &ChunkMap,
    state: LexState,
    slots: &mut [Option<Structure>],
    depth: Depth,
) -> Result<Structure, AllocError>
    requires many { length slots.old ≡ length map.now.segments }
    requires slots { AreReduced depth map.now.segments slots.old }
    requires rising { RisingFrom 0 (track map.now state).marks }
    ensures slots { OnOk result (AreReduced depth map.now.segments slots.new) }
    ensures marks { IfOk result (IsReduced depth (track map.now state).marks) }
{
    let track = map.entry(state);
    if is_bare(&track) {
        return Ok(Structure::new(alloc, depth));
    }
    if let Some(mark) = lone_mark(&track) {
        return Structure::of(alloc, &[mark], depth);
    }
    reduce_path(alloc, map.segments(), slots, track.path(), depth)
}

/// A token that is all that a track has, and the number of its structure.
#[derive(Clone, Copy)]
struct Lone {
    mark: Mark,
    number: usize,
}

/// The number of the structure of this token alone, if it is the known one.
fn number_of_lone(known: Option<Lone>, mark: Option<Mark>) -> Option<usize>
    ensures { IfSome result (λ number. (m : Mark) × (mark ≡ Some m) × (known ≡ Some (record { mark = m; number = number }))) }
{
    let known = known?;
    if known.mark == mark? {
        Some(known.number)
    } else {
        None
    }
}

/// The structures of paths. A path is known by the segment with which it begins, so states that take one path share its
/// structure. So do those whose tracks have no tokens, and those whose tracks have one token, and the same.
#[derive(Drop)]
struct Paths {
    // those of the segments
    slots: Vec<Option<Structure>>,
    // for each segment the number of the structure of the path that begins with it, and last that of the path of none
    numbers: Vec<Option<usize>>,
    structures: Vec<Structure>,
    lone: Option<Lone>,
}

impl Paths {
    /// The number of the structure of the path from a state, which is made unless it was before.
    fn number_of(
        &mut self,
        alloc: Global,
        map: &ChunkMap,
        state: LexState,
        depth: Depth,
    ) -> Result<usize, AllocError>
        requires rising { RisingFrom 0 (track map.now state).marks }
        requires inside { EachIn (λ m. (map.now.start ≤ m.at) × (m.at < map.now.end)) (track map.now state).marks }
        requires made { ArePaths depth map.now self.old.slots.items self.old.numbers.items self.old.structures.items }
        requires lone { IfSome self.old.lone (IsLoneIn depth self.old.structures.items) }
        ensures made { OnOk result (ArePaths depth map.now self.new.slots.items self.new.numbers.items self.new.structures.items) }
        ensures lone { OnOk result (IfSome self.new.lone (IsLoneIn depth self.new.structures.items)) }
        ensures few { OnOk result (length self.new.structures.items ≤ length self.old.structures.items + 1) }
        ensures above { OnOk result (IsAbove self.old.structures.items self.new.structures.items) }
        ensures number { IfOk result (IsAt depth (track map.now state).marks self.new.structures.items) }
    {
        let first = first_of(&map.entry(state), map.segments().len());
        if let Some(number) = self.numbers[first] {
            return Ok(number);
        }
        let mark = lone_mark(&map.entry(state));
        if let Some(number) = number_of_lone(self.lone, mark) {
            return Ok(number);
        }
        let number = self.add(alloc, map, state, first, depth)?;
        if let Some(mark) = mark {
            self.lone = Some(Lone { mark, number });
        }
        Ok(number)
    }

    /// The number of the structure of the path from a state, which is made. The path begins with this number.
    // Apart, since a structure is large: a path that is known then costs nothing.
    #[inline(never)]
    fn add(
        &mut self,
        alloc: Global,
        map: &ChunkMap,
        state: LexState,
        first: usize,
        depth: Depth,
    ) -> Result<usize, AllocError>
        requires first { first ≤ length map.now.segments }
        requires path { flat_map (marks_at map.now.segments) (path_at map.now.segments first) ≡ (track map.now state).marks }
        requires rising { RisingFrom 0 (track map.now state).marks }
        requires inside { EachIn (λ m. (map.now.start ≤ m.at) × (m.at < map.now.end)) (track map.now state).marks }
        requires made { ArePaths depth map.now self.old.slots.items self.old.numbers.items self.old.structures.items }
        ensures made { OnOk result (ArePaths depth map.now self.new.slots.items self.new.numbers.items self.new.structures.items) }
        ensures lone { self.new.lone ≡ self.old.lone }
        ensures few { OnOk result (length self.new.structures.items ≤ length self.old.structures.items + 1) }
        ensures above { OnOk result (IsAbove self.old.structures.items self.new.structures.items) }
        ensures number { IfOk result (IsAt depth (track map.now state).marks self.new.structures.items) }
    {
        let marks = structure_from(alloc, map, state, &mut self.slots, depth)?;
        self.structures.push(marks)?;
        let number = self.structures.len() - 1;
        self.numbers[first] = Some(number);
        Ok(number)
    }
}

/// The transitions from all states, in order, and the structures of their paths.
pub(crate) fn all_transitions(
    alloc: Global,
    map: &ChunkMap,
    depth: Depth,
) -> Result<(Vec<Transition>, Vec<Structure>), AllocError>
    requires rising { AreRising map.now }
    requires inside { AreInside map.now }
    ensures transitions { IfOk result (λ r. AreTransitionsOf depth map.now r.1.items all_states r.0.items) }
    ensures few { IfOk result (λ r. length r.1.items ≤ 32) }
    ensures within { IfOk result (λ r. All (IsFormWithin depth map.now.start map.now.end) r.1.items) }
{
    let count = map.segments().len();
    let mut paths = Paths {
        slots: none(alloc, count)?,
        numbers: none(alloc, count + 1)?,
        structures: Vec::new(alloc),
        lone: None,
    };
    let states = LexState::all();
    let mut transitions = Vec::with_capacity(alloc, states.len())?;
    for place in 0..states.len() {
        let state = states[place];
        let structure = paths.number_of(alloc, map, state, depth)?;
        let exit = map.entry(state).exit();
        transitions.push(Transition { exit, structure })?;
    }
    Ok((transitions, paths.structures))
}
