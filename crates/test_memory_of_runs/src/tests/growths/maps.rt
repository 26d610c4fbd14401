// Chunk maps where an allocation fails.
ghost use Rattle.std.specs.Prelude.{◌≡◌, ◌≤◌, length};

use crate::inputs::{FIVE_ROWS, NESTED, REPEATED, SEQUENCE, UNSORTED, WIDE};
use crate::lines::Lines;
use crate::tests::growths::cuts::{Joined, check_cuts};
use jx_lex::{JoinFault, LexExit, LexState, MarkKind, TokenEnd, step};
use jx_maps::{ChunkMap, Ends, Marks, TrackView};
use std::alloc::{AllocError, Global};

const INPUTS: [&[u8]; 6] = [NESTED, FIVE_ROWS, REPEATED, UNSORTED, WIDE, SEQUENCE];

#[test]
fn chunk_maps_under_a_refused_growth(rt: HostRuntime) {
    let mut lines = Lines::of(&rt);
    for text in &INPUTS {
        check_cuts(&rt, rt.alloc(), &mut lines, &Joined::Maps, text);
    }
}

// Whether the next end of a view is the one of a step at this offset, where it has one.
fn is_next_end(ends: &mut Ends<'_>, end: Option<TokenEnd>, at: usize) -> bool {
    match end {
        Some(TokenEnd::Before) => ends.next() == Some(at),
        Some(TokenEnd::After) => ends.next() == Some(at.wrapping_add(1)),
        None => true,
    }
}

// Whether the next token start of a view is the one of a step at this offset, where it has one.
fn is_next_mark(marks: &mut Marks<'_>, kind: Option<MarkKind>, at: usize) -> bool {
    let Some(kind) = kind else {
        return true;
    };
    match marks.next() {
        Some(mark) => mark.kind == kind && mark.at == at,
        None => false,
    }
}

// The exit of reading these bytes one by one, where the token starts and ends are those that it gives, in order.
fn plain_exit(
    marks: &mut Marks<'_>,
    ends: &mut Ends<'_>,
    from: LexState,
    bytes: &[u8],
    start: usize,
) -> Option<LexExit> {
    let mut state = from;
    for (place, byte) in bytes.iter().enumerate() {
        let at = start.wrapping_add(place);
        let step = step(state, *byte);
        if !is_next_end(ends, step.end, at) || !is_next_mark(marks, step.begin, at) {
            return None;
        }
        match step.next {
            Some(next) => state = next,
            None => return Some(LexExit::Fault(at)),
        }
    }
    Some(LexExit::State(state))
}

// Whether a view shows what reading these bytes one by one gives. It takes no memory.
fn is_plain(view: &TrackView<'_>, from: LexState, bytes: &[u8], start: usize) -> bool {
    let mut marks = view.marks();
    let mut ends = view.ends();
    let exit = plain_exit(&mut marks, &mut ends, from, bytes, start);
    exit == Some(view.exit()) && marks.next().is_none() && ends.next().is_none()
}

// Whether a map shows so much from each of the states.
fn is_right(map: &ChunkMap, text: &[u8]) -> bool {
    let span = map.span();
    let Some(bytes) = text.get(span.start..span.end) else {
        return false;
    };
    LexState::all().iter().all(|state| is_plain(&map.entry(*state), *state, bytes, span.start))
}

/// The join of two maps. Where it is refused, both sides have to be right, and are joined again.
fn joined(left: ChunkMap, right: ChunkMap, text: &[u8]) -> Option<ChunkMap>
    requires { left.end ≡ right.start }
{
    match left.join(right) {
        Ok(map) => Some(map),
        Err(JoinFault { left, right }) => {
            if !is_right(&left, text) || !is_right(&right, text) {
                return None;
            }
            left.join(right).ok()
        }
    }
}

/// Whether the join of both sides of a cut is right, and so are both sides where it was refused.
pub(crate) fn is_joined_at(alloc: Global, text: &[u8], cut: usize) -> Result<bool, AllocError>
    requires { cut ≤ length text.now }
{
    let left = ChunkMap::of(alloc, text, 0, cut)?;
    let right = ChunkMap::of(alloc, text, cut, text.len())?;
    match joined(left, right, text) {
        Some(map) => Ok(is_right(&map, text)),
        None => Ok(false),
    }
}
