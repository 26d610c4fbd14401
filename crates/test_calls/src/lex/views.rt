// The views from all states, beside one step after another.
ghost use Rattle.std.specs.Prelude.{◌≤◌, length};

use crate::lex::joins::joined_at;
use crate::lex::track::Track;
use jx_lex::{LexState, Mark, Span};
use jx_maps::ChunkMap;
use std::alloc::{AllocError, Global};
use test_words::{Line, LineFault, push_span};

/// Whether the segments on the view's path have these token starts.
fn goes_along(map: &ChunkMap, state: LexState, marks: &[Mark]) -> bool {
    let view = map.entry(state);
    let mut rest = marks;
    for number in view.path() {
        let here = map.segments()[number].marks();
        match rest.strip_prefix(here) {
            Some(behind) => rest = behind,
            None => return false,
        }
    }
    rest.is_empty()
}

/// The first state from which the map's view is not what steps over these bytes give.
fn odd_state(alloc: Global, map: &ChunkMap, bytes: &[u8]) -> Result<Option<LexState>, AllocError> {
    for state in &LexState::all() {
        if !is_by_steps(alloc, map, *state, bytes)? {
            return Ok(Some(*state));
        }
    }
    Ok(None)
}

/// Whether the map's view from a state is what steps over these bytes give.
fn is_by_steps(
    alloc: Global,
    map: &ChunkMap,
    state: LexState,
    bytes: &[u8],
) -> Result<bool, AllocError> {
    let plain = Track::by_steps(alloc, state, bytes, map.span().start)?;
    let seen = Track::of_view(alloc, &map.entry(state))?;
    Ok(seen == plain && goes_along(map, state, &plain.marks))
}

/// Writes whether all views are as steps give, and else from which state the first is not.
fn push_odd(line: &mut Line<'_>, odd: Result<Option<LexState>, AllocError>) {
    match odd {
        Ok(None) => line.out.push_str("as by steps"),
        Ok(Some(state)) => line
            .out
            .put(format_args!("other than by steps from {state:?}")),
        Err(_) => line.note(LineFault::Memory),
    }
}

/// `maps TEXT`: the views of the whole, and at each cut those of the join.
pub(crate) fn maps(line: &mut Line<'_>) {
    let text = line.text();
    let odd = odd_anywhere(line.alloc, &text);
    push_odd(line, odd);
}

/// The first state from which the whole shows something else than steps give, or else the join at a cut.
fn odd_anywhere(alloc: Global, text: &[u8]) -> Result<Option<LexState>, AllocError> {
    let mut odd = odd_in_whole(alloc, text)?;
    for cut in 0..=text.len() {
        if odd.is_none() {
            odd = odd_at(alloc, text, cut)?;
        }
    }
    Ok(odd)
}

fn odd_in_whole(alloc: Global, text: &[u8]) -> Result<Option<LexState>, AllocError> {
    let whole = ChunkMap::of(alloc, text, 0, text.len())?;
    odd_state(alloc, &whole, text)
}

/// The first state from which the join at a cut shows something else than steps give.
fn odd_at(alloc: Global, text: &[u8], cut: usize) -> Result<Option<LexState>, AllocError>
    requires { cut ≤ length text.now }
{
    let joined = joined_at(alloc, text, 0, cut, text.len())?;
    odd_state(alloc, &joined.map, text)
}

/// `views TEXT S..E`: the views of one map.
pub(crate) fn views(line: &mut Line<'_>) {
    let text = line.text();
    let span = line.span(text.len());
    let odd = odd_in_part(line.alloc, &text, span);
    push_odd(line, odd);
}

fn odd_in_part(alloc: Global, text: &[u8], span: Span) -> Result<Option<LexState>, AllocError>
    requires ordered { span.start ≤ span.end }
    requires within { span.end ≤ length text.now }
{
    let map = ChunkMap::of(alloc, text, span.start, span.end)?;
    odd_state(alloc, &map, &text[span.start..span.end])
}

/// So many copies of a unit, and a text after them.
fn grown_to(alloc: Global, unit: &[u8], count: usize, end: &[u8]) -> Result<Vec<u8>, AllocError> {
    let mut text = Vec::new(alloc);
    for _ in 0..count {
        text.extend_from_slice(unit)?;
    }
    text.extend_from_slice(end)?;
    Ok(text)
}

fn odd_behind(
    alloc: Global,
    unit: &[u8],
    counts: Span,
    end: &[u8],
) -> Result<Option<LexState>, AllocError> {
    let mut odd = None;
    for count in counts.start..counts.end {
        let text = grown_to(alloc, unit, count, end)?;
        odd = odd.or(odd_in_whole(alloc, &text)?);
    }
    Ok(odd)
}

/// `grown UNIT S..E TEXT`: the views of a text after each number of copies of a unit, from S on and below E.
pub(crate) fn grown(line: &mut Line<'_>) {
    let unit = line.text();
    let counts = line.span(usize::MAX);
    let end = line.text();
    let odd = odd_behind(line.alloc, &unit, counts, &end);
    push_odd(line, odd);
}

fn odd_up_to(alloc: Global, text: &[u8], ends: Span) -> Result<Option<LexState>, AllocError>
    requires { ends.end ≤ length text.now }
{
    let mut odd = None;
    for end in ends.start..ends.end {
        odd = odd.or(odd_in_part(alloc, text, Span { start: 0, end })?);
    }
    Ok(odd)
}

/// `upto TEXT S..E`: the views of the maps of a text up to each offset, from S on and below E.
pub(crate) fn upto(line: &mut Line<'_>) {
    let text = line.text();
    let ends = line.span(text.len());
    let odd = odd_up_to(line.alloc, &text, ends);
    push_odd(line, odd);
}

/// `beginning TEXT S..E`: where the map of a beginning ends, and its views.
pub(crate) fn beginning(line: &mut Line<'_>) {
    let text = line.text();
    let span = line.span(text.len());
    match ChunkMap::of_beginning(line.alloc, &text, span.start, span.end) {
        Ok(map) => {
            let read = map.span();
            push_span(&mut line.out, read);
            line.out.push_str(" ");
            let odd = odd_state(line.alloc, &map, &text[read.start..read.end]);
            push_odd(line, odd);
        }
        Err(_) => line.note(LineFault::Memory),
    }
}
