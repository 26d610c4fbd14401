// Chunk maps: what they show from a state, and how many token starts they hold.
ghost use Rattle.std.specs.Prelude.{◌≤◌, length};

use crate::lex::joins::{Joined, joined_at};
use crate::lex::track::Track;
use jx_lex::{LexState, Span};
use jx_maps::ChunkMap;
use std::alloc::{AllocError, Global};
use test_words::{Line, LineFault, Meeting, Out, Ways, meeting_within, span_within};

/// `map TEXT S..E STATE`, or `map TEXT S..C..E STATE` of two maps that are joined at C.
pub(crate) fn map(line: &mut Line<'_>) {
    let text = line.text();
    let word = line.word();
    let state = line.state();
    let told = push_map(&mut line.out, line.alloc, &text, word, state);
    line.settle(told);
}

fn push_map(
    out: &mut Out,
    alloc: Global,
    text: &[u8],
    word: &str,
    state: LexState,
) -> Result<(), LineFault> {
    match span_within(word, text.len()) {
        Ok(span) => {
            let map = ChunkMap::of(alloc, text, span.start, span.end)?;
            push_view(out, alloc, &map, state)?;
        }
        Err(_) => push_both(out, alloc, text, meeting_within(word, text.len())?, state)?,
    }
    Ok(())
}

fn push_both(
    out: &mut Out,
    alloc: Global,
    text: &[u8],
    meeting: Meeting,
    state: LexState,
) -> Result<(), AllocError>
    requires left { meeting.start ≤ meeting.cut }
    requires right { meeting.cut ≤ meeting.end }
    requires within { meeting.end ≤ length text.now }
{
    let Meeting { start, cut, end } = meeting;
    let joined = joined_at(alloc, text, start, cut, end)?;
    push_view(out, alloc, &joined.map, state)?;
    push_excess(out, &joined, start, end);
    Ok(())
}

fn push_view(
    out: &mut Out,
    alloc: Global,
    map: &ChunkMap,
    state: LexState,
) -> Result<(), AllocError> {
    let view = map.entry(state);
    Track::of_view(alloc, &view)?.push_to(out);
    Ok(())
}

/// The view that the join at a cut of the whole text shows.
fn shown_at(alloc: Global, text: &[u8], cut: usize, state: LexState) -> Result<Out, AllocError>
    requires { cut ≤ length text.now }
{
    let joined = joined_at(alloc, text, 0, cut, text.len())?;
    let mut shown = Out::new(alloc);
    push_view(&mut shown, alloc, &joined.map, state)?;
    Ok(shown)
}

/// `cut TEXT STATE`: what joins at each cut show.
pub(crate) fn cut(line: &mut Line<'_>) {
    let text = line.text();
    let state = line.state();
    let mut ways = Ways::new(line.alloc);
    for cut in 0..=text.len() {
        let shown = shown_at(line.alloc, &text, cut, state);
        ways.add_made(format_args!("cut at {cut}"), shown);
    }
    ways.push_to(&mut line.out);
}

/// Appends what a join holds too many of, or another span than that of both: nothing where it is right.
fn push_excess(out: &mut Out, joined: &Joined, start: usize, end: usize) {
    let stored = joined.map.stored();
    if stored > joined.left.saturating_add(joined.right) {
        out.put(format_args!("; holds {stored}, more than both"));
    }
    let span = joined.map.span();
    if span.start != start || span.end != end {
        out.put(format_args!("; stands at {span:?}"));
    }
}

/// `shown TEXT S..E MOST`: how many token starts all views show, of a map that holds at most so many.
pub(crate) fn shown(line: &mut Line<'_>) {
    let text = line.text();
    let span = line.span(text.len());
    let most = line.number();
    let told = push_shown(&mut line.out, line.alloc, &text, span, most as u128);
    line.settle(told);
}

fn push_shown(
    out: &mut Out,
    alloc: Global,
    text: &[u8],
    span: Span,
    most: u128,
) -> Result<(), AllocError>
    requires ordered { span.start ≤ span.end }
    requires within { span.end ≤ length text.now }
{
    let map = ChunkMap::of(alloc, text, span.start, span.end)?;
    out.push_str("shows ");
    out.put(shown_by(alloc, &map)?);
    out.push_str(", holds ");
    if map.stored() <= most {
        out.push_str("at most ");
    }
    out.put(map.stored().max(most));
    Ok(())
}

/// How many token starts the views from all states show together.
fn shown_by(alloc: Global, map: &ChunkMap) -> Result<usize, AllocError> {
    let mut shown = 0usize;
    for state in &LexState::all() {
        let track = Track::of_view(alloc, &map.entry(*state))?;
        shown = shown.saturating_add(track.marks.len());
    }
    Ok(shown)
}
