// The work that is measured, for one text.
ghost use Rattle.std.specs.Prelude.{◌≡◌, IfOk, slice_range, length};
ghost use Rattle.jx_run.specs.Started.{IsStarted};
ghost use Rattle.jx_run.specs.Tree.{span};

use jx_index::Indexed;
use jx_lex::{Depth, LexState, step};
use jx_maps::ChunkMap;
use jx_reduce::{KnownStack, Reducer};
use jx_run::{OutcomeRun, Started, Summary, TextRun, Verdict};
use std::alloc::{AllocError, Global};

/// The bytes of a chunk, as `jx` cuts a text by default.
pub const PIECE: usize = 65536;

/// Reads the text byte by byte up to its first fault, and counts the token starts.
pub fn marks_by_step(text: &[u8]) -> u64 {
    let mut state = LexState::Gap;
    let mut marks = 0u64;
    for byte in text {
        let step = step(state, *byte);
        if step.begin.is_some() {
            marks = marks.wrapping_add(1);
        }
        let Some(next) = step.next else {
            break;
        };
        state = next;
    }
    marks
}

/// Makes the map of each chunk of the text, and adds up the token starts that they store.
pub fn marks_by_map(alloc: Global, text: &[u8]) -> Result<u64, AllocError> {
    let mut marks = 0u64;
    for piece in text.chunks(PIECE) {
        let map = ChunkMap::of(alloc, piece, 0, piece.len())?;
        for segment in map.segments() {
            marks = marks.wrapping_add(segment.marks().len() as u64);
        }
    }
    Ok(marks)
}

/// Makes the run of each chunk of the text, and counts those that aren't refused as the beginning of a text.
pub fn runs_of_pieces(alloc: Global, text: &[u8]) -> Result<u64, AllocError> {
    let mut runs = 0u64;
    for piece in text.chunks(PIECE) {
        let run = TextRun::of(alloc, piece, 0, piece.len(), Depth::default())?;
        if run.verdict() == Verdict::Accepted {
            runs = runs.wrapping_add(1);
        }
    }
    Ok(runs)
}

/// Makes the outcome run of each chunk of the text, and counts those that are texts.
pub fn outcomes_of_pieces(alloc: Global, text: &[u8]) -> Result<u64, AllocError> {
    let mut texts = 0u64;
    for piece in text.chunks(PIECE) {
        let run = OutcomeRun::of(alloc, piece, 0, piece.len(), Depth::default())?;
        if run.verdict() == Verdict::Accepted {
            texts = texts.wrapping_add(1);
        }
    }
    Ok(texts)
}

/// Follows the token starts of a text over one stack of open containers, and counts them.
pub fn marks_over_stack(alloc: Global, started: &Started) -> Result<u64, AllocError> {
    let mut stack = KnownStack::new(alloc, Depth::default());
    stack.extend(started.marks())?;
    Ok(if stack.is_done() {
        0
    } else {
        started.marks().len() as u64
    })
}

/// Reduces the token starts of a text as if nothing were known of where they begin, and counts them.
pub fn marks_reduced(alloc: Global, started: &Started) -> Result<u64, AllocError> {
    let mut reducer = Reducer::new(alloc, Depth::default());
    for mark in started.marks() {
        reducer.push(*mark)?;
    }
    let _ = reducer.finish()?;
    Ok(started.marks().len() as u64)
}

/// The reading of the whole text as one run.
pub fn reading_of(alloc: Global, text: &[u8]) -> Result<Started, AllocError>
    ensures span { IfOk result (λ s. s.span ≡ span 0 (length text.now)) }
    ensures reading { IfOk result (λ s. IsStarted (slice_range text.now 0 (length text.now)) s) }
{
    let run = TextRun::of(alloc, text, 0, text.len(), Depth::default())?;
    run.started()
}

/// The number of rows that the text has; none where it is refused.
pub fn rows_of(alloc: Global, text: &[u8], started: &Started) -> Result<u64, AllocError>
    requires span { started.now.span ≡ span 0 (length text.now) }
    requires reading { IsStarted (slice_range text.now 0 (length text.now)) started.now }
{
    match started.verdict() {
        Verdict::Refused(_) => Ok(0),
        Verdict::Accepted => {
            let index = Indexed::build(alloc, text, started)?;
            Ok(index.rows().len() as u64)
        }
    }
}
