// In which state a chunk is likely to begin. No answer depends on it: it saves time where it is right.
use jx_lex::{LexExit, LexState};
use jx_reduce::{Expect, Holder, Level, Reduced};
use jx_run::OutcomeRun;
use std::alloc::AllocError;

/// The expectations at the beginning of a chunk, the most frequent first.
const EXPECTS: [Expect; 6] = [
    Expect::After,
    Expect::Name,
    Expect::Value,
    Expect::Colon,
    Expect::ArrayFirst,
    Expect::ObjectFirst,
];

/// Whether tokens may stand in some container.
fn has_holder(level: Level) -> bool {
    level.array.is_none() || level.object.is_none() || level.bottom.is_none()
}

/// Whether some open containers make no fault of the tokens.
fn goes_on(form: &Reduced) -> bool {
    for index in 0..form.level_count() {
        match form.level(index) {
            Some(level) if has_holder(level) => {}
            _ => return false,
        }
    }
    form.exit_of(Holder::Object).is_some()
        || form.exit_of(Holder::Array).is_some()
        || form.exit_of(Holder::Bottom).is_some()
}

/// Whether a run may begin in a state.
fn is_likely(run: &OutcomeRun, state: LexState) -> Result<bool, AllocError> {
    match run.exit(state) {
        LexExit::Fault(_) => return Ok(false),
        LexExit::State(_) => {}
    }
    for place in 0..EXPECTS.len() {
        let form = run.entry(state, EXPECTS[place]).reduced()?;
        if goes_on(&form) {
            return Ok(true);
        }
    }
    Ok(false)
}

/// The first state, in the order of all of them, in which a run may begin.
pub(crate) fn likely_state(run: &OutcomeRun) -> Result<Option<LexState>, AllocError> {
    let states = LexState::all();
    for place in 0..states.len() {
        if is_likely(run, states[place])? {
            return Ok(Some(states[place]));
        }
    }
    Ok(None)
}
