// The lexical states by their numbers.
ghost use Rattle.std.specs.Prelude.{◌≡◌, slice_index_or};
ghost use Rattle.jx_c.specs.Reader.{state_in};

use jx_lex::{LexState, state_ordinals};

/// The number of a state among all of them.
pub fn number_of(state: LexState) -> u32
    ensures { state_in result ≡ state }
{
    state_ordinals();
    state.number() as u32
}

/// The state of this number in a slice; where there is none, the one between tokens.
fn state_or_gap(states: &[LexState], number: usize) -> LexState
    ensures { result ≡ slice_index_or states.now number LexState.Gap }
{
    match states.get(number) {
        Some(state) => *state,
        None => LexState::Gap,
    }
}

/// The state of this number among all; where there is none, the one between tokens.
pub fn state_at(number: u32) -> LexState
    ensures { result ≡ state_in number }
{
    state_or_gap(&LexState::all(), number as usize)
}
