// Where a reading ends.
use crate::alphabet::state::LexState;

/// Where a track ends: in a state, or at the offset of the first byte that no token can have there.
#[derive(Clone, Copy, Debug, PartialEq, Eq)]
pub enum LexExit {
    State(LexState),
    Fault(usize),
}
