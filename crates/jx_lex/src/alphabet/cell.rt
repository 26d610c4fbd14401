// The cells of the lexical machine's table: what the machine does with a byte.
use crate::alphabet::mark::MarkKind;
use crate::alphabet::state::LexState;

/// The effect of one byte in a state. The state that is named is the next one.
#[derive(Clone, Copy, Debug)]
pub(crate) enum Cell {
    /// The machine goes on, inside a token or between tokens.
    Go(LexState),
    /// A token begins with the byte.
    Begin(LexState, MarkKind),
    /// A string or a literal ends with the byte.
    Close,
    /// A number ends before the byte.
    End(LexState),
    /// A number ends before the byte, with which the next token begins.
    EndThenBegin(LexState, MarkKind),
    /// The byte is a fault.
    Fault,
    /// A number ends before the byte, which is a fault.
    EndThenFault,
}
