// The entry of a chunk.
use crate::sum::Sum;
use jx_lex::LexState;
use jx_reduce::Expect;

/// The entry of a chunk of a text, or of up to 64 neighbours.
#[derive(Clone, Copy, Debug, PartialEq, Eq)]
pub struct Entry {
    /// The lexical state before its first byte.
    pub state: LexState,
    /// The expectation before its first byte.
    pub expect: Expect,
    /// The effect of its token starts on open containers.
    pub sum: Sum,
    /// Whether a token start begins in it.
    pub begins: bool,
    /// Whether a byte of it shows where a string, a number or a literal ends.
    pub ends: bool,
    /// XXH64 of its bytes, or of the entries of the neighbours as they are written.
    pub digest: u64,
}
