// The result of reading a block.
use crate::kinds::TokenKinds;

/// The token starts among the first bytes of a block. Bit k of a word stands for byte k of the block.
#[derive(Clone, Copy, Debug, PartialEq, Eq)]
pub struct Masks {
    /// How many bytes were read: at least 1, at most 63.
    pub len: usize,
    /// The bytes that begin a token.
    pub starts: u64,
    /// The same bytes, by the kinds of the tokens.
    pub kinds: TokenKinds,
    /// Bytes that begin a token that was looked at by itself, which is slower. No contract speaks of it.
    pub one_by_one: u64,
}
