use crate::table::expect::Expect;

/// The outcome of a reading of tokens that begins with no open container.
#[derive(Clone, Copy, Debug, PartialEq, Eq)]
pub enum Whole {
    /// No fault: the expectation after the tokens, and how many containers are open.
    Went { expect: Expect, open: usize },
    /// A token at this offset that the table of moves does not allow.
    Stopped(usize),
    /// A token at this offset that opens one container more than the depth.
    TooDeep(usize),
}
