use crate::table::expect::Expect;
use crate::table::holder::Holder;

/// The outcome of a reading of tokens.
#[derive(Debug, PartialEq, Drop)]
pub enum Outcome {
    /// No fault: the expectation after the tokens, and the open containers, outermost first.
    Went {
        expect: Expect,
        holders: Vec<Holder>,
    },
    /// A token at this offset that the table of moves does not allow.
    Stopped(usize),
    /// A token at this offset that opens one container more than the depth.
    TooDeep(usize),
}
