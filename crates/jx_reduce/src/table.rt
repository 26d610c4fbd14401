// The table of moves: the effect of each token on the expectation and on the open containers.
pub(crate) mod expect;
pub(crate) mod holder;
pub(crate) mod moves;
pub(crate) mod outcome;
pub(crate) mod whole;
