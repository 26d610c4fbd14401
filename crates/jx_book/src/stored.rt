// Runs with the text that they were read from, what lies between them, and the runs that stand in the accumulator.
pub(crate) mod assembling;
pub(crate) mod closed;
pub(crate) mod gaps;
pub(crate) mod held;
pub(crate) mod state;
