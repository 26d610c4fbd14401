// The accumulator behind its lock: each `Share` puts runs there and takes them out, and the result is gathered when all
// are back.
pub(crate) mod book;
pub(crate) mod gathering;
pub(crate) mod locked;
pub(crate) mod share;
