// The text of a document in chunks.
pub(crate) mod chunk;
pub(crate) mod chunked;
pub(crate) mod chunks;
pub(crate) mod filled;
pub(crate) mod making;
pub(crate) mod patch;
pub(crate) mod replacement;
pub(crate) mod seam;
pub(crate) mod sums;
