// The forms of tokens from each entry.
pub(crate) mod reduced;
pub(crate) mod reducer;
pub(crate) mod reductions;
