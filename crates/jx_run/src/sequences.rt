// Elements of text sequences, and the verdicts on them.
pub(crate) mod element_verdict;
pub(crate) mod mark_alone;
pub(crate) mod marked_elements;
pub(crate) mod open_end;
pub(crate) mod part_elements;
pub(crate) mod separators;
