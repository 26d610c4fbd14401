// Inputs that stand in memory as a whole: their rows, and what pointers lead to in them.
pub(crate) mod by_names;
pub(crate) mod lookups;
pub(crate) mod sequences;
pub(crate) mod texts;
