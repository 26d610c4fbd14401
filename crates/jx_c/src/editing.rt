// Texts that are edited.
pub(crate) mod document;
pub(crate) mod held;
