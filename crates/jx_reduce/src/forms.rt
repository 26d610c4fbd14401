// Forms: the outcome of tokens from an entry, whatever is open.
pub(crate) mod act;
pub(crate) mod checks;
pub(crate) mod ended_level;
pub(crate) mod entry;
pub(crate) mod entry_view;
pub(crate) mod form_ref;
pub(crate) mod level;
pub(crate) mod levels;
pub(crate) mod parts;
pub(crate) mod quiet;
pub(crate) mod shift;
pub(crate) mod structure;
