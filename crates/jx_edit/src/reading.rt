// Where the bytes of a document lead.
pub(crate) mod led;
pub(crate) mod nesting;
pub(crate) mod place;
pub(crate) mod standing;
pub(crate) mod walk;
