// Lines and characters of a document.
pub(crate) mod encoding;
pub(crate) mod moves;
pub(crate) mod passing;
pub(crate) mod position;
pub(crate) mod seek;
pub(crate) mod steps;
