// Texts that are read from their start.
pub(crate) mod one_pass;
pub(crate) mod progress;
pub(crate) mod reader;
pub(crate) mod started;
pub(crate) mod telling;
