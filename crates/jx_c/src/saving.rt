// Saved indexes.
pub(crate) mod held_save;
pub(crate) mod held_saved;
pub(crate) mod opened;
pub(crate) mod save;
pub(crate) mod saved;
pub(crate) mod saver;
