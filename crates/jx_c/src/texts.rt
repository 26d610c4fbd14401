// Whole texts, and indexes of them.
pub(crate) mod all;
pub(crate) mod by_names;
pub(crate) mod catalog;
pub(crate) mod check;
pub(crate) mod compact;
pub(crate) mod elements;
pub(crate) mod explain;
pub(crate) mod held_index;
pub(crate) mod held_shelf;
pub(crate) mod index;
pub(crate) mod look_up;
pub(crate) mod rows;
pub(crate) mod shelf;
pub(crate) mod shelf_share;
