// Texts by settings, and the verdict on one.
pub(crate) mod byte_order_mark;
pub(crate) mod settings;
pub(crate) mod verdict;
