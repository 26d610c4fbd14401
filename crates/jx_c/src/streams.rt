// Texts that come slice by slice.
pub(crate) mod finder;
pub(crate) mod held_finder;
pub(crate) mod held_lines;
pub(crate) mod held_values;
pub(crate) mod lines;
pub(crate) mod reader;
pub(crate) mod seeking;
pub(crate) mod stack;
pub(crate) mod states;
pub(crate) mod stream;
pub(crate) mod values;
