// The open containers of a text that is read from its start.
pub(crate) mod blocks;
pub(crate) mod bracket_walk;
pub(crate) mod containers;
pub(crate) mod known_sink;
pub(crate) mod known_stack;
pub(crate) mod next_words;
pub(crate) mod open_containers;
pub(crate) mod pass;
pub(crate) mod watch;
pub(crate) mod whole_tokens;
