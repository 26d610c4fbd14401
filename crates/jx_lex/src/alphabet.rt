// The alphabet and the machine: classes of bytes, the states, what a byte does in each, and the token starts and exits
// that come of it.
pub(crate) mod cell;
pub(crate) mod cells;
pub(crate) mod class;
pub(crate) mod classes;
pub(crate) mod lex_exit;
pub(crate) mod machine;
pub(crate) mod mark;
pub(crate) mod state;
