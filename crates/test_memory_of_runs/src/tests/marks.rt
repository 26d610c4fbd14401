// Lists of token starts, made at once, joined at each place and read one by one, beside the table of moves.
mod by_chance;
mod chance;
mod drawn;
mod extends;
mod known_stacks;
mod lists;
mod readings;
mod reducers;

pub(crate) use lists::{is_same, joined_at, mark};
