//! The index of a JSON text: its rows, its members by name, and what a pointer leads to.
#![tactic(auto)]

mod array_token;
mod builder;
mod child_lists;
mod children;
mod cut_names;
mod fed;
mod find;
mod find_fault;
mod finder;
mod in_order;
mod indexed;
mod judging;
mod laws;
mod look_up;
mod member_order;
mod name_keys;
mod name_lists;
mod names;
mod open_names;
mod pointer;
mod pointer_ways;
mod read_met;
mod repeats;
mod row;
mod rows_alone;
mod seeker;
mod starts;
mod text_answer;
mod trie;
mod trie_build;
mod trie_nodes;
mod unique_names;
mod units;
mod wanted;

pub use builder::has_end;
pub use children::Children;
pub use cut_names::{bytes_there, held_name, moved, token_bytes};
pub use fed::{answers_along, answers_of};
pub use find_fault::FindFault;
pub use finder::{Cursor, Found, Met, State};
pub use indexed::Indexed;
pub use judging::{judge_elements, judged_by_names};
pub use laws::{
    index_behind_a_front, look_ups_with_unique_names, repeated_name_by_rows, rows_of_look_ups,
    strings_pointers_and_rows,
};
pub use pointer::{Pointer, PointerFault};
pub use pointer_ways::{Way, ways_of};
pub use row::{NodeId, Row};
pub use rows_alone::{read_rows, rows_from};
pub use seeker::Seeker;
pub use starts::starts_of;
pub use text_answer::TextAnswer;
pub use trie::Edge;
pub use trie_build::trie_of;
pub use unique_names::{repeated_name, verdict_with_unique_names};
