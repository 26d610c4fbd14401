//! Tests that are data: a line is a call with its words, and another line its answer. Here are the words that programs of
//! such calls have in common: how a line writes what a call takes, how it writes what a call answers, and how a program goes
//! through its lines. Here is too what tests of token starts look at beside the calls: the table of moves, read one token start at a time.
//!
//! A line has a call's name and its words, parted by one space. An empty line and a line that begins with `#` are no call.
//!
//! A text is one word. Its bytes 21 to 7E stand for themselves, but `\`:
//!
//! | Written | Stands for |
//! |---|---|
//! | `\xHH` | the byte with these hexadecimal digits |
//! | `\*N;` | the byte after it, N times: `\*600;[`, `\*3;\x20` |
//! | `\(N;` .. `\)` | the bytes between, N times: `\(80;1,\x0A\)`. It holds no other such part |
//! | `\-` | no bytes, where it is the whole word |
//!
//! A number is decimal. A span is `S..E`, a span that is cut in two `S..C..E`. A list of numbers is `2,3`, or `-` for none. Cuts
//! are such a list, or `each` for each single one and `pairs` for each pair too; both also try none. Settings are letters:
//! `b` where a byte order mark is ignored, `u` where names have to be unique, or `-`. States and expectations have the names
//! that they have in Rust. Open containers are letters, the outermost first: `A` for an array, `O` for an object, or `-`.
//! Token starts are each a letter and an offset, joined by `+`, or `-` for none: `,6+n7+]8`. The letters are `[ ] { } : ,` and, for
//! strings, numbers, `true`, `false` and `null`, `s n t f z`.
#![tactic(auto)]

mod answers;
mod cuts;
mod line;
mod moves;
mod names;
mod numbers;
mod out;
mod program;
mod spelt;
mod structures;
mod texts;
mod ways;

pub use answers::{push_elements, push_found, push_numbers, push_rows, push_span, push_verdict};
pub use cuts::cuts_of;
pub use line::{Line, LineFault};
pub use moves::{EXPECTS, HOLDER_LISTS, all_by_table, comes_to, follow, kind_of};
pub use names::settings_of;
pub use numbers::{Meeting, depth_of, meeting_within, number_of, span_within};
pub use out::Out;
pub use program::answer_lines;
pub use spelt::push_text;
pub use structures::{Maker, parts_of, structure_of};
pub use texts::{bytes_of, text_of, texts_of};
pub use ways::Ways;
