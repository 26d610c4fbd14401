// The program `test_calls_of_indexes`: makes the calls of `jx_file_index`, `jx_file_build` and `jx_file_lines` that the lines of its input name, and prints what each answers,
// on the line of the same number. An empty line and one that begins with `#` are printed as they stand.
#![tactic(auto)]

mod answers;
mod call;
mod line_calls;

use call::make;
use std::io;
use test_words::answer_lines;

fn main(rt: HostRuntime) -> io::Result<()> {
    answer_lines(&rt, make)
}
