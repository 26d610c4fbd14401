// The program `test_calls`: makes the calls that the lines of its input name, and prints what each answers, on the line of the
// same number. An empty line and one that begins with `#` are printed as they stand.
#![tactic(auto)]

mod claim;
mod index;
mod lex;
mod reduce;
mod run;
mod words;

use std::io;
use test_words::{Line, answer_lines};

/// Makes the call that a line names.
fn make(line: &mut Line<'_>) {
    match line.word() {
        "words" => words::words(line),
        name => lex::make(name, line),
    }
}

fn main(rt: HostRuntime) -> io::Result<()> {
    answer_lines(&rt, make)
}
