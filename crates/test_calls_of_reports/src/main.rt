// The program `test_calls_of_reports`: makes the calls that the lines of its input name, and prints what each answers, on the line
// of the same number. The calls are those of reports, of arguments and of the examples. An empty line and one
// that begins with `#` are printed as they stand.
#![tactic(auto)]

mod commands;
mod examples;
mod failing;
mod fault_words;
mod options;
mod outcome;
mod reader;
mod reports;
mod writer;

use std::io;
use std::sync::Wait;
use std::thread::Threads;
use test_words::{Line, answer_lines};

/// Makes the call that a line names.
fn make<R: Threads + Wait + Sync>(line: &mut Line<'_>, rt: &R) {
    match line.word() {
        "report" => reports::report(line, rt),
        "ends" => failing::ends(line, rt),
        "command" => commands::command(line),
        "command_on" => commands::command_on(line),
        "lines" => commands::lines(line),
        "example" => examples::example(line, rt),
        "words" => fault_words::words(line),
        _ => line.refuse(),
    }
}

fn main(rt: HostRuntime) -> io::Result<()> {
    answer_lines(&rt, |line| make(line, &rt))
}
