// The program `test_calls_of_documents`: makes the calls of documents that the lines of its input name, and prints what each
// answers, on the line of the same number. An empty line and one that begins with `#` are printed as they stand.
#![tactic(auto)]

mod edits;
mod places;
mod wear;

use std::io;
use std::thread::Threads;
use test_words::{Line, answer_lines};

/// Makes the call that a line names.
fn make<R: Threads + Sync>(line: &mut Line<'_>, rt: &R) {
    match line.word() {
        "document" => edits::document(line),
        "workers" => edits::workers(line, rt),
        "positions" => places::positions(line),
        "offsets" => places::offsets(line),
        "worn" => wear::worn(line),
        _ => line.refuse(),
    }
}

fn main(rt: HostRuntime) -> io::Result<()> {
    answer_lines(&rt, |line| make(line, &rt))
}
