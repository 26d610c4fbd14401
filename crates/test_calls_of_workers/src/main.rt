// The program `test_calls_of_workers`: makes the calls that the lines of its input name, and prints what each answers, on the line
// of the same number. The calls are those of divisions, of accumulators that workers fill, of the answers of workers and of the shelf. An
// empty line and one that begins with `#` are printed as they stand.
#![tactic(auto)]

mod copied;
mod cuttings;
mod elements;
mod fault_words;
mod found;
mod gates;
mod holding;
mod joins;
mod many;
mod pointers;
mod puts;
mod readings;
mod runs;
mod scarce;
mod sequences;
mod stops;
mod texts;

use copied::Copied;
use scarce::Scarce;
use std::io;
use std::sync::Wait;
use std::thread::Threads;
use test_words::{Line, answer_lines};

/// Makes the call that a line names.
fn make<R: Threads + Wait + Sync>(line: &mut Line<'_>, rt: &R) {
    match line.word() {
        "text" => texts::text(line, rt),
        "seq" => sequences::seq(line, rt),
        "all" => pointers::all(line, rt),
        "many" => many::many(line, rt),
        "puts" => puts::puts(line, rt),
        "join" => joins::join(line),
        "finish" => puts::finish(line, rt),
        "work" => stops::work::<Copied, R>(line, rt),
        "scarce" => stops::work::<Scarce, R>(line, rt),
        "read" => readings::read(line, rt),
        "words" => fault_words::words(line),
        _ => line.refuse(),
    }
}

fn main(rt: HostRuntime) -> io::Result<()> {
    answer_lines(&rt, |line| make(line, &rt))
}
