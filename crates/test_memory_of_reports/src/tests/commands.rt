// Commands where an allocation fails.
use jx_command::{ArgFault, command_of};
use std::alloc::{AllocError, Global};
use std::test::Fail;
use test_memory_of_runs::lines::Lines;
use test_orders::push_order;
use test_words::Out;

// Words after the program's name, and what they ask for.
const COMMANDS: [(&[&str], &str); 14] = [
    (&["chek"], "wrong words"),
    (
        &["at", "/1", "/2", "x"],
        "at /1 /2 x; depth 512, mark Refused, names Any, workers 4, piece 65536",
    ),
    (
        &["seq"],
        "seq; depth 512, mark Refused, names Any, workers 4, piece 65536",
    ),
    (
        &["at", "--file", "F", "--pointers", "G"],
        "at; depth 512, mark Refused, names Any, workers 4, piece 65536; file F; pointers G",
    ),
    (
        &[
            "whole", "--to", "9", "--from", "3", "--file", "F", "--depth", "2",
        ],
        "whole 3..9; depth 2; file F",
    ),
    (
        &["get", "/1", "x", "-rc", "--file", "F", "--pointers", "G"],
        "get /1 x; depth 512, mark Refused, names Any, workers 4, piece 65536, compact, raw; file F; pointers G",
    ),
    (
        &["get", "/1", "--index", "I", "--file", "F"],
        "get /1; depth 512, mark Refused, names Any, workers 4, piece 65536; file F; index I",
    ),
    (
        &["each", "/a", "--file", "F", "--depth", "7", "--piece", "5"],
        "each /a; depth 7, mark Refused, names Any, workers 1, piece 5; file F",
    ),
    (
        &["lines", "F", "G", "--depth", "7", "--skip-blank", "-q"],
        "lines; depth 7, mark Refused, names Any, skip blank, quiet; files F G",
    ),
    (
        &[
            "seq",
            "--live",
            "F",
            "G",
            "--depth",
            "7",
            "--ignore-bom",
            "-q",
        ],
        "seq, live; depth 7, mark Ignored, names Any, quiet; files F G",
    ),
    (
        &["save", "F", "--depth", "7", "--chunk", "64", "--names"],
        "save; depth 7, mark Refused, names Any, chunk 64, with names; file F",
    ),
    (
        &["split", "/a", "--index", "I", "--file", "F", "--parts", "8"],
        "split /a, parts 8; file F; index I",
    ),
    (
        &["check", "F", "-", "G"],
        "check; depth 512, mark Refused, names Any, workers 4, piece 65536; files F - G",
    ),
    (
        &[
            "check",
            "--file",
            "F",
            "--depth",
            "3",
            "--workers",
            "2",
            "--piece",
            "5",
            "--ignore-bom",
            "--unique-names",
            "-q",
        ],
        "check; depth 3, mark Ignored, names Unique, workers 2, piece 5, quiet; file F",
    ),
];

#[test]
fn commands_under_a_refused_growth(rt: HostRuntime) -> Result<(), Fail> {
    let mut lines = Lines::of(&rt);
    for (words, want) in &COMMANDS {
        if lines.takes_next() {
            let asked = match asked_by(rt.alloc(), words) {
                Ok(asked) => asked,
                Err(AllocError) => asked_by(rt.alloc(), words)?,
            };
            assert_eq!(rt; asked.as_str(), *want);
        }
    }
    Ok(())
}

// All that these words ask for, as a line.
fn asked_by(alloc: Global, words: &[&str]) -> Result<String, AllocError> {
    let mut all = Vec::from_array(alloc, ["jx"])?;
    all.extend_from_slice(words)?;
    let mut told = Out::new(alloc);
    match command_of(alloc, &all, 4) {
        Ok(order) => push_order(&mut told, &order),
        Err(fault) => push_fault(&mut told, &fault),
    }
    told.finish()
}

fn push_fault(told: &mut Out, fault: &ArgFault) {
    match fault {
        ArgFault::Memory => told.refuse(),
        _ => told.push_str("wrong words"),
    }
}
