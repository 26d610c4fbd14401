//! The program `jx-lsp`: a language server for JSON on standard input and output.
#![tactic(auto)]

mod serve;

use serve::{Ended, serve};
use std::process::ExitCode;
use std::{env, io};

const HELP: &str = "jx-lsp shows an editor on each change where a JSON text (RFC 8259) stops being
one, by the Language Server Protocol.

Usage: jx-lsp [--stdio]

It reads messages on standard input and writes messages on standard output.
An editor starts it; jx-lsp(1) and docs/EDITORS.md say how.

Options:
      --stdio    Speak on standard input and output, as it does anyway
  -h, --help     Print help
  -V, --version  Print version

Exit status: 0 after shutdown and exit, 1 where the client ends otherwise or
its messages cannot be read, 2 for wrong arguments.
";

const VERSION: &str = "jx-lsp 0.3.0\n";

const WRONG: &str = "jx-lsp: wrong arguments; see jx-lsp --help\n";

const NO_MEMORY: &str = "jx-lsp: out of memory\n";

/// The task of a call.
#[derive(Clone, Copy, Debug, PartialEq, Eq)]
enum Task {
    Serve,
    Help,
    Version,
    Wrong,
}

/// The task of these arguments; the first is the program's own name.
fn task_of(words: &[&str]) -> Task {
    match words {
        [] | [_] | [_, "--stdio"] => Task::Serve,
        [_, "-h" | "--help"] => Task::Help,
        [_, "-V" | "--version"] => Task::Version,
        _ => Task::Wrong,
    }
}

fn asked(rt: &HostRuntime) -> io::Result<Task> {
    let alloc = rt.alloc();
    let owned: Vec<String> = env::args(rt)?.collect(alloc)?;
    let words: Vec<&str> = owned.iter().map(|word| word.as_str()).collect(alloc)?;
    Ok(task_of(&words))
}

fn tell(rt: &HostRuntime, words: &str) -> ExitCode {
    match rt.print(words) {
        Ok(()) => ExitCode::SUCCESS,
        Err(_) => ExitCode::FAILURE,
    }
}

/// The message where the arguments could not be read.
fn words_of(fault: &io::Error) -> &'static str {
    match fault.kind() {
        io::ErrorKind::OutOfMemory => NO_MEMORY,
        _ => WRONG,
    }
}

fn refuse(rt: &HostRuntime, words: &str) -> ExitCode {
    let _ = rt.eprint(words);
    ExitCode::from(2)
}

fn main(rt: HostRuntime) -> ExitCode {
    match asked(&rt) {
        Ok(Task::Help) => tell(&rt, HELP),
        Ok(Task::Version) => tell(&rt, VERSION),
        Ok(Task::Serve) => match serve(rt.alloc(), &mut rt.stdin(), &mut rt.stdout()) {
            Ok(Ended::Clean) => ExitCode::SUCCESS,
            Ok(Ended::Early) | Err(_) => ExitCode::FAILURE,
        },
        Ok(Task::Wrong) => refuse(&rt, WRONG),
        Err(fault) => refuse(&rt, words_of(&fault)),
    }
}
