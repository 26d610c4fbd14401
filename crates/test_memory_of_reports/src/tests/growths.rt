// Reports over memory where an allocation fails: the right output, or out of memory with nothing written, and then the right output
// where it is asked for again.
ghost use Rattle.std.specs.Prelude.{◌≡◌, ◌≤◌, IfSome};

use jx_crew::{Event, Gate, Go, Workers};
use jx_ends::{End, Exit, ReportFault};
use jx_lex::Depth;
use jx_report::{report, report_in_batches};
use jx_run::{FrontMark, NameRule};
use jx_task::{Command, Task};
use std::alloc::{AllocError, Global};
use std::env::Env;
use std::process::Abort;
use std::sync::Wait;
use std::thread::Threads;
use test_memory_of_runs::inputs::{
    FIVE_ROWS, NESTED, REPEATED, REPEATED_SEQUENCE, SEQUENCE, UNSORTED, WIDE, settings,
};
use test_memory_of_runs::lines::Lines;

// Lets every worker go on. Since it may be asked, short inputs have workers too.
#[derive(Drop)]
struct Passing;

impl Gate for Passing {
    fn pass(&self, _event: Event) -> Go {
        Go::On
    }
}

// The question that is asked of an input.
#[derive(Clone, Copy, Debug)]
enum Asked {
    Check,
    Index,
    At(&'static str, &'static str),
    Seq,
}

// The question, the rules on a byte order mark and on names, the input, the output, and how the report ends.
type Case = (
    Asked,
    (FrontMark, NameRule),
    &'static [u8],
    &'static str,
    Exit,
);

const PLAIN: (FrontMark, NameRule) = (FrontMark::Refused, NameRule::Any);

const MARKED: (FrontMark, NameRule) = (FrontMark::Ignored, NameRule::Any);

const UNIQUE: (FrontMark, NameRule) = (FrontMark::Refused, NameRule::Unique);

const REPORTS: [Case; 13] = [
    (Asked::Check, PLAIN, b"null", "accepted\n", Exit::Good),
    (Asked::Check, PLAIN, FIVE_ROWS, "accepted\n", Exit::Good),
    (
        Asked::Index,
        PLAIN,
        FIVE_ROWS,
        "accepted\n0 object 0..17 - 0 -\n1 array 5..16 0 0 1..4\n2 number 6..7 1 0 -\n3 object 8..15 1 1 -\n4 number 13..14 3 0 9..12\n",
        Exit::Good,
    ),
    (
        Asked::Index,
        PLAIN,
        NESTED,
        "accepted\n0 array 0..6 - 0 -\n1 array 1..5 0 0 -\n2 array 2..4 1 0 -\n",
        Exit::Good,
    ),
    (
        Asked::At("/a/1/b", "/a/2"),
        PLAIN,
        FIVE_ROWS,
        "found number 13..14\npast end at token 1\n",
        Exit::Bad,
    ),
    (
        Asked::At("/a", ""),
        PLAIN,
        REPEATED,
        "name repeated at token 0\nfound object 0..18\n",
        Exit::Bad,
    ),
    (
        Asked::At("/a", "/b"),
        PLAIN,
        UNSORTED,
        "found number 11..12\nname repeated at token 0\n",
        Exit::Bad,
    ),
    (
        Asked::At("/\u{1F600}", "/\u{FF5E}"),
        PLAIN,
        WIDE,
        "found number 16..17\nfound number 7..8\n",
        Exit::Good,
    ),
    (
        Asked::Seq,
        PLAIN,
        SEQUENCE,
        "1..6 accepted\n7..11 may be cut\n13..16 truncated\n",
        Exit::Bad,
    ),
    (
        Asked::Index,
        MARKED,
        b"\xEF\xBB\xBF[1]",
        "accepted\n0 array 3..6 - 0 -\n1 number 4..5 0 0 -\n",
        Exit::Good,
    ),
    (
        Asked::Check,
        UNIQUE,
        REPEATED,
        "repeated name at 7\n",
        Exit::Bad,
    ),
    (
        Asked::Index,
        UNIQUE,
        REPEATED,
        "repeated name at 7\n",
        Exit::Bad,
    ),
    (
        Asked::Seq,
        UNIQUE,
        REPEATED_SEQUENCE,
        "1..20 repeated name at 8\n",
        Exit::Bad,
    ),
];

#[test]
fn reports_by_one_worker_under_a_refused_growth(rt: HostRuntime) {
    check_reports(&rt, rt.alloc(), 1)
}

#[test]
fn reports_by_two_workers_under_a_refused_growth(rt: HostRuntime) {
    check_reports(&rt, rt.alloc(), 2)
}

// A table stands in the frame of each function that names it, so that one function alone does.
fn check_reports<R: Abort + Env + Threads + Wait + Sync>(rt: &R, alloc: Global, count: u8) {
    check_all(rt, alloc, &REPORTS, Call::Report, count)
}

// Inputs that are read in several batches.
const BATCHES: [Case; 4] = [
    (Asked::Check, PLAIN, FIVE_ROWS, "accepted\n", Exit::Good),
    (
        Asked::Check,
        MARKED,
        b"\xEF\xBB\xBF{\"a\":[1,{\"b\":2}]}",
        "accepted\n",
        Exit::Good,
    ),
    (Asked::Check, PLAIN, NESTED, "accepted\n", Exit::Good),
    (
        Asked::Seq,
        PLAIN,
        SEQUENCE,
        "1..6 accepted\n7..11 may be cut\n13..16 truncated\n",
        Exit::Bad,
    ),
];

#[test]
fn batches_by_one_worker_under_a_refused_growth(rt: HostRuntime) {
    check_batches(&rt, rt.alloc(), 1)
}

#[test]
fn batches_by_two_workers_under_a_refused_growth(rt: HostRuntime) {
    check_batches(&rt, rt.alloc(), 2)
}

fn check_batches<R: Abort + Env + Threads + Wait + Sync>(rt: &R, alloc: Global, count: u8) {
    check_all(rt, alloc, &BATCHES, Call::Batches, count)
}

// The call that makes a report.
#[derive(Clone, Copy)]
enum Call {
    Report,
    /// Four bytes are read at a time.
    Batches,
}

// Each of these reports, by that many workers.
fn check_all<R: Abort + Env + Threads + Wait + Sync>(
    rt: &R,
    alloc: Global,
    cases: &[Case],
    call: Call,
    count: u8,
) {
    let mut lines = Lines::of(rt);
    for case in cases {
        if lines.takes_next() {
            check(rt, alloc, case, call, count);
        }
    }
}

/// Room for what these reports write, so that a write takes no memory.
fn room(alloc: Global) -> Result<Vec<u8>, AllocError> {
    match Vec::with_capacity(alloc, 256) {
        Ok(bytes) => Ok(bytes),
        Err(_) => Vec::with_capacity(alloc, 256),
    }
}

// Two pointers.
fn pointers(alloc: Global, spelt: [&str; 2]) -> Result<Vec<String>, AllocError> {
    let mut pointers = Vec::with_capacity(alloc, 2)?;
    for pointer in spelt {
        pointers.push(String::from_str(alloc, pointer)?)?;
    }
    Ok(pointers)
}

// The task, asked for twice where its pointers have no memory.
fn task_of(alloc: Global, asked: Asked) -> Result<Task, AllocError> {
    match asked {
        Asked::Check => Ok(Task::Check),
        Asked::Index => Ok(Task::Index),
        Asked::Seq => Ok(Task::Seq),
        Asked::At(first, second) => match pointers(alloc, [first, second]) {
            Ok(pointers) => Ok(Task::At(pointers)),
            Err(_) => Ok(Task::At(pointers(alloc, [first, second])?)),
        },
    }
}

/// A command for so many workers, who read a byte at a time.
fn command(alloc: Global, case: &Case, count: u8) -> Option<Command>
    ensures { IfSome result (λ c. c.piece ≡ 1) }
{
    let (asked, (mark, names), _, _, _) = *case;
    Some(Command {
        task: task_of(alloc, asked).ok()?,
        settings: settings(Depth::default(), mark, names),
        workers: Workers::new(count)?,
        piece: 1,
        quiet: false,
    })
}

// A report's answer, and what is written then after what the room has.
type Written = (Result<Exit, ReportFault>, Vec<u8>);

/// The answer of a report on an input, and all that it writes.
fn written<R: Threads + Wait + Sync>(
    rt: &R,
    alloc: Global,
    command: &Command,
    text: &[u8],
    room: Vec<u8>,
) -> Written
    requires { 1 ≤ command.now.piece }
{
    let mut reader = End::new(text);
    let mut writer = End::new(room);
    let answer = report(rt, alloc, &mut reader, &mut writer, command, &Passing);
    (answer, writer.inner)
}

/// The same where four bytes are read at a time.
fn written_in_batches<R: Threads + Wait + Sync>(
    rt: &R,
    alloc: Global,
    command: &Command,
    text: &[u8],
    room: Vec<u8>,
) -> Written
    requires { 1 ≤ command.now.piece }
{
    let mut reader = End::new(text);
    let mut writer = End::new(room);
    let (from, to) = (&mut reader, &mut writer);
    let answer = report_in_batches(rt, alloc, from, to, command, &Passing, 4);
    (answer, writer.inner)
}

fn written_by<R: Threads + Wait + Sync>(
    rt: &R,
    alloc: Global,
    command: &Command,
    text: &[u8],
    call: Call,
    room: Vec<u8>,
) -> Written
    requires { 1 ≤ command.now.piece }
{
    match call {
        Call::Report => written(rt, alloc, command, text, room),
        Call::Batches => written_in_batches(rt, alloc, command, text, room),
    }
}

/// The same, made once more where it was out of memory and has written nothing.
fn written_again<R: Threads + Wait + Sync>(
    rt: &R,
    alloc: Global,
    command: &Command,
    text: &[u8],
    call: Call,
    room: Vec<u8>,
) -> Written
    requires { 1 ≤ command.now.piece }
{
    let (answer, output) = written_by(rt, alloc, command, text, call, room);
    if answer == Err(ReportFault::Memory) && output.is_empty() {
        written_by(rt, alloc, command, text, call, output)
    } else {
        (answer, output)
    }
}

// Whether a report on an input in chunks of a byte, by that many workers, is right.
fn check<R: Abort + Threads + Wait + Sync>(
    rt: &R,
    alloc: Global,
    case: &Case,
    call: Call,
    count: u8,
) {
    let (_, _, text, output, exit) = *case;
    let command = command(alloc, case, count).expect(rt, "a command");
    let room = room(alloc).expect(rt, "room");
    let (answer, written) = written_again(rt, alloc, &command, text, call, room);
    let right = answer == Ok(exit) && written.as_slice() == output.as_bytes();
    assert!(rt; right, "{case:?} by {count}: {answer:?}, {written:?}");
}
