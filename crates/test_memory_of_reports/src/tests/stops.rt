// Reports in batches whose workers stop: the output is the same.
ghost use Rattle.std.specs.Prelude.{◌≡◌, ◌≤◌, ◌<◌, IfSome};

use jx_crew::Workers;
use jx_ends::{End, Exit, ReportFault};
use jx_lex::Depth;
use jx_report::report_in_batches;
use jx_run::{FrontMark, NameRule};
use jx_task::{Command, Task};
use std::alloc::Global;
use std::process::Abort;
use std::sync::Wait;
use std::sync::atomic::AtomicBool;
use std::thread::Threads;
use test_memory_of_runs::gates::{MANY, StopFrom};
use test_memory_of_runs::inputs::settings;

// A text, what is written for it, and how the report ends.
type Case = (&'static [u8], &'static [u8], Exit);

const MARK_REFUSED: [Case; 5] = [
    (b"{\"a\":[1,{\"b\":2}]}", b"accepted\n", Exit::Good),
    (b"[1,22,333,x4]", b"stopped at 10\n", Exit::Bad),
    (b"[[[[[[[[[1]]]]]]]]]", b"too deep at 8\n", Exit::Bad),
    (b"[1,\"a\",\xEF\xBB\xBF2]", b"stopped at 7\n", Exit::Bad),
    (b"\xEF\xBB\xBF[1,22,333,4]", b"stopped at 0\n", Exit::Bad),
];

const MARK_IGNORED: [Case; 5] = [
    (
        b"\xEF\xBB\xBF{\"a\":[1,{\"b\":2}]}",
        b"accepted\n",
        Exit::Good,
    ),
    (b"\xEF\xBB\xBF[1,22,333,x4]", b"stopped at 13\n", Exit::Bad),
    (
        b"\xEF\xBB\xBF[1,2,\"\xE6\x97\xA5\"",
        b"truncated\n",
        Exit::Bad,
    ),
    (
        b"\xEF\xBB\xBF[[[[[[[[[1]]]]]]]]]",
        b"too deep at 11\n",
        Exit::Bad,
    ),
    (b"[1,\"a\",\xEF\xBB\xBF2]", b"stopped at 7\n", Exit::Bad),
];

#[test]
fn workers_who_stop_change_no_verdict(rt: HostRuntime) {
    check_texts(&rt, rt.alloc(), FrontMark::Refused, &MARK_REFUSED);
    check_texts(&rt, rt.alloc(), FrontMark::Ignored, &MARK_IGNORED);
}

const SEQUENCE: Case = (
    b"\x1E[1]\n\x1E[2]\n\x1E{\"a\":[3]}\x1E4\n\x1E[5,6",
    b"1..5 accepted\n6..10 accepted\n11..20 accepted\n21..23 accepted\n24..28 truncated\n",
    Exit::Bad,
);

// They stop in each batch. The first one has two events for each of its parts, of which there are three at the most.
#[test]
fn workers_who_stop_in_a_sequence_change_no_verdict(rt: HostRuntime) {
    check_sequence(&rt, rt.alloc(), &SEQUENCE)
}

fn check_sequence<R: Abort + Threads + Wait + Sync>(rt: &R, alloc: Global, case: &Case) {
    for count in &[2u8, 5] {
        let sequence = command(Task::Seq, 2, FrontMark::Refused, *count).expect(rt, "a command");
        let events = stopped_from_each(rt, alloc, &sequence, 12, case);
        assert!(rt; events > 6);
    }
}

/// A command within a depth, for so many workers who read a byte at a time.
fn command(task: Task, containers: u32, mark: FrontMark, count: u8) -> Option<Command>
    ensures { IfSome result (λ c. c.piece ≡ 1) }
{
    Some(Command {
        task,
        settings: settings(Depth::new(containers)?, mark, NameRule::Any),
        workers: Workers::new(count)?,
        piece: 1,
        quiet: false,
    })
}

/// The answer of a report whose workers a gate stops, and what it writes.
fn written<R: Threads + Wait + Sync>(
    rt: &R,
    alloc: Global,
    command: &Command,
    batch: usize,
    text: &[u8],
    gate: &StopFrom,
) -> (Result<Exit, ReportFault>, Vec<u8>)
    requires piece { 1 ≤ command.now.piece }
    requires some { 1 ≤ batch }
    requires few { batch < 4294967296 }
{
    let mut reader = End::new(text);
    let mut writer = End::new(Vec::new(alloc));
    let answer = report_in_batches(rt, alloc, &mut reader, &mut writer, command, gate, batch);
    (answer, writer.inner)
}

/// Whether a report whose workers a gate stops answers and writes what it has to.
fn is_right<R: Threads + Wait + Sync>(
    rt: &R,
    alloc: Global,
    command: &Command,
    batch: usize,
    case: &Case,
    gate: &StopFrom,
) -> bool
    requires piece { 1 ≤ command.now.piece }
    requires some { 1 ≤ batch }
    requires few { batch < 4294967296 }
{
    let (text, output, exit) = *case;
    let (answer, written) = written(rt, alloc, command, batch, text, gate);
    answer == Ok(exit) && written.as_slice() == output && !gate.was_ignored()
}

/// Checks reports whose workers stop from an event on: first from the event 0, then from 1, and so on, until a run meets no
/// stop. Answers how many runs met a stop, which is how many events there are.
fn stopped_from_each<R: Abort + Threads + Wait + Sync>(
    rt: &R,
    alloc: Global,
    command: &Command,
    batch: usize,
    case: &Case,
) -> u64
    requires piece { 1 ≤ command.now.piece }
    requires some { 1 ≤ batch }
    requires few { batch < 4294967296 }
{
    let begun = AtomicBool::new(true);
    for number in 0..MANY {
        let gate = StopFrom::new(number, &begun);
        let right = is_right(rt, alloc, command, batch, case, &gate);
        assert!(rt; right, "{case:?}, stopped at {number}");
        if !gate.has_stopped() {
            return number;
        }
    }
    panic!(rt; "no run that meets no stop")
}

/// How many bytes of a text are read at a time.
const BATCH: usize = 8;

/// Checks a text whose workers stop in any batch. The first batch of each text meets a stop. Reading after a fault asks no
/// gate, so that only an accepted text has more events than one batch. One worker asks as it begins each chunk. Of several, the
/// first asks before and after the front, and all of them ask after each step with a chunk. Where names have to be unique, one
/// thread asks before each batch.
fn check_stops<R: Abort + Threads + Wait + Sync>(
    rt: &R,
    alloc: Global,
    mark: FrontMark,
    count: u8,
    case: &Case,
) {
    let mut command = command(Task::Check, 8, mark, count).expect(rt, "a command");
    let batches = stopped_from_each(rt, alloc, &command, BATCH, case);
    command.settings.names = NameRule::Unique;
    let by_names = stopped_from_each(rt, alloc, &command, BATCH, case);
    let least = least_of(count, case.2);
    let right = batches >= least && by_names > 0;
    assert!(rt;
        right,
        "{case:?} meets {batches} stops, {by_names} by names"
    );
}

/// How many events a text has at least: more than one batch has, where it is accepted.
fn least_of(count: u8, exit: Exit) -> u64 {
    match exit {
        Exit::Bad => 1,
        Exit::Good => {
            if count == 1 {
                BATCH as u64 + 1
            } else {
                2 * u64::from(count) + 1
            }
        }
    }
}

// These texts, each by one, two and five workers.
fn check_texts<R: Abort + Threads + Wait + Sync>(
    rt: &R,
    alloc: Global,
    mark: FrontMark,
    cases: &[Case],
) {
    for case in cases {
        for count in &[1u8, 2, 5] {
            check_stops(rt, alloc, mark, *count, case);
        }
    }
}
