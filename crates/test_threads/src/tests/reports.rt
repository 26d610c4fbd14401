// Reports by two workers, of whom one takes a chunk and waits until the other has put a run into the accumulator.
ghost use Rattle.std.specs.Prelude.{◌≡◌, ◌≤◌};

use crate::tests::meeting::{Meeting, Until};
use jx_crew::Workers;
use jx_ends::{End, Exit, ReportFault};
use jx_lex::Depth;
use jx_report::{report, report_in_batches};
use jx_run::{FrontMark, NameRule, Settings};
use jx_task::{Command, Task};
use std::alloc::Global;
use std::process::Abort;
use std::sync::Wait;
use std::thread::Threads;

#[test]
fn another_worker_goes_on_in_a_report(rt: HostRuntime) {
    let gate = Meeting::new(Until::Moved);
    let command = check_by_two(&rt, 2);
    let (answer, output) = reported(&rt, rt.alloc(), &command, &gate);
    check_accepted(&rt, answer, &output, &gate);
}

// In the first batch its front is taken, and the two chunks after that. In the second one a worker takes a chunk and waits.
#[test]
fn another_worker_goes_on_in_the_second_batch_too(rt: HostRuntime) {
    let gate = Meeting::behind(3, Until::Moved);
    let command = check_by_two(&rt, 1);
    let (answer, output) = reported_in_batches(&rt, rt.alloc(), &command, &gate);
    check_accepted(&rt, answer, &output, &gate);
}

/// The answer of a report, and what it writes.
fn reported<R: Threads + Wait + Sync>(
    rt: &R,
    alloc: Global,
    command: &Command,
    gate: &Meeting,
) -> (Result<Exit, ReportFault>, Vec<u8>)
    requires { 1 ≤ command.now.piece }
{
    let mut reader = End::new(b"[1,2]".as_slice());
    let mut writer = End::new(Vec::new(alloc));
    let answer = report(rt, alloc, &mut reader, &mut writer, command, gate);
    (answer, writer.inner)
}

/// The same where three bytes are read at a time.
fn reported_in_batches<R: Threads + Wait + Sync>(
    rt: &R,
    alloc: Global,
    command: &Command,
    gate: &Meeting,
) -> (Result<Exit, ReportFault>, Vec<u8>)
    requires { 1 ≤ command.now.piece }
{
    let mut reader = End::new(b"[1,2]".as_slice());
    let mut writer = End::new(Vec::new(alloc));
    let answer = report_in_batches(rt, alloc, &mut reader, &mut writer, command, gate, 3);
    (answer, writer.inner)
}

// Fails unless the text is accepted, and both workers have met.
fn check_accepted<R: Abort>(
    rt: &R,
    answer: Result<Exit, ReportFault>,
    output: &[u8],
    gate: &Meeting,
) {
    assert!(rt; answer == Ok(Exit::Good));
    assert!(rt; output == b"accepted\n".as_slice());
    assert!(rt; gate.took_place());
}

/// A check by two workers, who read so many bytes at a time.
fn check_by_two<R: Abort>(rt: &R, piece: usize) -> Command
    ensures { result.piece ≡ piece }
{
    Command {
        task: Task::Check,
        settings: Settings {
            depth: Depth::default(),
            mark: FrontMark::Refused,
            names: NameRule::Any,
        },
        workers: Workers::new(2).expect(rt, "workers"),
        piece,
        quiet: false,
    }
}
