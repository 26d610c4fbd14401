ghost use Rattle.std.specs.Prelude.{◌≡◌, ◌<◌, ◌≤◌, true, false, length, map, slice_get, is_err, IfOk, IfErr, OnErr};
ghost use Rattle.jx_files.specs.Files.{ways_of, IsFaultAt, IsFaultOf, ReportsEach, ReportsFirst};
ghost use Rattle.jx_files.specs.inside.Parts.{IsAnsweredBy, IsAnsweredFrom, IsAnsweredThere, IsFaultThere, IsPartOf, ReportsOne, ReportsPart};
ghost use Rattle.jx_parallel_report.specs.ReportsAt.{IsShared};

use crate::file_fault::FileFault;
use crate::naming::named_lines;
use crate::opener::Opener;
use crate::reason::Reason;
use crate::status::Status;
use crate::telling::tell;
use jx_crew::Gate;
use jx_drive_at::ReportAtFault;
use jx_ends::{End, Exit, ReportFault, Sink, Source, write_whole};
use jx_parallel::SharedAt;
use jx_parallel_report::{is_shared, report_at};
use jx_report::report;
use jx_task::Command;
use std::alloc::Global;
use std::sync::Wait;
use std::thread::Threads;

/// The answer on an input: how its report ends, and its lines.
#[derive(Drop)]
struct Answer {
    exit: Exit,
    lines: Vec<u8>,
}

/// The output for an argument, and its status.
#[derive(Drop)]
struct Part {
    lines: Vec<u8>,
    status: Status,
}

/// Reports into memory on what several threads read at offsets.
fn answer_at<R: Threads + Wait + Sync, F: SharedAt<Fault = Reason> + Sync>(
    rt: &R,
    alloc: Global,
    shared: &F,
    command: &Command,
) -> Result<Answer, FileFault>
    requires piece { 1 ≤ command.now.piece }
    requires shared { IsShared command.now }
    ensures ok { IfOk result (IsAnsweredThere command.now (F.content shared.now)) }
    ensures err { IfErr result (IsFaultThere (F.may_fail shared.now)) }
{
    let mut lines = End::new(Vec::new(alloc));
    match report_at(rt, alloc, shared, &mut lines, command) {
        Ok(exit) => Ok(Answer {
            exit,
            lines: lines.inner,
        }),
        Err(ReportAtFault::Read(reason)) => Err(FileFault::Read(reason)),
        // Only out of memory keeps lines from being written there.
        Err(ReportAtFault::Memory | ReportAtFault::Write) => Err(FileFault::Memory),
    }
}

/// Reports into memory on what an input gives, as it is read from its start to its end.
fn answer_from<
    R: Threads + Wait + Sync,
    S: Source + Send + Drop,
    F: SharedAt<Fault = Reason>,
    O: Opener<S, F>,
    G: Gate + Sync,
>(
    rt: &R,
    alloc: Global,
    opener: &O,
    input: S,
    command: &Command,
    gate: &G,
) -> Result<Answer, FileFault>
    requires unfailed { S.has_failed input ≡ false }
    requires piece { 1 ≤ command.now.piece }
    ensures ok { IfOk result (IsAnsweredFrom (ways_of (O.opens opener.now) (O.why opener.now) (O.shares opener.now) (O.may_fail opener.now) S.remaining S.has_failed) command.now input) }
    ensures err { IfErr result (IsFaultOf (ways_of (O.opens opener.now) (O.why opener.now) (O.shares opener.now) (O.may_fail opener.now) S.remaining S.has_failed) command.now input) }
{
    let mut input = input;
    let mut lines = End::new(Vec::new(alloc));
    match report(rt, alloc, &mut input, &mut lines, command, gate) {
        Ok(exit) => Ok(Answer {
            exit,
            lines: lines.inner,
        }),
        Err(ReportFault::Read) => Err(FileFault::Read(opener.why(&input))),
        Err(ReportFault::Pieces) => Err(FileFault::Pieces),
        // Only out of memory keeps lines from being written there.
        Err(ReportFault::Memory | ReportFault::Write) => Err(FileFault::Memory),
    }
}

/// Reports into memory on an input: by several threads at offsets, where it has offsets and the command reads it by several
/// workers.
fn answer_to<
    R: Threads + Wait + Sync,
    S: Source + Send + Drop,
    F: SharedAt<Fault = Reason> + Sync + Drop,
    O: Opener<S, F>,
    G: Gate + Sync,
>(
    rt: &R,
    alloc: Global,
    opener: &O,
    input: S,
    command: &Command,
    gate: &G,
) -> Result<Answer, FileFault>
    requires unfailed { S.has_failed input ≡ false }
    requires piece { 1 ≤ command.now.piece }
    ensures ok { IfOk result (IsAnsweredFrom (ways_of (O.opens opener.now) (O.why opener.now) (O.shares opener.now) (O.may_fail opener.now) S.remaining S.has_failed) command.now input) }
    ensures err { IfErr result (IsFaultOf (ways_of (O.opens opener.now) (O.why opener.now) (O.shares opener.now) (O.may_fail opener.now) S.remaining S.has_failed) command.now input) }
{
    if !is_shared(command) {
        return answer_from(rt, alloc, opener, input, command, gate);
    }
    match opener.share(input) {
        Ok(shared) => answer_at(rt, alloc, &shared, command),
        Err(input) => answer_from(rt, alloc, opener, input, command, gate),
    }
}

/// Opens what a word names, and reports on it into memory.
fn answer_on<
    R: Threads + Wait + Sync,
    S: Source + Send + Drop,
    F: SharedAt<Fault = Reason> + Sync + Drop,
    O: Opener<S, F>,
    G: Gate + Sync,
>(
    rt: &R,
    alloc: Global,
    opener: &O,
    word: &str,
    command: &Command,
    gate: &G,
) -> Result<Answer, FileFault>
    requires { 1 ≤ command.now.piece }
    ensures ok { IfOk result (λ answer. IsAnsweredBy (ways_of (O.opens opener.now) (O.why opener.now) (O.shares opener.now) (O.may_fail opener.now) S.remaining S.has_failed) command.now word.now answer) }
    ensures err { IfErr result (λ fault. IsFaultAt (ways_of (O.opens opener.now) (O.why opener.now) (O.shares opener.now) (O.may_fail opener.now) S.remaining S.has_failed) command.now word.now fault) }
{
    match opener.open(word) {
        Ok(input) => answer_to(rt, alloc, opener, input, command, gate),
        Err(fault) => Err(fault),
    }
}

/// The output for an argument: the lines for what it names, after its name.
fn part_of<
    R: Threads + Wait + Sync,
    S: Source + Send + Drop,
    F: SharedAt<Fault = Reason> + Sync + Drop,
    O: Opener<S, F>,
    G: Gate + Sync,
>(
    rt: &R,
    alloc: Global,
    opener: &O,
    word: &str,
    command: &Command,
    gate: &G,
) -> Result<Part, FileFault>
    requires { 1 ≤ command.now.piece }
    ensures ok { IfOk result (λ part. IsPartOf (ways_of (O.opens opener.now) (O.why opener.now) (O.shares opener.now) (O.may_fail opener.now) S.remaining S.has_failed) command.now word.now part) }
    ensures err { IfErr result (λ fault. IsFaultAt (ways_of (O.opens opener.now) (O.why opener.now) (O.shares opener.now) (O.may_fail opener.now) S.remaining S.has_failed) command.now word.now fault) }
{
    let answer = answer_on(rt, alloc, opener, word, command, gate)?;
    match named_lines(alloc, word, &answer.lines) {
        Ok(lines) => Ok(Part {
            lines,
            status: Status::of_exit(answer.exit),
        }),
        Err(_) => Err(FileFault::Memory),
    }
}

/// Reports on what one word names.
fn report_on_one<
    R: Threads + Wait + Sync,
    S: Source + Send + Drop,
    F: SharedAt<Fault = Reason> + Sync + Drop,
    O: Opener<S, F>,
    W: Sink,
    E: Sink,
    G: Gate + Sync,
>(
    rt: &R,
    alloc: Global,
    opener: &O,
    word: &str,
    writer: &mut W,
    errors: &mut E,
    command: &Command,
    gate: &G,
) -> Result<Status, ReportFault>
    requires writer { W.has_failed writer.old ≡ false }
    requires piece { 1 ≤ command.now.piece }
    ensures ok { IfOk result (λ status. ReportsOne (ways_of (O.opens opener.now) (O.why opener.now) (O.shares opener.now) (O.may_fail opener.now) S.remaining S.has_failed) command.now word.now
        (W.contents writer.old) (W.contents writer.new) (E.has_failed errors.new) (E.contents errors.old) (E.contents errors.new) status) }
    ensures err { OnErr result (ReportsPart (ways_of (O.opens opener.now) (O.why opener.now) (O.shares opener.now) (O.may_fail opener.now) S.remaining S.has_failed) command.now word.now (W.contents writer.old) (W.contents writer.new)) }
    ensures fault { IfErr result (λ fault. fault ≡ ReportFault.Write) }
    ensures failed { W.has_failed writer.new ≡ is_err result }
    ensures lost { E.has_failed errors.old ≡ true → E.has_failed errors.new ≡ true }
{
    match part_of(rt, alloc, opener, word, command, gate) {
        Ok(part) => {
            write_whole(writer, &part.lines)?;
            Ok(part.status)
        }
        Err(fault) => {
            tell(errors, word, fault);
            Ok(Status::Fault)
        }
    }
}

/// The word with this number, counted from 0.
fn word_at<'a>(words: &[&'a str], number: usize) -> &'a str
    requires { number < length words.now }
    ensures { slice_get words.now number ≡ Some result }
{
    words[number]
}

/// Opens what each word names, in the order of the words, and reports on it: each line of its output is written after the
/// argument as it is shown, a colon and a space, and a quiet command writes nothing. What cannot be read of one is reported by a line,
/// `jx: NAME: FAULT`, and the others are reported on. The status is the greatest of all.
///
/// Each output is in memory before it is written. Where a write fails, the other arguments are left out. Where writing a message
/// fails, no more is written to standard error.
pub fn report_on_each<
    R: Threads + Wait + Sync,
    S: Source + Send + Drop,
    F: SharedAt<Fault = Reason> + Sync + Drop,
    O: Opener<S, F>,
    W: Sink,
    E: Sink,
    G: Gate + Sync,
>(
    rt: &R,
    alloc: Global,
    opener: &O,
    words: &[&str],
    writer: &mut W,
    errors: &mut E,
    command: &Command,
    gate: &G,
) -> Result<Status, ReportFault>
    requires writer { W.has_failed writer.old ≡ false }
    requires piece { 1 ≤ command.now.piece }
    ensures ok { IfOk result (λ status. ReportsEach (ways_of (O.opens opener.now) (O.why opener.now) (O.shares opener.now) (O.may_fail opener.now) S.remaining S.has_failed) command.now (map (λ word. word.now) words.now)
        (W.contents writer.old) (W.contents writer.new) (E.has_failed errors.new) (E.contents errors.old) (E.contents errors.new) status) }
    // After a write fault a beginning of the output for the first words was written.
    ensures err { OnErr result (ReportsFirst (ways_of (O.opens opener.now) (O.why opener.now) (O.shares opener.now) (O.may_fail opener.now) S.remaining S.has_failed) command.now (map (λ word. word.now) words.now)
        (W.contents writer.old) (W.contents writer.new)) }
    ensures fault { IfErr result (λ fault. fault ≡ ReportFault.Write) }
    ensures failed { W.has_failed writer.new ≡ is_err result }
{
    let mut status = Status::Good;
    for number in 0..words.len() {
        let word = word_at(words, number);
        let next = report_on_one(rt, alloc, opener, word, writer, errors, command, gate)?;
        status = status.greatest(next);
    }
    Ok(status)
}
