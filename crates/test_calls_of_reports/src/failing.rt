// The answers and the output of reports whose ends fail.
use crate::outcome::{Outcome, push_outcome};
use crate::reader::Giving;
use crate::reports::{Asked, Way, next_asked, outcome_by, ways_of, workers_of};
use crate::writer::{Refusal, Taking};
use jx_ends::ReportFault;
use std::alloc::Global;
use std::io;
use std::sync::Wait;
use std::thread::Threads;
use test_words::{Line, LineFault, Out};

/// How many reports failed by their reader and by their writer, and the first that did not answer as it has to.
#[derive(Drop)]
struct Failures {
    alloc: Global,
    reads: usize,
    writes: usize,
    other: Option<Out>,
}

impl Failures {
    fn note(&mut self, outcome: &Outcome, is_right: bool) {
        if !is_right && self.other.is_none() {
            let mut told = Out::new(self.alloc);
            push_outcome(&mut told, outcome);
            self.other = Some(told);
        }
    }

    fn push_to(&self, out: &mut Out) {
        let (reads, writes) = (self.reads, self.writes);
        out.put(format_args!("; {reads} reads fail, {writes} writes"));
        if let Some(told) = &self.other {
            out.push_str("; but ");
            out.push(told);
        }
    }
}

/// `ends TASK OPTIONS TEXT [POINTER..]`: what a report gives whose ends do not fail, and how many reports failed: of those whose
/// reader, which gives a byte a call, fails at each call in turn by each of two kinds of error, and of those whose writer, which
/// takes one byte a call or three, fails or takes no byte at each call in turn. After a read fault nothing has to be written, and
/// after a write fault what the calls before have taken.
pub fn ends<R: Threads + Wait + Sync>(line: &mut Line<'_>, rt: &R) {
    let Some(mut asked) = next_asked(line) else {
        return;
    };
    let told = push_ends(&mut line.out, rt, line.alloc, &mut asked);
    line.settle(told);
}

fn push_ends<R: Threads + Wait + Sync>(
    out: &mut Out,
    rt: &R,
    alloc: Global,
    asked: &mut Asked,
) -> Result<(), LineFault> {
    let ways = ways_of(alloc, &asked.options)?;
    let way = ways.first().ok_or(LineFault::NoSuchCall)?;
    asked.command.workers = workers_of(way.workers)?;
    asked.command.piece = way.piece;
    let whole = outcome_by(rt, alloc, asked, way, Giving::whole(), Taking::whole())?;
    push_outcome(out, &whole);
    let mut failures = Failures {
        alloc,
        reads: 0,
        writes: 0,
        other: None,
    };
    fail_reads(&mut failures, rt, asked, way)?;
    for most in &[1, 3] {
        fail_writes(&mut failures, rt, asked, way, &whole.output, *most)?;
    }
    failures.push_to(out);
    Ok(())
}

/// Reports whose reader fails: at each byte in turn, and where it would meet the end.
fn fail_reads<R: Threads + Wait + Sync>(
    failures: &mut Failures,
    rt: &R,
    asked: &Asked,
    way: &Way,
) -> Result<(), LineFault> {
    for before in 0..=asked.text.len() {
        let call = before.saturating_add(1);
        for kind in &[io::ErrorKind::Other, io::ErrorKind::Interrupted] {
            let giving = Giving::failing_at(call, *kind);
            let outcome = outcome_by(rt, failures.alloc, asked, way, giving, Taking::whole())?;
            let is_right = outcome.answer == Err(ReportFault::Read) && outcome.output.is_empty();
            failures.reads = failures.reads.saturating_add(1);
            failures.note(&outcome, is_right);
        }
    }
    Ok(())
}

/// Whether a beginning of this length is what was written.
fn is_beginning(outcome: &Outcome, output: &[u8], taken: usize) -> bool {
    match output.get(..taken) {
        Some(beginning) => outcome.output.as_slice() == beginning,
        None => false,
    }
}

/// Reports whose writer takes so many bytes a call, and fails at each call in turn that the output needs.
fn fail_writes<R: Threads + Wait + Sync>(
    failures: &mut Failures,
    rt: &R,
    asked: &Asked,
    way: &Way,
    output: &[u8],
    most: usize,
) -> Result<(), LineFault> {
    for before in 0..output.len() {
        let taken = before.saturating_mul(most);
        if taken >= output.len() {
            break;
        }
        for refusal in &[Refusal::Error, Refusal::TakesNone] {
            let taking = Taking {
                most,
                fails_at: before.saturating_add(1),
                refusal: *refusal,
            };
            let outcome = outcome_by(rt, failures.alloc, asked, way, Giving::whole(), taking)?;
            let is_right = outcome.answer == Err(ReportFault::Write)
                && is_beginning(&outcome, output, taken);
            failures.writes = failures.writes.saturating_add(1);
            failures.note(&outcome, is_right);
        }
    }
    Ok(())
}
