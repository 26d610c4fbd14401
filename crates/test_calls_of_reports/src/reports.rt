// The answers and the output of reports.
use crate::options::{Options, options_of};
use crate::outcome::{Outcome, outcome_of, push_outcome};
use crate::reader::Giving;
use crate::writer::Taking;
use jx_crew::Workers;
use jx_task::{Command, Task};
use std::alloc::{AllocError, Global};
use std::sync::Wait;
use std::thread::Threads;
use test_words::{Line, LineFault, Out, Ways, bytes_of, texts_of};

/// `check`, `index`, `at` or `seq`, the third with pointers.
fn task_of(alloc: Global, word: &str, pointers: &[&str]) -> Result<Task, LineFault> {
    match word {
        "check" => Ok(Task::Check),
        "index" => Ok(Task::Index),
        "at" => Ok(Task::At(texts_of(alloc, pointers)?)),
        "seq" => Ok(Task::Seq),
        _ => Err(LineFault::NoSuchCall),
    }
}

/// As many workers as that.
pub fn workers_of(count: usize) -> Result<Workers, LineFault> {
    let count = u8::try_from(count).ok().ok_or(LineFault::NoSuchCall)?;
    Workers::new(count).ok_or(LineFault::NoSuchCall)
}

/// A line's report: its command, how it is asked for, and the input.
#[derive(Drop)]
pub struct Asked {
    pub command: Command,
    pub options: Options,
    pub text: Vec<u8>,
}

/// `TASK OPTIONS TEXT [POINTER..]`
pub fn next_asked(line: &mut Line<'_>) -> Option<Asked> {
    let asked = asked_by(line.alloc, line.rest());
    line.keep(asked)
}

fn asked_by(alloc: Global, words: &[&str]) -> Result<Asked, LineFault> {
    let [task, options, text, pointers @ ..] = words else {
        return Err(LineFault::NoSuchCall);
    };
    let options = options_of(alloc, options)?;
    let command = Command {
        task: task_of(alloc, task, pointers)?,
        settings: options.settings,
        workers: workers_of(1)?,
        piece: 1,
        quiet: options.quiet,
    };
    let text = bytes_of(alloc, text)?;
    Ok(Asked {
        command,
        options,
        text,
    })
}

/// One way in which a report is asked for.
#[derive(Clone, Copy, Debug)]
pub struct Way {
    pub workers: usize,
    pub piece: usize,
    pub batch: Option<usize>,
}

/// The batches that are tried: `report` itself where none is given.
fn batches_of(alloc: Global, options: &Options) -> Result<Vec<Option<usize>>, AllocError> {
    let mut batches = Vec::new(alloc);
    for batch in &options.batches {
        batches.push(Some(*batch))?;
    }
    if batches.is_empty() {
        batches.push(None)?;
    }
    Ok(batches)
}

/// All ways: each number of workers, each length of a chunk and each of a batch.
pub fn ways_of(alloc: Global, options: &Options) -> Result<Vec<Way>, AllocError> {
    let batches = batches_of(alloc, options)?;
    let mut ways = Vec::new(alloc);
    for workers in &options.workers {
        for piece in &options.pieces {
            for batch in &batches {
                ways.push(Way {
                    workers: *workers,
                    piece: *piece,
                    batch: *batch,
                })?;
            }
        }
    }
    Ok(ways)
}

/// `report TASK OPTIONS TEXT [POINTER..]`: the exit or the fault of a report, and what it writes.
pub fn report<R: Threads + Wait + Sync>(line: &mut Line<'_>, rt: &R) {
    let Some(mut asked) = next_asked(line) else {
        return;
    };
    let mut told = Ways::new(line.alloc);
    line.settle(add_ways(&mut told, rt, line.alloc, &mut asked));
    told.push_to(&mut line.out);
}

fn add_ways<R: Threads + Wait + Sync>(
    told: &mut Ways,
    rt: &R,
    alloc: Global,
    asked: &mut Asked,
) -> Result<(), LineFault> {
    let ways = ways_of(alloc, &asked.options)?;
    let (giving, taking) = (asked.options.giving, asked.options.taking);
    for way in &ways {
        asked.command.workers = workers_of(way.workers)?;
        asked.command.piece = way.piece;
        let outcome = outcome_by(rt, alloc, asked, way, giving, taking)?;
        let mut answer = Out::new(alloc);
        push_outcome(&mut answer, &outcome);
        let (count, piece, batch) = (way.workers, way.piece, way.batch.unwrap_or(0));
        let way = format_args!("{count} workers, pieces of {piece}, batches of {batch}");
        told.add(way, answer);
    }
    Ok(())
}

/// The outcome of the report with such a reader and writer.
pub fn outcome_by<R: Threads + Wait + Sync>(
    rt: &R,
    alloc: Global,
    asked: &Asked,
    way: &Way,
    giving: Giving,
    taking: Taking,
) -> Result<Outcome, LineFault> {
    let (command, text) = (&asked.command, &asked.text);
    outcome_of(rt, alloc, command, text, giving, taking, way.batch).ok_or(LineFault::NoSuchCall)
}
