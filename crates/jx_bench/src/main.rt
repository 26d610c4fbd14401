// The program `jx_bench`: measures how fast one thread reads a file. Its figures are for people, so nothing checks them.
#![tactic(auto)]

mod reading;
mod task;

use anyhow::{Context, Result};
use reading::{
    PIECE, marks_by_map, marks_by_step, marks_over_stack, marks_reduced, outcomes_of_pieces,
    reading_of, rows_of, runs_of_pieces,
};
use std::alloc::Global;
use std::time::{Duration, Instant};
use std::{env, fs};
use task::Task;

/// How often the text is read: the least time counts.
const ROUNDS: usize = 5;

const USAGE: &str = "usage: jx_bench steps|maps|runs|outcomes|stack|structures|reading|rows FILE";

/// The time that one round took, and how many token starts, runs or rows it found.
#[derive(Clone, Copy)]
struct Round {
    time: Duration,
    found: u64,
}

fn timed(rt: &HostRuntime, task: Task, text: &[u8]) -> Result<Round> {
    let alloc: Global = rt.alloc();
    let start = Instant::now(rt)?;
    let found = match task {
        Task::Steps => marks_by_step(text),
        Task::Maps => marks_by_map(alloc, text)?,
        Task::Runs => runs_of_pieces(alloc, text)?,
        Task::Outcomes => outcomes_of_pieces(alloc, text)?,
        Task::Stack => return timed_marks(rt, text, false),
        Task::Structures => return timed_marks(rt, text, true),
        Task::Reading => reading_of(alloc, text)?.marks().len() as u64,
        Task::Rows => return timed_rows(rt, text),
    };
    Ok(Round {
        time: start.elapsed(rt)?,
        found,
    })
}

// The rows alone: the token starts are read before the clock starts.
fn timed_rows(rt: &HostRuntime, text: &[u8]) -> Result<Round> {
    let started = reading_of(rt.alloc(), text)?;
    let start = Instant::now(rt)?;
    let found = rows_of(rt.alloc(), text, &started)?;
    Ok(Round {
        time: start.elapsed(rt)?,
        found,
    })
}

// The outcome of the token starts, alone, over one stack or from every entry: they are read before the clock starts.
fn timed_marks(rt: &HostRuntime, text: &[u8], reduced: bool) -> Result<Round> {
    let started = reading_of(rt.alloc(), text)?;
    let start = Instant::now(rt)?;
    let found = if reduced {
        marks_reduced(rt.alloc(), &started)?
    } else {
        marks_over_stack(rt.alloc(), &started)?
    };
    Ok(Round {
        time: start.elapsed(rt)?,
        found,
    })
}

fn measure(rt: &HostRuntime, task: Task, path: &str) -> Result<()> {
    let text = fs::read(rt, path).context("cannot read the file")?;
    let mut least = timed(rt, task, &text)?;
    for _ in 1..ROUNDS {
        let round = timed(rt, task, &text)?;
        if round.time < least.time {
            least = round;
        }
    }
    let speed = text.len() as u128 * 1000 / least.time.as_nanos().max(1);
    let found = least.found;
    println!(rt;
        "{task:?}: {speed} MB/s, found {found}, pieces of {PIECE} bytes, least time of {ROUNDS}"
    )?;
    Ok(())
}

fn main(rt: HostRuntime) -> Result<()> {
    let owned: Vec<String> = env::args(&rt)?.collect(rt.alloc())?;
    let words: Vec<&str> = owned.iter().map(|word| word.as_str()).collect(rt.alloc())?;
    match &words[..] {
        [_, task, path] => match Task::of(task) {
            Some(task) => measure(&rt, task, path),
            None => Ok(println!(&rt; "{USAGE}")?),
        },
        _ => Ok(println!(&rt; "{USAGE}")?),
    }
}
