// Where the entries of runs lead, and their exits.
ghost use Rattle.std.specs.Prelude.{◌<◌, ◌+◌, ◌^◌, length};

use crate::lex::track::{push_exit, push_track};
use crate::reduce::outcomes::push_outcome;
use crate::run::joins::from_left;
use jx_lex::{Depth, LexExit, LexState};
use jx_reduce::{Expect, Holder, Reduced};
use jx_run::{OutcomeRun, Started, Summary, TextRun};
use std::alloc::{AllocError, Global};
use test_words::{Line, Out, Ways, push_span, push_verdict};

/// An entry of a run, and the open containers that it is asked for.
#[derive(Drop)]
struct Asked {
    state: LexState,
    expect: Expect,
    holders: Vec<Holder>,
}

impl Asked {
    /// The exit, how many levels the entry has, and where it leads over the open containers, of which there are no more than its
    /// depth.
    fn told_of(&self, alloc: Global, exit: LexExit, entry: &Reduced) -> Result<Out, AllocError> {
        let mut told = Out::new(alloc);
        push_exit(&mut told, exit);
        told.put(format_args!("; levels {}; ", entry.level_count()));
        if self.holders.len() <= entry.depth().containers() as usize {
            push_outcome(&mut told, &entry.act(&self.holders)?);
        }
        Ok(told)
    }
}

/// The answer of a run that keeps its token starts.
fn by_marks(alloc: Global, text: &[u8], depth: Depth, asked: &Asked) -> Result<Out, AllocError> {
    let run = from_left::<TextRun>(alloc, text, depth)?;
    let entry = run.entry(asked.state, asked.expect).reduced()?;
    asked.told_of(alloc, run.exit(asked.state), &entry)
}

/// The answer of a run of outcomes.
fn by_outcomes(alloc: Global, text: &[u8], depth: Depth, asked: &Asked) -> Result<Out, AllocError> {
    let run = from_left::<OutcomeRun>(alloc, text, depth)?;
    let entry = run.entry(asked.state, asked.expect).reduced()?;
    asked.told_of(alloc, run.exit(asked.state), &entry)
}

/// `run DEPTH STATE EXPECT HOLDERS TEXT`: what runs of both kinds, of single bytes joined from the left, answer of one entry.
pub(crate) fn run(line: &mut Line<'_>) {
    let depth = line.depth();
    let asked = Asked {
        state: line.state(),
        expect: line.expect(),
        holders: line.holders(),
    };
    if asked.holders.len() > depth.containers() as usize {
        line.refuse();
    }
    let text = line.text();
    let alloc = line.alloc;
    let mut ways = Ways::new(alloc);
    ways.add_made("by marks", by_marks(alloc, &text, depth, &asked));
    ways.add_made("by outcomes", by_outcomes(alloc, &text, depth, &asked));
    ways.push_to(&mut line.out);
}

/// `started DEPTH TEXT`: the run of the text, started: verdict, span, depth, token starts and ends.
pub(crate) fn started(line: &mut Line<'_>) {
    let depth = line.depth();
    let text = line.text();
    let told = push_run(&mut line.out, line.alloc, &text, depth);
    line.settle(told);
}

fn push_run(out: &mut Out, alloc: Global, text: &[u8], depth: Depth) -> Result<(), AllocError> {
    let run = from_left::<TextRun>(alloc, text, depth)?;
    push_started(out, &run.started()?, run.exit(LexState::Gap));
    Ok(())
}

fn push_started(out: &mut Out, started: &Started, exit: LexExit) {
    push_verdict(out, started.verdict());
    out.push_str("; ");
    push_span(out, started.span());
    out.put(format_args!("; depth {}; ", started.depth().containers()));
    push_track(out, started.marks(), started.ends(), exit);
}

/// The run over a text, so many bytes further on.
fn moved_by(alloc: Global, text: &[u8], depth: Depth, by: usize) -> Result<OutcomeRun, AllocError>
    requires near { by + length text.now < 2 ^ 63 }
{
    let run = OutcomeRun::of(alloc, text, 0, text.len(), depth)?;
    Ok(run.shifted(by))
}

/// `moved BY DEPTH TEXT`: the run over a text where it stands so many bytes further on: span, exit from between tokens, verdict.
pub(crate) fn moved(line: &mut Line<'_>) {
    let by = line.number();
    let depth = line.depth();
    let text = line.text();
    if by >= 1 << 40 || text.len() >= 1 << 40 {
        return line.refuse();
    }
    let run = moved_by(line.alloc, &text, depth, by);
    if let Some(run) = line.keep(run) {
        push_span(&mut line.out, run.span());
        line.out.push_str("; ");
        push_exit(&mut line.out, run.exit(LexState::Gap));
        line.out.push_str("; ");
        push_verdict(&mut line.out, run.verdict());
    }
}
