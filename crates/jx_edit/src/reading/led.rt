// Where bytes lead from a place.
ghost use Rattle.std.specs.Prelude.{◌≡◌, ◌≤◌, ℕ, List, IfOk, length};
ghost use Rattle.jx_reduce.specs.Read.{read, went};
ghost use Rattle.jx_edit.specs.inside.Leads.{reading_in, IsLedWithin};
ghost use Rattle.jx_edit.specs.inside.Places.{read_on};
ghost use Rattle.jx_lex.specs.Exit.{exit_of};
ghost use Rattle.jx_reduce.specs.Outcome.{reading_of};
ghost use Rattle.jx_run.specs.OutcomeRun.{IsOutcomeRun};
ghost use Rattle.jx_run.specs.Reading.{at_exit};

use crate::reading::place::Place;
use jx_lex::{Depth, LexExit, Mark, Tokens, scan};
use jx_reduce::{KnownStack, Outcome, Whole};
use jx_run::OutcomeRun;
use std::alloc::{AllocError, Global};

/// Where bytes lead: to a place, or to a fault so many bytes after the first of them.
#[derive(Drop)]
pub(crate) enum Led {
    On(Place),
    Stopped(usize),
    TooDeep(usize),
}

/// Where a track that ends there leads, with the outcome of its tokens.
fn arrived(exit: LexExit, outcome: Outcome) -> Led
    ensures { reading_in result ≡ at_exit (exit_of exit) (reading_of outcome) }
{
    match outcome {
        Outcome::Stopped(at) => Led::Stopped(at),
        Outcome::TooDeep(at) => Led::TooDeep(at),
        Outcome::Went { expect, holders } => match exit {
            LexExit::State(state) => Led::On(Place {
                state,
                expect,
                holders,
            }),
            LexExit::Fault(at) => Led::Stopped(at),
        },
    }
}

/// Where the bytes of a run lead from a place. The run is over a text of its own.
pub(crate) fn follow_run(from: &Place, run: &OutcomeRun) -> Result<Led, AllocError>
    requires within { length from.now.holders ≤ run.now.depth }
    requires start { run.now.start ≡ 0 }
    ensures reads { IfOk result (λ led. (bytes : List ℕ) → IsOutcomeRun bytes run.now → reading_in led ≡ read_on run.now.depth from.now bytes) }
    ensures within { IfOk result (λ led. (bytes : List ℕ) → IsOutcomeRun bytes run.now → IsLedWithin run.now.depth led) }
{
    let reduced = run.entry(from.state, from.expect);
    let outcome = reduced.act(&from.holders)?;
    let exit = run.exit(from.state);
    Ok(arrived(exit, outcome))
}

/// The outcome of the tokens that a known stack was given.
fn outcome_of(stack: &mut KnownStack) -> Result<Outcome, AllocError>
    ensures { IfOk result (λ o. reading_of o ≡ stack.old.reading) }
{
    match stack.whole() {
        Whole::Stopped(at) => Ok(Outcome::Stopped(at)),
        Whole::TooDeep(at) => Ok(Outcome::TooDeep(at)),
        Whole::Went { .. } => {
            let (expect, holders) = stack.take_standing()?;
            Ok(Outcome::Went { expect, holders })
        }
    }
}

/// The outcome of tokens from a place.
fn read_marks(
    alloc: Global,
    from: &Place,
    marks: &[Mark],
    depth: Depth,
) -> Result<Outcome, AllocError>
    requires within { length from.now.holders ≤ depth }
    ensures { IfOk result (λ o. reading_of o ≡ read depth marks.now (went from.now.expect from.now.holders)) }
{
    let mut stack = KnownStack::new(alloc, depth);
    stack.stand(from.expect, &from.holders)?;
    stack.extend(marks)?;
    let outcome = outcome_of(&mut stack)?;
    Ok(outcome)
}

/// Where bytes lead from a place, as by `follow_run`, by reading each of them.
pub(crate) fn follow_bytes(
    alloc: Global,
    from: &Place,
    bytes: &[u8],
    depth: Depth,
) -> Result<Led, AllocError>
    requires within { length from.now.holders ≤ depth }
    ensures reads { IfOk result (λ led. reading_in led ≡ read_on depth from.now bytes.now) }
    ensures within { IfOk result (IsLedWithin depth) }
{
    let mut tokens = Tokens::new(alloc);
    let Some(exit) = scan(&mut tokens, from.state, bytes, 0, bytes.len())? else {
        // A sink of all tokens always wants more.
        unreachable!()
    };
    let outcome = read_marks(alloc, from, tokens.marks(), depth)?;
    Ok(arrived(exit, outcome))
}
