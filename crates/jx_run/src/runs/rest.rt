// The rest of a part, from the states that are left after its beginning.
ghost use Rattle.std.specs.Prelude.{◌≡◌, ◌≢◌, ◌≤◌, ◌<◌, ◌+◌, All, max, length, slice_range, IfOk, IsTrue, OnOk};
ghost use Rattle.jx_lex.specs.declared.alphabet.lex_exit.LexExit.TheVariants as exit;
ghost use Rattle.jx_lex.specs.declared.alphabet.state.LexState.{LexState};
ghost use Rattle.jx_run.specs.inside.Joins.{IsAbove};
ghost use Rattle.jx_run.specs.OutcomeRun.{outcome_of, IsFormWithin};
ghost use Rattle.jx_run.specs.inside.Rest.{AreRead, AreReadTransitions, IsReadTransition, Reaches};

use crate::runs::transition::Transition;
use jx_lex::{Depth, LexExit, LexState, Mark, TokenSink, scan};
use jx_reduce::{Reducer, Structure};
use std::alloc::{AllocError, Global};

/// The reducer as a sink. For the proof, the ends that it has seen begin with the depth: so a scan is known to leave the
/// depth as it is.
#[derive(Drop)]
struct KeptMarks {
    reducer: Reducer,
}

impl TokenSink for KeptMarks {
    ghost use Rattle.jx_run.specs.inside.Rest.{HasTaken};

    ghost has_seen = { λ kept marks ends. HasTaken marks ends kept.reducer };

    ghost awaits = { λ _ _. Unit {0} };

    #[inline(always)]
    fn begin(&mut self, mark: Mark) -> Result<(), AllocError> {
        self.reducer.push(mark)?;
        Ok(())
    }

    #[inline(always)]
    fn end(&mut self, _at: usize) -> Result<(), AllocError> {
        Ok(())
    }

    #[inline(always)]
    fn is_done(&self) -> bool {
        self.reducer.is_over()
    }
}

/// Where reading the bytes from a state ends, and the structure of their tokens.
fn read_from(
    alloc: Global,
    text: &[u8],
    state: LexState,
    from: usize,
    to: usize,
    depth: Depth,
) -> Result<(LexExit, Structure), AllocError>
    requires { (from ≤ to) × (to ≤ length text.now) }
    ensures reads { IfOk result (λ r. AreRead depth from (slice_range text.now from to) state (outcome_of (record { exit = r.0; marks = r.1 }))) }
    ensures within { IfOk result (λ r. IsFormWithin depth from to r.1) }
{
    let mut kept = KeptMarks {
        reducer: Reducer::new(alloc, depth),
    };
    let exit = scan(&mut kept, state, text, from, to)?;
    let marks = kept.reducer.into_structure()?;
    // Where the reducer wanted no more, its tokens lead to a fault from everywhere, and it does not matter where the
    // reading ends.
    Ok((exit.unwrap_or(LexExit::Fault(from)), marks))
}

/// Whether none of the transitions ends in this state.
fn avoid(transitions: &[Transition], state: LexState) -> bool
    ensures { IsTrue result → All (λ w. w.exit ≢ exit.State state) transitions.now }
{
    transitions
        .iter()
        .all(|transition| transition.exit != LexExit::State(state))
}

/// The transition from a state, whose structure is put after the others.
// Apart, since a structure is large: the states that are not read then cost nothing.
#[inline(never)]
fn read_transition(
    alloc: Global,
    text: &[u8],
    state: LexState,
    from: usize,
    to: usize,
    depth: Depth,
    structures: &mut Vec<Structure>,
) -> Result<Transition, AllocError>
    requires { (from ≤ to) × (to ≤ length text.now) }
    ensures above { OnOk result (IsAbove structures.old.items structures.new.items) }
    ensures few { OnOk result (length structures.new.items ≤ length structures.old.items + 1) }
    ensures within { OnOk result (All (IsFormWithin depth from to) structures.old.items → All (IsFormWithin depth from to) structures.new.items) }
    ensures there { IfOk result (λ w. w.structure < length structures.new.items) }
    ensures reads { IfOk result (IsReadTransition depth from (slice_range text.now from to) structures.new.items state) }
{
    let (exit, marks) = read_from(alloc, text, state, from, to, depth)?;
    structures.push(marks)?;
    Ok(Transition {
        exit,
        structure: structures.len() - 1,
    })
}

/// The transition from a state. Only if a transition of the beginning ends there are the bytes read, and have a structure then.
fn transition_from(
    alloc: Global,
    reached: &[Transition],
    text: &[u8],
    state: LexState,
    from: usize,
    to: usize,
    depth: Depth,
    structures: &mut Vec<Structure>,
) -> Result<Transition, AllocError>
    requires { (from ≤ to) × (to ≤ length text.now) }
    ensures above { OnOk result (IsAbove structures.old.items structures.new.items) }
    ensures few { OnOk result (length structures.new.items ≤ length structures.old.items + 1) }
    ensures within { OnOk result (All (IsFormWithin depth from to) structures.old.items → All (IsFormWithin depth from to) structures.new.items) }
    ensures there { IfOk result (λ w. w.structure < max 1 (length structures.new.items)) }
    ensures reads { IfOk result (λ w. Reaches reached.now state → IsReadTransition depth from (slice_range text.now from to) structures.new.items state w) }
{
    if avoid(reached, state) {
        return Ok(Transition {
            exit: LexExit::Fault(from),
            structure: 0,
        });
    }
    read_transition(alloc, text, state, from, to, depth, structures)
}

/// There is a structure at least, for transitions that lead nowhere.
fn fill(
    alloc: Global,
    structures: &mut Vec<Structure>,
    from: usize,
    to: usize,
    depth: Depth,
) -> Result<(), AllocError>
    ensures above { OnOk result (IsAbove structures.old.items structures.new.items) }
    ensures many { OnOk result (length structures.new.items ≡ max 1 (length structures.old.items)) }
    ensures within { OnOk result (All (IsFormWithin depth from to) structures.old.items → All (IsFormWithin depth from to) structures.new.items) }
{
    if structures.is_empty() {
        structures.push(Structure::new(alloc, depth))?;
    }
    Ok(())
}

/// The transitions through the rest of a part from all states, in order, and their structures. The bytes are read only
/// from the states in which transitions of the beginning end. Nothing leads to the others, and what their transitions
/// have is ignored.
pub(crate) fn rest_transitions(
    alloc: Global,
    reached: &[Transition],
    text: &[u8],
    from: usize,
    to: usize,
    depth: Depth,
) -> Result<(Vec<Transition>, Vec<Structure>), AllocError>
    requires { (from ≤ to) × (to ≤ length text.now) }
    ensures all { IfOk result (λ r. length r.0.items ≡ 32) }
    ensures there { IfOk result (λ r. All (λ w. w.structure < length r.1.items) r.0.items) }
    ensures few { IfOk result (λ r. length r.1.items ≤ 32) }
    ensures within { IfOk result (λ r. All (IsFormWithin depth from to) r.1.items) }
    ensures reads { IfOk result (λ r. (s : LexState) → AreReadTransitions depth from (slice_range text.now from to) reached.now r.1.items r.0.items s) }
{
    let states = LexState::all();
    let mut transitions = Vec::with_capacity(alloc, states.len())?;
    let mut structures = Vec::new(alloc);
    for place in 0..states.len() {
        let transition = transition_from(
            alloc,
            reached,
            text,
            states[place],
            from,
            to,
            depth,
            &mut structures,
        )?;
        transitions.push(transition)?;
    }
    fill(alloc, &mut structures, from, to, depth)?;
    Ok((transitions, structures))
}
