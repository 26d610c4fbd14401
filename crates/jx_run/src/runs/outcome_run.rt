// Runs over parts of a JSON text that keep no tokens.
ghost use Rattle.std.specs.Prelude.{◌≡◌, ◌<◌, ◌≤◌, ◌+◌, ◌-◌, ◌^◌, ◌↔◌, ℕ, All, List, [], ◌++◌, length, Some, slice_get, slice_range, IsTrue, IfOk, IfErr, OnOk, OnErr};
ghost use Rattle.std.specs.Option.{SomeIff};
ghost use Rattle.jx_maps.specs.Map.{IsOf};
ghost use Rattle.jx_lex.specs.Ordinal.{all_states, ordinal};
ghost use Rattle.jx_lex.specs.Exit.{exit_of};
ghost use Rattle.jx_reduce.specs.Structure.{answer, answer_from, IsSmall, SpansIn};
ghost use Rattle.jx_reduce.specs.Whole.{whole_of};
ghost use Rattle.jx_reduce.specs.declared.table.expect.Expect.TheVariants.{Value};
ghost use Rattle.jx_reduce.specs.declared.table.holder.Holder.{Holder};
ghost use Rattle.jx_run.specs.inside.Joins.{AreJoined, AreJoinedTransitions, AreMade, GoesThrough, IsAbove, IsMade, IsMadeAt, IsThere};
ghost use Rattle.jx_run.specs.inside.Moved.{AreMoved};
ghost use Rattle.jx_run.specs.OutcomeRun.{entries_at, exit_at, outcome_span, run_of_parts, AreUsed, Entries, IsOutcomeRun, IsFormWithin, IsWellFormed};
ghost use Rattle.jx_run.specs.Reading.{at_exit, read};
ghost use Rattle.jx_run.specs.inside.Rest.{IsRestOf};
ghost use Rattle.jx_run.specs.Verdict.{Judged};
ghost use Rattle.jx_run.specs.Whole.{ends_text, verdict_from};

use crate::laws::reader_and_grammar;
use crate::runs::joins::{Joins, Pair};
use crate::runs::reduce::all_transitions;
use crate::runs::rest::rest_transitions;
use crate::runs::transition::{Transition, transitions_shifted};
use crate::texts::verdict::{Refusal, Verdict};
use jx_lex::{Depth, JoinFault, LexExit, LexState, Span};
use jx_maps::ChunkMap;
use jx_reduce::{EntryView, Expect, Structure, Whole, spans_of_structures};
use jx_summary::Summary;
use std::alloc::{AllocError, Global};
use std::marker::Model;
use std::mem;

/// So many structures has a run at most.
const MOST: usize = 32;

/// The partial result of part of a text, without its tokens: the outcome of reading it from each of the 32 lexical
/// states and six expectations. It holds for every list of open containers within the depth. It keeps at most 32
/// structures, whose size the depth bounds, whatever the length of the text. While it is made from bytes, it keeps the
/// tokens of their beginning too.
#[derive(Drop)]
pub struct OutcomeRun {
    depth: Depth,
    span: Span,
    // those of all states, in their order
    transitions: Vec<Transition>,
    // those of the transitions, and perhaps some that no transition has any more
    structures: Vec<Structure>,
}

impl Model for OutcomeRun {
    ghost use Rattle.jx_run.specs.OutcomeRun.{OutcomeRunValue, IsWellFormed};

    ghost Value = { OutcomeRunValue };

    ghost view = { λ r. record { depth = r.depth; start = r.span.start; end = r.span.end; transitions = r.transitions.items; structures = r.structures.items } };

    ghost invariant = { λ r. IsWellFormed (record { depth = r.depth; start = r.span.start; end = r.span.end; transitions = r.transitions.items; structures = r.structures.items }) };
}

/// Whether a whole text may end in this state, with this expectation and so many open containers.
fn ends_text(state: LexState, expect: Expect, containers: usize) -> bool
    ensures { result ≡ ends_text state expect containers }
{
    if containers != 0 {
        return false;
    }
    matches!(expect, Expect::After)
        && matches!(
            state,
            LexState::Gap | LexState::Zero | LexState::Int | LexState::Frac | LexState::Exp
        )
}

/// The verdict on a whole text, from where its track ends and from what its tokens lead to.
pub fn verdict_from(exit: LexExit, whole: Whole) -> Verdict
    ensures { result ≡ verdict_from exit whole }
{
    match (whole, exit) {
        (Whole::Stopped(at), _) | (Whole::Went { .. }, LexExit::Fault(at)) => {
            Verdict::Refused(Refusal::Stopped { at })
        }
        (Whole::TooDeep(at), _) => Verdict::Refused(Refusal::TooDeep { at }),
        (Whole::Went { expect, open }, LexExit::State(state)) => {
            if ends_text(state, expect, open) {
                Verdict::Accepted
            } else {
                Verdict::Refused(Refusal::Truncated)
            }
        }
    }
}

/// The verdict on a whole text, from where its track ends and from the structure of its tokens.
fn verdict_of(exit: LexExit, structure: &Structure) -> Verdict
    ensures { result ≡ verdict_from exit (whole_of (answer structure.now Value [])) }
{
    verdict_from(exit, structure.whole(Expect::Value))
}

/// The structures of the same tokens so many bytes further on. It takes no memory.
fn structures_shifted(by: usize, depth: Depth, mut structures: Vec<Structure>) -> Vec<Structure>
    requires fits { All (SpansIn 0 (2 ^ 64 - by)) structures.items }
    ensures long { length result.items ≡ length structures.items }
    ensures moved { AreMoved by structures.items result.items }
{
    let alloc = *structures.allocator();
    for at in 0..structures.len() {
        // Stands for the structure while that is moved.
        let empty = Structure::new(alloc, depth);
        let structure = mem::replace(&mut structures[at], empty);
        structures[at] = structure.shifted(by);
    }
    structures
}

/// Whether each transition has the number of one of so many structures.
fn are_there(transitions: &[Transition], count: usize) -> bool
    ensures { IsTrue result ↔ All (λ w. w.structure < count) transitions.now }
{
    transitions
        .iter()
        .all(|transition| transition.structure < count)
}

/// Whether the structure is one of bytes below this offset, within this depth.
fn is_within(structure: &Structure, depth: Depth, end: usize) -> bool
    ensures { IsTrue result ↔ IsFormWithin depth 0 end structure.now }
{
    structure.depth() == depth && structure.lies_below(end)
}

/// Whether each structure is one of bytes below this offset, within this depth.
fn are_within(structures: &[Structure], depth: Depth, end: usize) -> bool
    ensures { IsTrue result ↔ All (IsFormWithin depth 0 end) structures.now }
{
    structures
        .iter()
        .all(|structure| is_within(structure, depth, end))
}

/// Puts structures after others. When out of memory the others stay as they were.
fn put_behind(structures: &mut Vec<Structure>, more: Vec<Structure>) -> Result<(), AllocError>
    ensures ok { OnOk result (structures.new.items ≡ structures.old.items ++ more.items) }
    ensures err { OnErr result (structures.new.items ≡ structures.old.items) }
{
    let mut more = more;
    structures.append(&mut more)
}

impl OutcomeRun {
    /// The run over the bytes of a chunk map. Fails only when out of memory.
    pub(crate) fn of_map(
        alloc: Global,
        map: &ChunkMap,
        depth: Depth,
    ) -> Result<OutcomeRun, AllocError>
        requires of { (bytes : List ℕ) × IsOf bytes map.now }
        ensures start { IfOk result (λ r. r.start ≡ map.now.start) }
        ensures end { IfOk result (λ r. r.end ≡ map.now.end) }
        ensures depth { IfOk result (λ r. r.depth ≡ depth) }
        ensures of { IfOk result (λ r. (bytes : List ℕ) → IsOf bytes map.now → IsOutcomeRun bytes r) }
    {
        let (transitions, structures) = all_transitions(alloc, map, depth)?;
        Ok(OutcomeRun {
            depth,
            span: map.span(),
            transitions,
            structures,
        })
    }

    /// The run over a beginning of a part of a text, so long that its transitions end in two states at most. The map
    /// that it is made of is freed.
    fn of_beginning(
        alloc: Global,
        text: &[u8],
        start: usize,
        end: usize,
        depth: Depth,
    ) -> Result<OutcomeRun, AllocError>
        requires { (start ≤ end) × (end ≤ length text.now) }
        ensures start { IfOk result (λ r. r.start ≡ start) }
        ensures end { IfOk result (λ r. (start ≤ r.end) × (r.end ≤ end)) }
        ensures depth { IfOk result (λ r. r.depth ≡ depth) }
        ensures of { IfOk result (λ r. IsOutcomeRun (slice_range text.now start r.end) r) }
    {
        let map = ChunkMap::of_beginning(alloc, text, start, end)?;
        OutcomeRun::of_map(alloc, &map, depth)
    }

    /// The run over the bytes from here up to `end`, from the states in which transitions of this run end.
    fn rest(&self, text: &[u8], end: usize) -> Result<OutcomeRun, AllocError>
        requires { (self.now.end ≤ end) × (end ≤ length text.now) }
        ensures start { IfOk result (λ r. r.start ≡ self.now.end) }
        ensures end { IfOk result (λ r. r.end ≡ end) }
        ensures depth { IfOk result (λ r. r.depth ≡ self.now.depth) }
        ensures rest { IfOk result (λ r. IsRestOf self.now (slice_range text.now self.now.end end) r) }
    {
        let start = self.span.end;
        let (transitions, structures) = rest_transitions(
            self.allocator(),
            &self.transitions,
            text,
            start,
            end,
            self.depth,
        )?;
        Ok(OutcomeRun {
            depth: self.depth,
            span: Span { start, end },
            transitions,
            structures,
        })
    }

    /// The verdict on the bytes as a whole text: read from between tokens, with a value expected and no container open
    /// (RFC 8259, section 2). It takes no memory.
    pub fn verdict(&self) -> Verdict
        ensures verdict { (bytes : List ℕ) → IsOutcomeRun bytes self.now → Judged self.now.start bytes self.now.depth result }
    {
        reader_and_grammar();
        let transition = self.transition_from(LexState::Gap);
        let structure = self.structure(transition.structure);
        verdict_of(transition.exit, structure)
    }

    /// The state in which reading from a state ends, or the offset at which the lexical machine faults.
    pub fn exit(&self, state: LexState) -> LexExit
        ensures exit { exit_of result ≡ exit_at self.now state }
    {
        self.transition_from(state).exit
    }

    /// The outcome of the tokens from a state and an expectation. With where reading from that state ends, it gives the
    /// outcome of the bytes over open containers, as many as the depth at most.
    pub fn entry(&self, state: LexState, expect: Expect) -> EntryView<'_>
        ensures depth { result.structure.depth ≡ self.now.depth }
        ensures all { length self.now.transitions ≡ 32 }
        ensures few { length self.now.structures ≤ 32 }
        ensures marks { (e : Entries) → entries_at self.now state ≡ Some e → result ≡ record { structure = e.marks; expect = expect } }
        ensures size { IsSmall self.now.depth result.structure }
        ensures reads { (bytes : List ℕ) → IsOutcomeRun bytes self.now → (holders : List Holder) → length holders ≤ self.now.depth → at_exit (exit_at self.now state) (answer_from result holders) ≡ read self.now.depth state expect holders self.now.start bytes }
    {
        let transition = self.transition_from(state);
        let structure = self.structure(transition.structure);
        structure.entry(expect)
    }

    /// The verdict on the joined bytes as a whole text; neither run changes, and no structure but that of its start is joined.
    pub(crate) fn verdict_with(&self, right: &OutcomeRun) -> Result<Verdict, AllocError>
        requires neighbours { self.now.end ≡ right.now.start }
        requires depth { self.now.depth ≡ right.now.depth }
        ensures verdict { (xs ys : List ℕ) → IsOutcomeRun xs self.now → IsOutcomeRun ys right.now → IfOk result (Judged self.now.start (xs ++ ys) self.now.depth) }
    {
        reader_and_grammar();
        let (exit, pair) = self.onward(LexState::Gap, right);
        let structure = self.extended(pair, right)?;
        Ok(verdict_of(exit, &structure))
    }

    /// Where its memory comes from.
    pub(crate) fn allocator(&self) -> Global {
        *self.transitions.allocator()
    }

    /// The run with its bytes so much further on. It takes no memory.
    pub fn shifted(self, by: usize) -> OutcomeRun
        requires fits { self.end + by < 2 ^ 64 }
        ensures start { result.start ≡ by + self.start }
        ensures end { result.end ≡ by + self.end }
        ensures depth { result.depth ≡ self.depth }
        ensures of { (bytes : List ℕ) → IsOutcomeRun bytes self → IsOutcomeRun bytes result }
    {
        spans_of_structures();
        OutcomeRun {
            depth: self.depth,
            span: Span {
                start: by + self.span.start,
                end: by + self.span.end,
            },
            transitions: transitions_shifted(by, self.transitions),
            structures: structures_shifted(by, self.depth, self.structures),
        }
    }

    /// The run with the structures to which its transitions lead, and no spare room. It fails only when out of
    /// memory.
    pub fn trimmed(&self) -> Result<OutcomeRun, AllocError>
        ensures start { IfOk result (λ r. r.start ≡ self.now.start) }
        ensures end { IfOk result (λ r. r.end ≡ self.now.end) }
        ensures depth { IfOk result (λ r. r.depth ≡ self.now.depth) }
        ensures of { IfOk result (λ r. (bytes : List ℕ) → IsOutcomeRun bytes self.now → IsOutcomeRun bytes r) }
        ensures used { IfOk result (λ r. AreUsed r.transitions (length r.structures)) }
    {
        // A join copies what transitions lead to, and the copies have no spare room.
        let nothing = OutcomeRun::of(self.allocator(), &[], 0, 0, self.depth)?;
        let mut trimmed = self.joined(&nothing.shifted(self.span.end))?;
        trimmed.structures.shrink_to_fit();
        Ok(trimmed)
    }

    /// The transitions of all states, in the order of `LexState::all`. Each has the number of one of the structures.
    pub fn transitions(&self) -> &[Transition]
        ensures transitions { result.now ≡ self.now.transitions }
        ensures kept { IsWellFormed self.now }
    {
        // Shows the proof what every run keeps.
        let _ = &self.depth;
        &self.transitions
    }

    /// The structures, in the order of their numbers.
    pub fn structures(&self) -> &[Structure]
        ensures structures { result.now ≡ self.now.structures }
        ensures kept { IsWellFormed self.now }
    {
        // Shows the proof what every run keeps.
        let _ = &self.depth;
        &self.structures
    }

    /// The run over so many bytes, of which the first has offset 0, that has these parts, where they are well formed: 32 transitions,
    /// each with the number of one of at most 32 structures, of which each has this depth and no offset past the bytes. It
    /// takes no memory.
    pub fn of_parts(
        depth: Depth,
        end: usize,
        transitions: Vec<Transition>,
        structures: Vec<Structure>,
    ) -> Option<OutcomeRun>
        ensures { SomeIff result (IsWellFormed (run_of_parts depth end transitions.items structures.items)) (run_of_parts depth end transitions.items structures.items) }
    {
        let few = transitions.len() == MOST && structures.len() <= MOST;
        if !few
            || !are_there(&transitions, structures.len())
            || !are_within(&structures, depth, end)
        {
            return None;
        }
        let span = Span { start: 0, end };
        Some(OutcomeRun {
            depth,
            span,
            transitions,
            structures,
        })
    }

    /// The transition from this state, whose number is that of one of the structures.
    fn transition_from(&self, state: LexState) -> Transition
        ensures transition { slice_get self.now.transitions (ordinal state) ≡ Some result }
        ensures there { result.structure < length self.now.structures }
        ensures all { length self.now.transitions ≡ 32 }
        ensures few { length self.now.structures ≤ 32 }
    {
        self.transitions[state.number()]
    }

    /// The structure with this number.
    fn structure(&self, number: usize) -> &Structure
        requires number { number < length self.now.structures }
        ensures structure { slice_get self.now.structures number ≡ Some result.now }
        ensures within { IsFormWithin self.now.depth self.now.start self.now.end result.now }
        ensures order { self.now.start ≤ self.now.end }
    {
        &self.structures[number]
    }

    /// Where the transition from a state ends in the joined bytes, and the structures that it goes through: those of the left alone
    /// where it ends at a fault there.
    fn onward(&self, state: LexState, right: &OutcomeRun) -> (LexExit, Pair)
        requires neighbours { self.now.end ≡ right.now.start }
        requires depth { self.now.depth ≡ right.now.depth }
        ensures from { (e : Entries) × (entries_at self.now state ≡ Some e) }
        ensures there { IsThere self.now right.now result.1 }
        ensures goes { GoesThrough self.now right.now state result.0 result.1 }
    {
        let transition = self.transition_from(state);
        let left = transition.structure;
        match transition.exit {
            LexExit::Fault(_) => (transition.exit, Pair { left, right: None }),
            LexExit::State(last) => {
                let next = right.transition_from(last);
                let pair = Pair {
                    left,
                    right: Some(next.structure),
                };
                (next.exit, pair)
            }
        }
    }

    /// The structure of the left of a pair, gone on with that of the right.
    pub(crate) fn extended(&self, pair: Pair, right: &OutcomeRun) -> Result<Structure, AllocError>
        requires there { IsThere self.now right.now pair }
        requires neighbours { self.now.end ≡ right.now.start }
        requires depth { self.now.depth ≡ right.now.depth }
        ensures made { IfOk result (IsMade self.now right.now pair) }
        ensures within { IfOk result (IsFormWithin self.now.depth self.now.start right.now.end) }
    {
        // Shows the proof what the right keeps.
        let _ = &right.depth;
        spans_of_structures();
        let marks = self.structure(pair.left).copy()?;
        match pair.right {
            None => Ok(marks),
            Some(number) => {
                let joined = marks.extended(right.structure(number))?;
                Ok(joined)
            }
        }
    }

    /// The run over the joined bytes, in which each two structures that follow one another are joined once. Neither run
    /// changes. The right need not be of use from states to which nothing leads.
    pub(crate) fn joined(&self, right: &OutcomeRun) -> Result<OutcomeRun, AllocError>
        requires neighbours { self.now.end ≡ right.now.start }
        requires depth { self.now.depth ≡ right.now.depth }
        ensures start { IfOk result (λ j. j.start ≡ self.now.start) }
        ensures end { IfOk result (λ j. j.end ≡ right.now.end) }
        ensures depth { IfOk result (λ j. j.depth ≡ self.now.depth) }
        ensures of { IfOk result (λ j. (xs ys : List ℕ) → IsOutcomeRun xs self.now → IsOutcomeRun ys right.now → IsOutcomeRun (xs ++ ys) j) }
        ensures rest { IfOk result (λ j. (xs ys : List ℕ) → IsOutcomeRun xs self.now → IsRestOf self.now ys right.now → IsOutcomeRun (xs ++ ys) j) }
        ensures used { IfOk result (λ j. AreUsed j.transitions (length j.structures)) }
    {
        // Shows the proof what both runs keep.
        let _ = &self.depth;
        let _ = &right.depth;
        let (transitions, structures) = self.all_onward(right)?;
        Ok(OutcomeRun {
            depth: self.depth,
            span: Span {
                start: self.span.start,
                end: right.span.end,
            },
            transitions,
            structures,
        })
    }

    /// The run over the joined bytes. The structures of this run stay where they are, and those that go on are put
    /// after them: so what ended on the left costs nothing. Where they would be too many, each is made anew. When out
    /// of memory this run is handed back as it was.
    pub(crate) fn joined_onto(self, right: &OutcomeRun) -> Result<OutcomeRun, OutcomeRun>
        requires neighbours { self.end ≡ right.now.start }
        requires depth { self.depth ≡ right.now.depth }
        ensures start { IfOk result (λ j. j.start ≡ self.start) }
        ensures end { IfOk result (λ j. j.end ≡ right.now.end) }
        ensures depth { IfOk result (λ j. j.depth ≡ self.depth) }
        ensures of { IfOk result (λ j. (xs ys : List ℕ) → IsOutcomeRun xs self → IsOutcomeRun ys right.now → IsOutcomeRun (xs ++ ys) j) }
        ensures rest { IfOk result (λ j. (xs ys : List ℕ) → IsOutcomeRun xs self → IsRestOf self ys right.now → IsOutcomeRun (xs ++ ys) j) }
        ensures err { IfErr result (λ left. left ≡ self) }
    {
        let (transitions, more) = match self.further(right) {
            Ok(further) => further,
            Err(AllocError) => return Err(self),
        };
        if self.count() + more.len() <= MOST {
            return self.added(right, transitions, more);
        }
        match self.joined(right) {
            Ok(joined) => Ok(joined),
            Err(AllocError) => Err(self),
        }
    }

    /// The run over the joined bytes, that has these transitions, and these structures after its own.
    fn added(
        self,
        right: &OutcomeRun,
        transitions: Vec<Transition>,
        more: Vec<Structure>,
    ) -> Result<OutcomeRun, OutcomeRun>
        requires neighbours { self.end ≡ right.now.start }
        requires depth { self.depth ≡ right.now.depth }
        requires joined { AreJoined self right.now transitions.items (self.structures ++ more.items) }
        ensures start { IfOk result (λ j. j.start ≡ self.start) }
        ensures end { IfOk result (λ j. j.end ≡ right.now.end) }
        ensures depth { IfOk result (λ j. j.depth ≡ self.depth) }
        ensures of { IfOk result (λ j. (xs ys : List ℕ) → IsOutcomeRun xs self → IsOutcomeRun ys right.now → IsOutcomeRun (xs ++ ys) j) }
        ensures rest { IfOk result (λ j. (xs ys : List ℕ) → IsOutcomeRun xs self → IsRestOf self ys right.now → IsOutcomeRun (xs ++ ys) j) }
        ensures err { IfErr result (λ left. left ≡ self) }
    {
        let end = right.span.end;
        let mut left = self;
        match put_behind(&mut left.structures, more) {
            Ok(()) => {
                left.transitions = transitions;
                left.span.end = end;
                Ok(left)
            }
            Err(AllocError) => Err(left),
        }
    }

    /// The transitions of the joined bytes, where the structures of this run keep their numbers, and those after them.
    fn further(&self, right: &OutcomeRun) -> Result<(Vec<Transition>, Vec<Structure>), AllocError>
        requires neighbours { self.now.end ≡ right.now.start }
        requires depth { self.now.depth ≡ right.now.depth }
        ensures few { IfOk result (λ j. length j.1.items ≤ 32) }
        ensures within { IfOk result (λ j. All (IsFormWithin self.now.depth self.now.start right.now.end) (self.now.structures ++ j.1.items)) }
        ensures each { IfOk result (λ j. AreJoinedTransitions self.now right.now (self.now.structures ++ j.1.items) all_states j.0.items) }
    {
        // Shows the proof what both runs keep.
        let _ = &self.depth;
        let _ = &right.depth;
        spans_of_structures();
        let states = LexState::all();
        let mut joins = Joins::new(self.allocator());
        let mut transitions = Vec::with_capacity(self.allocator(), states.len())?;
        for place in 0..states.len() {
            let state = states[place];
            let (exit, pair) = self.onward(state, right);
            let structure = self.index_of_pair(right, &mut joins, pair)?;
            transitions.push(Transition { exit, structure })?;
        }
        Ok((transitions, joins.structures))
    }

    /// How many structures there are.
    fn count(&self) -> usize
        ensures count { result ≡ length self.now.structures }
        ensures few { result ≤ 32 }
    {
        self.structures.len()
    }

    /// The number of the structure of a pair, among those of this run and of the joins after them. That of the left
    /// alone is there; another is made unless it was before.
    fn index_of_pair(
        &self,
        right: &OutcomeRun,
        joins: &mut Joins,
        pair: Pair,
    ) -> Result<usize, AllocError>
        requires there { IsThere self.now right.now pair }
        requires neighbours { self.now.end ≡ right.now.start }
        requires depth { self.now.depth ≡ right.now.depth }
        requires made { AreMade self.now right.now joins.old.pairs.items joins.old.structures.items }
        requires within { All (IsFormWithin self.now.depth self.now.start right.now.end) joins.old.structures.items }
        requires few { length joins.old.structures.items ≤ 32 }
        ensures made { OnOk result (AreMade self.now right.now joins.new.pairs.items joins.new.structures.items) }
        ensures within { OnOk result (All (IsFormWithin self.now.depth self.now.start right.now.end) joins.new.structures.items) }
        ensures few { OnOk result (length joins.new.structures.items ≤ length joins.old.structures.items + 1) }
        ensures above { OnOk result (IsAbove joins.old.structures.items joins.new.structures.items) }
        ensures made_at { IfOk result (IsMadeAt self.now right.now (self.now.structures ++ joins.new.structures.items) pair) }
    {
        match pair.right {
            None => Ok(pair.left),
            Some(_) => {
                let number = joins.number_of(self, right, pair)?;
                Ok(self.count() + number)
            }
        }
    }

    /// The transitions of the joined bytes, and their structures.
    fn all_onward(
        &self,
        right: &OutcomeRun,
    ) -> Result<(Vec<Transition>, Vec<Structure>), AllocError>
        requires neighbours { self.now.end ≡ right.now.start }
        requires depth { self.now.depth ≡ right.now.depth }
        ensures joined { IfOk result (λ j. AreJoined self.now right.now j.0.items j.1.items) }
        ensures used { IfOk result (λ j. AreUsed j.0.items (length j.1.items)) }
    {
        let states = LexState::all();
        let mut joins = Joins::new(self.allocator());
        let mut transitions = Vec::with_capacity(self.allocator(), states.len())?;
        for place in 0..states.len() {
            let (exit, pair) = self.onward(states[place], right);
            let structure = joins.number_of(self, right, pair)?;
            transitions.push(Transition { exit, structure })?;
        }
        Ok((transitions, joins.structures))
    }
}

impl Summary for OutcomeRun {
    ghost span = { outcome_span };

    ghost depth = { λ r. r.depth };

    ghost is_of = { λ r bytes. IsOutcomeRun bytes r };

    fn of(
        alloc: Global,
        text: &[u8],
        start: usize,
        end: usize,
        depth: Depth,
    ) -> Result<Self, AllocError> {
        let beginning = OutcomeRun::of_beginning(alloc, text, start, end, depth)?;
        if beginning.span.end == end {
            return Ok(beginning);
        }
        let rest = beginning.rest(text, end)?;
        beginning.joined(&rest)
    }

    fn join(self, right: Self) -> Result<Self, JoinFault<Self>> {
        match self.joined_onto(&right) {
            Ok(joined) => Ok(joined),
            Err(left) => Err(JoinFault { left, right }),
        }
    }

    fn span(&self) -> Span {
        self.span
    }

    fn depth(&self) -> Depth {
        self.depth
    }
}
