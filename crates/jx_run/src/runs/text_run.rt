// Runs over parts of a JSON text.
ghost use Rattle.std.specs.Prelude.{◌≡◌, ◌≤◌, ℕ, List, length, Some, IfOk};
ghost use Rattle.jx_lex.specs.declared.alphabet.state.LexState.TheVariants.{Gap};
ghost use Rattle.jx_maps.specs.Map.{track};
ghost use Rattle.jx_lex.specs.Exit.{exit_of};
ghost use Rattle.jx_reduce.specs.Structure.{answer_from, IsSmall};
ghost use Rattle.jx_reduce.specs.declared.table.holder.Holder.{Holder};
ghost use Rattle.jx_run.specs.OutcomeRun.{entries_at, exit_at, Entries};
ghost use Rattle.jx_run.specs.Reading.{at_exit, read};
ghost use Rattle.jx_run.specs.Started.{IsStarted};
ghost use Rattle.jx_run.specs.TextRun.{outcomes_of, text_span, IsTextRun};
ghost use Rattle.jx_run.specs.Verdict.{Judged};

use crate::readers::started::Started;
use crate::runs::outcome_run::OutcomeRun;
use crate::texts::verdict::Verdict;
use jx_lex::{Depth, JoinFault, LexExit, LexState, Mark, Span};
use jx_maps::{ChunkMap, Ends, Marks};
use jx_reduce::{EntryView, Expect};
use jx_summary::Summary;
use std::alloc::{AllocError, Global};
use std::marker::Model;

mod across;

/// The partial result ("run") of part of a text: the outcome of reading it from each of the 32 lexical states and six
/// expectations. It holds for every list of open containers within the depth.
#[derive(Drop)]
pub struct TextRun {
    map: ChunkMap,
    outcomes: OutcomeRun,
}

impl Model for TextRun {
    ghost use Rattle.std.specs.Prelude.{◌≡◌};
    ghost use Rattle.jx_run.specs.TextRun.{TextRunValue};

    ghost Value = { TextRunValue };

    ghost view = { λ r. record { depth = r.outcomes.depth; map = r.map; transitions = r.outcomes.transitions; structures = r.outcomes.structures } };

    ghost invariant = { λ r. (r.outcomes.start ≡ r.map.start) × (r.outcomes.end ≡ r.map.end) };
}

impl TextRun {
    /// The verdict on the bytes as a whole text: read from between tokens, with a value expected and no container open
    /// (RFC 8259, section 2). It takes no memory.
    pub fn verdict(&self) -> Verdict
        ensures verdict { (bytes : List ℕ) → IsTextRun bytes self.now → Judged self.now.map.start bytes self.now.depth result }
    {
        self.outcomes.verdict()
    }

    /// The reading of the bytes from the start of a text. Fails only when out of memory.
    pub fn started(&self) -> Result<Started, AllocError>
        ensures started { (bytes : List ℕ) → IsTextRun bytes self.now → IfOk result (λ s. IsStarted bytes s) }
        ensures span { IfOk result (λ s. s.span ≡ text_span self.now) }
        ensures depth { IfOk result (λ s. s.depth ≡ self.now.depth) }
    {
        let (marks, ends) = self.copy_track(LexState::Gap)?;
        Ok(Started::new(self.map.span(), self.depth(), marks, ends, self.verdict()))
    }

    /// The tokens of the reading from the start of a text, in order, read where they lie.
    pub fn marks(&self) -> Marks<'_>
        ensures all { result ≡ (track self.now.map Gap).marks }
    {
        self.map.entry(LexState::Gap).marks()
    }

    /// The ends of the strings, numbers and literals of that reading, in order, each just past the token's last byte. A
    /// number that ends with the bytes has none.
    pub fn ends(&self) -> Ends<'_>
        ensures all { result ≡ (track self.now.map Gap).ends }
    {
        self.map.entry(LexState::Gap).ends()
    }

    /// The state in which reading from a state ends, or the offset at which the lexical machine faults.
    pub fn exit(&self, state: LexState) -> LexExit
        ensures exit { exit_of result ≡ exit_at (outcomes_of self.now) state }
    {
        self.outcomes.exit(state)
    }

    /// The outcome of the tokens from a state and an expectation. With where reading from that state ends, it gives the
    /// outcome of the bytes over open containers, as many as the depth at most.
    pub fn entry(&self, state: LexState, expect: Expect) -> EntryView<'_>
        ensures depth { result.structure.depth ≡ self.now.depth }
        ensures all { length self.now.transitions ≡ 32 }
        ensures few { length self.now.structures ≤ 32 }
        ensures marks { (e : Entries) → entries_at (outcomes_of self.now) state ≡ Some e → result ≡ record { structure = e.marks; expect = expect } }
        ensures size { IsSmall self.now.depth result.structure }
        ensures reads { (bytes : List ℕ) → IsTextRun bytes self.now → (holders : List Holder) → length holders ≤ self.now.depth → at_exit (exit_at (outcomes_of self.now) state) (answer_from result holders) ≡ read self.now.depth state expect holders self.now.map.start bytes }
    {
        self.outcomes.entry(state, expect)
    }

    /// The token starts and the ends of the track from a state.
    fn copy_track(&self, state: LexState) -> Result<(Vec<Mark>, Vec<usize>), AllocError>
        ensures marks { IfOk result (λ r. r.0.items ≡ (track self.now.map state).marks) }
        ensures ends { IfOk result (λ r. r.1.items ≡ (track self.now.map state).ends) }
    {
        let alloc = self.outcomes.allocator();
        let segments = self.map.segments();
        let mut marks = Vec::new(alloc);
        let mut ends = Vec::new(alloc);
        let mut path = self.map.entry(state).path();
        while let Some(number) = path.next() {
            let segment = &segments[number];
            marks.extend_from_slice(segment.marks())?;
            ends.extend_from_slice(segment.ends())?;
        }
        Ok((marks, ends))
    }
}

impl Summary for TextRun {
    ghost span = { text_span };

    ghost depth = { λ r. r.depth };

    ghost is_of = { λ r bytes. IsTextRun bytes r };

    fn of(
        alloc: Global,
        text: &[u8],
        start: usize,
        end: usize,
        depth: Depth,
    ) -> Result<Self, AllocError> {
        let map = ChunkMap::of(alloc, text, start, end)?;
        let outcomes = OutcomeRun::of_map(alloc, &map, depth)?;
        Ok(TextRun { map, outcomes })
    }

    fn join(self, right: Self) -> Result<Self, JoinFault<Self>> {
        let outcomes = match self.outcomes.joined(&right.outcomes) {
            Ok(outcomes) => outcomes,
            Err(AllocError) => return Err(JoinFault { left: self, right }),
        };
        match self.map.join(right.map) {
            Ok(map) => Ok(TextRun { map, outcomes }),
            Err(fault) => Err(JoinFault {
                left: TextRun {
                    map: fault.left,
                    outcomes: self.outcomes,
                },
                right: TextRun {
                    map: fault.right,
                    outcomes: right.outcomes,
                },
            }),
        }
    }

    fn span(&self) -> Span {
        self.map.span()
    }

    fn depth(&self) -> Depth {
        self.outcomes.depth()
    }
}
