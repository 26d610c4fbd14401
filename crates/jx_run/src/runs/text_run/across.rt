// The reading of an element from its start, where it stands in two neighbouring runs.
ghost use Rattle.std.specs.Prelude.{◌≡◌, ◌++◌, List, ℕ, IfOk};
ghost use Rattle.jx_lex.specs.declared.alphabet.state.LexState.TheVariants.{Gap};
ghost use Rattle.jx_lex.specs.Lex.{lex};
ghost use Rattle.jx_run.specs.Started.{IsStarted};
ghost use Rattle.jx_run.specs.TextRun.{IsTextRun};
ghost use Rattle.jx_run.specs.Tree.{span};

use crate::readers::started::Started;
use crate::runs::text_run::TextRun;
use jx_lex::{LexExit, LexState, Mark, Span, lex_of_two_parts};
use jx_summary::Summary;
use std::alloc::AllocError;

impl TextRun {
    /// The reading of the joined bytes from the start of a text; neither run changes, and no other track is joined.
    pub(crate) fn started_with(&self, right: &TextRun) -> Result<Started, AllocError>
        requires neighbours { self.now.map.end ≡ right.now.map.start }
        requires depth { self.now.depth ≡ right.now.depth }
        ensures started { (xs ys : List ℕ) → IsTextRun xs self.now → IsTextRun ys right.now → IfOk result (λ s. IsStarted (xs ++ ys) s) }
        ensures span { IfOk result (λ s. s.span ≡ span self.now.map.start right.now.map.end) }
        ensures depth { IfOk result (λ s. s.depth ≡ self.now.depth) }
    {
        let span = Span {
            start: self.map.span().start,
            end: right.map.span().end,
        };
        let (marks, ends) = self.copy_track_with(right)?;
        let verdict = self.outcomes.verdict_with(&right.outcomes)?;
        Ok(Started::new(span, self.depth(), marks, ends, verdict))
    }

    /// The token starts and the ends of the track from the start of a text, on through the run to the right.
    fn copy_track_with(&self, right: &TextRun) -> Result<(Vec<Mark>, Vec<usize>), AllocError>
        requires neighbours { self.now.map.end ≡ right.now.map.start }
        ensures marks { (xs ys : List ℕ) → IsTextRun xs self.now → IsTextRun ys right.now → IfOk result (λ r. r.0.items ≡ (lex Gap self.now.map.start (xs ++ ys)).marks) }
        ensures ends { (xs ys : List ℕ) → IsTextRun xs self.now → IsTextRun ys right.now → IfOk result (λ r. r.1.items ≡ (lex Gap self.now.map.start (xs ++ ys)).ends) }
    {
        lex_of_two_parts();
        let (mut marks, mut ends) = self.copy_track(LexState::Gap)?;
        match self.map.entry(LexState::Gap).exit() {
            LexExit::Fault(_) => Ok((marks, ends)),
            LexExit::State(state) => {
                let (more_marks, more_ends) = right.copy_track(state)?;
                marks.extend_from_slice(&more_marks)?;
                ends.extend_from_slice(&more_ends)?;
                Ok((marks, ends))
            }
        }
    }
}
