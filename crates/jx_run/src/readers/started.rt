ghost use Rattle.std.specs.Prelude.{◌≡◌};

use crate::texts::verdict::Verdict;
use jx_lex::{Depth, Mark, Span};
use std::marker::Model;

/// The reading of a text from its start: between tokens, with a value expected and no container open.
#[derive(Debug, Drop)]
pub struct Started {
    span: Span,
    depth: Depth,
    marks: Vec<Mark>,
    ends: Vec<usize>,
    verdict: Verdict,
}

impl Model for Started {
    ghost use Rattle.jx_run.specs.Started.{StartedValue};

    ghost Value = { StartedValue };

    ghost view = { λ s. record { span = s.span; depth = s.depth; marks = s.marks.items; ends = s.ends.items; verdict = s.verdict } };

    ghost invariant = { λ s. Unit {0} };
}

impl Started {
    /// The reading of these bytes with this depth, which gave these token starts and ends and this verdict.
    pub(crate) fn new(
        span: Span,
        depth: Depth,
        marks: Vec<Mark>,
        ends: Vec<usize>,
        verdict: Verdict,
    ) -> Started
        ensures { result ≡ record { span = span; depth = depth; marks = marks.items; ends = ends.items; verdict = verdict } }
    {
        Started {
            span,
            depth,
            marks,
            ends,
            verdict,
        }
    }

    /// The span of its bytes, as offsets in the whole input.
    pub fn span(&self) -> Span
        ensures span { result ≡ self.now.span }
    {
        self.span
    }

    /// The depth that it was read with.
    pub fn depth(&self) -> Depth
        ensures depth { result ≡ self.now.depth }
    {
        self.depth
    }

    /// The verdict on its bytes as a whole text.
    pub fn verdict(&self) -> Verdict
        ensures verdict { result ≡ self.now.verdict }
    {
        self.verdict
    }

    /// The tokens up to the first fault of the lexical machine, in order.
    pub fn marks(&self) -> &[Mark]
        ensures marks { result.now ≡ self.now.marks }
    {
        &self.marks
    }

    /// The ends of the strings, numbers and literals up to that fault, in order, each just past the token's last byte.
    /// A number that ends with the text has none.
    pub fn ends(&self) -> &[usize]
        ensures ends { result.now ≡ self.now.ends }
    {
        &self.ends
    }
}
