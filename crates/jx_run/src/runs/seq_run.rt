// Runs over parts of a JSON text sequence.
ghost use Rattle.std.specs.Prelude.{◌≡◌, ℕ, List, map};
ghost use Rattle.jx_run.specs.Elements.{elements, part_span};
ghost use Rattle.jx_run.specs.SeqRun.{IsSeqRun, element_spans, last_run, sequence_span};
ghost use Rattle.jx_run.specs.Shape.{shown};

use crate::runs::parted::Parted;
use crate::runs::shape::Shape;
use crate::runs::text_run::TextRun;
use jx_lex::{Depth, JoinFault, Span};
use jx_summary::Summary;
use std::alloc::{AllocError, Global};
use std::marker::Model;

/// The partial result of part of a JSON text sequence (RFC 7464). The record separators in it are seen, whatever is
/// around them: a JSON text has no byte 1E.
#[derive(Drop)]
pub struct SeqRun {
    parted: Parted<TextRun>,
}

impl Model for SeqRun {
    ghost use Rattle.std.specs.Prelude.{◌≡◌};
    ghost use Rattle.jx_run.specs.SeqRun.{SeqRunValue, last_run};

    ghost Value = { SeqRunValue };

    ghost view = { λ r. r.parted };

    ghost invariant = { λ r. (last_run r.parted.before r.parted.marked).depth ≡ r.parted.before.depth };
}

impl SeqRun {
    /// The parts of the bytes between the record separators.
    pub fn shape(&self) -> Shape<'_>
        ensures shape { shown result ≡ self.now }
        ensures elements { (bytes : List ℕ) → IsSeqRun bytes self.now → map part_span (elements self.now.before.map.start bytes) ≡ element_spans self.now.before self.now.marked }
        ensures depth { (last_run self.now.before self.now.marked).depth ≡ self.now.before.depth }
    {
        match &self.parted.marked {
            None => Shape::Plain(&self.parted.before),
            Some(marked) => Shape::Marked {
                before: &self.parted.before,
                done: &marked.done,
                after: &marked.after,
            },
        }
    }
}

impl Summary for SeqRun {
    ghost span = { sequence_span };

    ghost depth = { λ r. r.before.depth };

    ghost is_of = { λ r bytes. IsSeqRun bytes r };

    fn of(
        alloc: Global,
        text: &[u8],
        start: usize,
        end: usize,
        depth: Depth,
    ) -> Result<Self, AllocError> {
        let parted = Parted::of(alloc, text, start, end, depth)?;
        Ok(SeqRun { parted })
    }

    fn join(self, right: Self) -> Result<Self, JoinFault<Self>> {
        match self.parted.join(right.parted) {
            Ok(parted) => Ok(SeqRun { parted }),
            Err(fault) => Err(JoinFault {
                left: SeqRun { parted: fault.left },
                right: SeqRun {
                    parted: fault.right,
                },
            }),
        }
    }

    fn span(&self) -> Span {
        self.parted.span()
    }

    fn depth(&self) -> Depth {
        self.parted.depth()
    }
}
