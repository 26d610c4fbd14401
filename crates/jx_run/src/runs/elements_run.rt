// Runs over parts of a JSON text sequence that keep verdicts alone.
ghost use Rattle.std.specs.Prelude.{◌≡◌, ◌+◌, ◌<◌, ◌^◌, ℕ, List, IfOk, length};
ghost use Rattle.std.specs.List.{AllZip};
ghost use Rattle.jx_run.specs.Elements.{elements};
ghost use Rattle.jx_run.specs.ElementsRun.{IsElementsRun, last_part, elements_span};
ghost use Rattle.jx_run.specs.ElementVerdict.{IsJudgedElement};
ghost use Rattle.jx_run.specs.SequenceRead.{StartsWithSeparator};

use crate::laws::reader_and_grammar;
use crate::runs::part_run::PartRun;
use crate::runs::parted::Parted;
use crate::sequences::element_verdict::{ElementVerdict, JudgedElement, all_moved};
use crate::sequences::marked_elements::{elements_behind, shifted_behind};
use jx_lex::{Depth, JoinFault, Span};
use jx_summary::Summary;
use std::alloc::{AllocError, Global};
use std::marker::Model;

/// The partial result of part of a JSON text sequence (RFC 7464), where the verdicts on its elements are wanted and no
/// rows. Keeps the span and the verdict of each element that ends in it. One reader reads elements that lie in one part
/// from their starts, one after another.
#[derive(Drop)]
pub struct ElementsRun {
    parted: Parted<PartRun>,
}

impl Model for ElementsRun {
    ghost use Rattle.std.specs.Prelude.{◌≡◌};
    ghost use Rattle.jx_run.specs.ElementsRun.{ElementsRunValue, last_part};

    ghost Value = { ElementsRunValue };

    ghost view = { λ r. r.parted };

    ghost invariant = { λ r. (last_part r.parted.before r.parted.marked).outcomes.depth ≡ r.parted.before.outcomes.depth };
}

impl ElementsRun {
    /// The elements of a whole sequence, in order.
    pub fn into_elements(self) -> Result<Vec<JudgedElement>, AllocError>
        requires whole { (elements_span self).start ≡ 0 }
        ensures elements { (bytes : List ℕ) → IsElementsRun bytes self → IfOk result (λ es. AllZip (IsJudgedElement self.before.outcomes.depth) (elements 0 bytes) es.items) }
    {
        let Parted { before, marked } = self.parted;
        let mut elements = match marked {
            None => Vec::new(before.allocator()),
            Some(marked) => elements_behind(marked)?,
        };
        let span = before.span();
        if span.start < span.end {
            let verdict = ElementVerdict::Unmarked;
            elements.insert(0, JudgedElement { span, verdict })?;
        }
        Ok(elements)
    }

    /// The elements of a part of a sequence, in order. The part begins with a record separator, was read as a sequence
    /// of its own, and is after so many bytes. Each element is moved to where it stands.
    pub fn into_elements_behind(self, by: usize) -> Result<Vec<JudgedElement>, AllocError>
        requires whole { (elements_span self).start ≡ 0 }
        ensures elements { (bytes : List ℕ) → IsElementsRun bytes self → StartsWithSeparator bytes → by + length bytes < 2 ^ 64
            → IfOk result (λ es. AllZip (IsJudgedElement self.before.outcomes.depth) (elements by bytes) es.items) }
    {
        reader_and_grammar();
        let elements = self.into_elements()?;
        Ok(all_moved(by, elements))
    }

    /// The run with its bytes so much further on. It takes no memory.
    pub fn shifted(self, by: usize) -> ElementsRun
        requires of { (bytes : List ℕ) × IsElementsRun bytes self }
        requires fits { (elements_span self).end + by < 2 ^ 64 }
        ensures start { (elements_span result).start ≡ by + (elements_span self).start }
        ensures end { (elements_span result).end ≡ by + (elements_span self).end }
        ensures depth { result.before.outcomes.depth ≡ self.before.outcomes.depth }
        ensures of { (bytes : List ℕ) → IsElementsRun bytes self → IsElementsRun bytes result }
    {
        reader_and_grammar();
        let Parted { before, marked } = self.parted;
        let before = before.shifted(by);
        match marked {
            None => ElementsRun {
                parted: Parted {
                    before,
                    marked: None,
                },
            },
            Some(marked) => ElementsRun {
                parted: Parted {
                    before,
                    marked: Some(shifted_behind(marked, by)),
                },
            },
        }
    }
}

impl Summary for ElementsRun {
    ghost span = { elements_span };

    ghost depth = { λ r. r.before.outcomes.depth };

    ghost is_of = { λ r bytes. IsElementsRun bytes r };

    fn of(
        alloc: Global,
        text: &[u8],
        start: usize,
        end: usize,
        depth: Depth,
    ) -> Result<Self, AllocError> {
        let parted = Parted::of(alloc, text, start, end, depth)?;
        Ok(ElementsRun { parted })
    }

    fn join(self, right: Self) -> Result<Self, JoinFault<Self>> {
        match self.parted.join(right.parted) {
            Ok(parted) => Ok(ElementsRun { parted }),
            Err(fault) => Err(JoinFault {
                left: ElementsRun { parted: fault.left },
                right: ElementsRun {
                    parted: fault.right,
                },
            }),
        }
    }

    fn span(&self) -> Span {
        self.parted.span()
    }

    fn depth(&self) -> Depth {
        self.parted.depth()
    }
}
