// Runs over parts of an input of lines.
ghost use Rattle.std.specs.Prelude.{◌≡◌, ◌+◌, ◌<◌, ◌^◌, ◌++◌, ℕ, List, IfOk, IfErr};
ghost use Rattle.jx_ndjson.specs.declared.judged_line.JudgedLine.{JudgedLine};
ghost use Rattle.jx_ndjson.specs.LinesRun.{IsLinesRun};
ghost use Rattle.jx_ndjson.specs.WholeLines.{AreWhole};

use crate::line_tally::LineTally;
use crate::whole_lines::WholeLines;
use jx_run::Settings;
use jx_summary::{Depth, JoinFault, Span, Summary};
use std::alloc::{AllocError, Global};
use std::marker::Model;

/// The partial result of part of an input of lines. Where the part begins after a line feed, or with the input, and
/// ends with a line feed, it has the lines of the part. Any other part gives nothing, and neither does what it is
/// joined with.
#[derive(Debug, Drop)]
pub struct LinesRun {
    span: Span,
    depth: Depth,
    lines: Option<WholeLines>,
}

impl Model for LinesRun {
    ghost use Rattle.jx_ndjson.specs.LinesRun.{LinesRunValue, FillSpan};

    ghost Value = { LinesRunValue };

    ghost view = { λ r. record { span = r.span; depth = r.depth; lines = r.lines } };

    ghost invariant = { λ r. FillSpan r.span r.lines };
}

/// These lines, and those after them.
fn joined(mut lines: WholeLines, behind: WholeLines) -> Result<WholeLines, JoinFault<WholeLines>>
    requires { lines.len + behind.len < 2 ^ 64 }
    ensures joins { IfOk result (λ all. (limit : ℕ) (xs ys : List ℕ) (before more : List JudgedLine) → AreWhole limit xs before lines → AreWhole limit ys more behind
        → (answers : List JudgedLine) × AreWhole limit (xs ++ ys) answers all) }
    ensures len { IfOk result (λ all. all.len ≡ lines.len + behind.len) }
    ensures refused { IfErr result (λ fault. (fault.left ≡ lines) × (fault.right ≡ behind)) }
{
    match lines.take_in(&behind) {
        Ok(()) => Ok(lines),
        Err(AllocError) => Err(JoinFault {
            left: lines,
            right: behind,
        }),
    }
}

impl LinesRun {
    /// The lines, where all bytes are whole lines and were read as such.
    pub fn into_lines(self) -> Option<WholeLines>
        ensures lines { result ≡ self.lines }
    {
        self.lines
    }
}

impl Summary for LinesRun {
    ghost span = { λ r. r.span };

    ghost depth = { λ r. r.depth };

    ghost is_of = { λ r bytes. IsLinesRun bytes r };

    fn of(
        alloc: Global,
        text: &[u8],
        start: usize,
        end: usize,
        limit: Depth,
    ) -> Result<Self, AllocError> {
        let mut tally = LineTally::new(alloc, &Settings::from(limit));
        tally.feed(&text[start..end])?;
        Ok(LinesRun {
            span: Span { start, end },
            depth: limit,
            lines: tally.into_whole(),
        })
    }

    fn join(self, right: Self) -> Result<Self, JoinFault<Self>> {
        let LinesRun { span, depth, lines } = self;
        let LinesRun {
            span: next,
            depth: other,
            lines: behind,
        } = right;
        let both = Span {
            start: span.start,
            end: next.end,
        };
        let (Some(lines), Some(behind)) = (lines, behind) else {
            return Ok(LinesRun {
                span: both,
                depth,
                lines: None,
            });
        };
        match joined(lines, behind) {
            Ok(lines) => Ok(LinesRun {
                span: both,
                depth,
                lines: Some(lines),
            }),
            Err(fault) => Err(JoinFault {
                left: LinesRun {
                    span,
                    depth,
                    lines: Some(fault.left),
                },
                right: LinesRun {
                    span: next,
                    depth: other,
                    lines: Some(fault.right),
                },
            }),
        }
    }

    fn span(&self) -> Span {
        self.span
    }

    fn depth(&self) -> Depth {
        self.depth
    }
}
