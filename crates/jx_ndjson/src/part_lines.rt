// The lines of part of an input that need no byte before them or behind.
ghost use Rattle.std.specs.Prelude.{◌<◌, ◌≤◌, List, IfOk, IfSome, length};
ghost use Rattle.jx_ndjson.specs.declared.judged_line.JudgedLine.{JudgedLine};
ghost use Rattle.jx_ndjson.specs.WholeLines.{AreWhole};

use crate::line_tally::LineTally;
use crate::whole_lines::WholeLines;
use jx_lex::{Depth, Span};
use jx_run::Settings;
use memchr::{memchr, memrchr};
use std::alloc::{AllocError, Global};

/// The span from after the first line feed of a part up to after the last one; none where there are no two.
pub fn whole_lines_of(part: &[u8]) -> Option<Span>
    ensures ordered { IfSome result (λ s. s.start < s.end) }
    ensures within { IfSome result (λ s. s.end ≤ length part.now) }
{
    let last = memrchr(b'\n', part)?;
    let first = memchr(b'\n', &part[..last])?;
    Some(Span {
        start: first + 1,
        end: last + 1,
    })
}

/// Judges lines that line feeds end, each as a text of its own. None where the last byte is no line feed. None too where more
/// than so many lines are not valid JSON: it keeps no more of them.
pub fn lines_of_part(
    alloc: Global,
    lines: &[u8],
    depth: Depth,
    most: usize,
) -> Result<Option<WholeLines>, AllocError>
    ensures { IfOk result (λ whole. IfSome whole (λ whole. (answers : List JudgedLine) × AreWhole depth lines.now answers whole)) }
{
    let mut tally = LineTally::new(alloc, &Settings::from(depth));
    if tally.feed_few(lines, most)? {
        Ok(tally.into_whole())
    } else {
        Ok(None)
    }
}
