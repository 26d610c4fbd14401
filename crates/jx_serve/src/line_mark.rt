// Diagnostics of the lines of a document that are not valid JSON.
ghost use Rattle.std.specs.Prelude.{◌≡◌, ◌≤◌, ◌<◌, ◌+◌, ◌&&◌, false, take, IfOk};
ghost use Rattle.jx_serve.specs.LineMarks.{fault_in, is_blank, marked, most_marks, AreLineMarks, AreMarksOf, IsAround, IsMarkOf, IsShownBy, IsWhole};
ghost use Rattle.jx_serve.specs.inside.LineTables.{IsTable};

use crate::bad_lines::bad_lines;
use crate::line_sentence::sentence_on_line;
use crate::line_table::LineTable;
use crate::mark::{character_end, character_start};
use crate::selections::Extent;
use jx_edit::{Document, Encoding, Position};
use jx_lex::Span;
use jx_ndjson::{JudgedLine, LineVerdict};
use jx_run::{Refusal, Settings};
use std::alloc::{AllocError, Global};

/// The diagnostic of a line of a document that is not valid JSON.
#[derive(Debug, Drop)]
pub struct LineMark {
    pub line: JudgedLine,
    /// The sentence on what is wrong with it, as the inside of a JSON string.
    pub sentence: Vec<u8>,
    pub start: Position,
    pub end: Position,
}

/// The diagnostics of a document's lines.
#[derive(Debug, Drop)]
pub struct LineMarks {
    /// Those of the first 1,000 lines, and of lines of white space alone for the first of them only.
    pub marks: Vec<LineMark>,
    /// How many more there are.
    pub more: usize,
}

/// How many lines are marked at most.
const MOST: usize = 1_000;

/// The offset at which a refusal of a line is shown.
fn fault_in(span: Span, refusal: Refusal) -> usize
    ensures { result ≡ fault_in span refusal }
{
    match refusal {
        Refusal::Stopped { at } | Refusal::TooDeep { at } | Refusal::RepeatedName { at } => at,
        Refusal::Truncated => span.end.saturating_sub(1),
    }
}

/// The bytes of the character that the byte at an offset is of, as far as they stand in a line.
fn span_around(document: &Document, span: Span, offset: usize) -> Span
    ensures begins { result.start ≤ offset }
    ensures holds { offset < span.end → (offset < result.end) × (result.end ≤ span.end) }
    ensures inside { span.start ≤ offset → span.start ≤ result.start }
    ensures short { result.end ≤ result.start + 4 }
{
    let first = character_start(document, offset);
    let start = first.max(span.start).min(offset);
    let behind = offset.saturating_add(1);
    let end = character_end(document, start).max(behind).min(span.end);
    Span { start, end }
}

/// The positions of both ends of a span.
fn whole(document: &Document, encoding: Encoding, span: Span) -> Extent
    ensures { IsWhole encoding document.now.bytes span result.start result.end }
{
    Extent {
        start: document.position_of(span.start, encoding),
        end: document.position_of(span.end, encoding),
    }
}

/// The positions of both ends of the character at an offset of a line.
fn around(document: &Document, encoding: Encoding, span: Span, offset: usize) -> Extent
    ensures { IsAround encoding document.now.bytes span offset result.start result.end }
{
    whole(document, encoding, span_around(document, span, offset))
}

/// The place where a line is shown, by its verdict.
fn extent_of(document: &Document, encoding: Encoding, line: &JudgedLine) -> Extent
    ensures { IsShownBy encoding document.now.bytes line.now.span line.now.verdict result.start result.end }
{
    let span = line.span;
    match line.verdict {
        LineVerdict::Refused(refusal) => {
            around(document, encoding, span, fault_in(span, refusal))
        }
        LineVerdict::MayBeCut => around(document, encoding, span, span.end.saturating_sub(1)),
        LineVerdict::Accepted | LineVerdict::Blank => whole(document, encoding, span),
    }
}

/// The diagnostic of a line that is not valid JSON.
fn mark_of_line(
    alloc: Global,
    document: &Document,
    settings: &Settings,
    encoding: Encoding,
    line: &JudgedLine,
) -> Result<LineMark, AllocError>
    ensures { IfOk result (IsMarkOf encoding document.now.bytes line.now) }
{
    let sentence = sentence_on_line(alloc, document, settings, encoding, line)?;
    let Extent { start, end } = extent_of(document, encoding, line);
    Ok(LineMark {
        line: *line,
        sentence,
        start,
        end,
    })
}

/// The diagnostics of lines that are not valid JSON.
fn marks_of(
    alloc: Global,
    document: &Document,
    settings: &Settings,
    encoding: Encoding,
    lines: &[JudgedLine],
) -> Result<Vec<LineMark>, AllocError>
    ensures { IfOk result (λ marks. AreMarksOf encoding document.now.bytes lines.now marks.items) }
{
    let mut marks = Vec::new(alloc);
    for line in lines {
        let mark = mark_of_line(alloc, document, settings, encoding, line)?;
        marks.push(mark)?;
    }
    Ok(marks)
}

/// Whether a line has no byte, or white space alone.
fn is_blank(verdict: LineVerdict) -> bool
    ensures { result ≡ is_blank verdict }
{
    match verdict {
        LineVerdict::Blank => true,
        LineVerdict::Accepted | LineVerdict::Refused(_) | LineVerdict::MayBeCut => false,
    }
}

/// Whether a line is left out: it has white space alone, and such a line may have been seen before.
fn is_passed(seen: bool, verdict: LineVerdict) -> bool
    ensures { result ≡ (seen && is_blank verdict) }
{
    seen && is_blank(verdict)
}

/// Returns lines without those of white space alone that follow the first such line.
fn marked(alloc: Global, lines: &[JudgedLine]) -> Result<Vec<JudgedLine>, AllocError>
    ensures { IfOk result (λ kept. kept.items ≡ marked false lines.now) }
{
    let mut marked = Vec::new(alloc);
    let mut seen = false;
    for line in lines {
        if is_passed(seen, line.verdict) {
            continue;
        }
        marked.push(*line)?;
        seen |= is_blank(line.verdict);
    }
    Ok(marked)
}

/// The first 1,000 lines.
fn first_of(lines: &[JudgedLine]) -> &[JudgedLine]
    ensures { result.now ≡ take most_marks lines.now }
{
    &lines[..MOST.min(lines.len())]
}

/// Returns the diagnostics of a document's first 1,000 lines that are not valid JSON, and how many more there are. Names may be
/// repeated, whatever the settings say. Lines that were read before are not read again.
pub(crate) fn line_marks_of(
    alloc: Global,
    document: &Document,
    table: &LineTable,
    settings: &Settings,
    encoding: Encoding,
) -> Result<LineMarks, AllocError>
    requires { IsTable settings.now.depth document.now.bytes table.now }
    ensures { IfOk result (AreLineMarks encoding settings.now document.now.bytes) }
{
    let bad = bad_lines(alloc, document, table, settings)?;
    let marked = marked(alloc, &bad)?;
    let marks = marks_of(alloc, document, settings, encoding, first_of(&marked))?;
    let more = bad.len().saturating_sub(marks.len());
    Ok(LineMarks { marks, more })
}
