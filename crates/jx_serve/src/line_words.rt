// Messages on the lines of a document that are not valid JSON.
ghost use Rattle.std.specs.Prelude.{◌≡◌, ◌++◌, IfOk, OnOk, string_bytes};
ghost use Rattle.std.specs.List.{flat_map};
ghost use Rattle.jx_serve.specs.Words.{line_diagnostic, line_diagnostics, more_diagnostic, next_diagnostic, published_lines, word_of_line, words_of_line_place, words_of_more};

use crate::line_mark::{LineMark, LineMarks};
use crate::reply_words::{add_opening, add_told, code_of_refusal, words_of_place};
use crate::selections::Extent;
use jx_ndjson::LineVerdict;
use std::alloc::{AllocError, Global};

/// The verdict of a line as `jx lines` prints it, without the offset.
fn word_of_line(verdict: LineVerdict) -> &'static str
    ensures { result.now ≡ word_of_line verdict }
{
    match verdict {
        LineVerdict::Accepted => "accepted",
        LineVerdict::Refused(refusal) => code_of_refusal(refusal),
        LineVerdict::MayBeCut => "may be cut",
        LineVerdict::Blank => "blank",
    }
}

/// The offset of a refusal, after the sentence of a line.
fn words_of_line_place(alloc: Global, verdict: LineVerdict) -> Result<String, AllocError>
    ensures { IfOk result (λ words. string_bytes words ≡ words_of_line_place verdict) }
{
    match verdict {
        LineVerdict::Refused(refusal) => words_of_place(alloc, refusal),
        LineVerdict::Accepted | LineVerdict::MayBeCut | LineVerdict::Blank => {
            Ok(String::new(alloc))
        }
    }
}

fn add_line_mark(alloc: Global, out: &mut Vec<u8>, mark: &LineMark) -> Result<(), AllocError>
    ensures { OnOk result (out.new.items ≡ out.old.items ++ line_diagnostic mark.now) }
{
    let extent = Extent {
        start: mark.start,
        end: mark.end,
    };
    let word = word_of_line(mark.line.verdict);
    let place = words_of_line_place(alloc, mark.line.verdict)?;
    add_told(out, extent, word, &mark.sentence, place.as_str())
}

/// Adds diagnostics after another one.
fn add_others(alloc: Global, out: &mut Vec<u8>, marks: &[LineMark]) -> Result<(), AllocError>
    ensures { OnOk result (out.new.items ≡ out.old.items ++ flat_map next_diagnostic marks.now) }
{
    for mark in marks {
        out.extend_from_slice(b",")?;
        add_line_mark(alloc, out, mark)?;
    }
    Ok(())
}

/// How many more lines there are.
fn words_of_more(alloc: Global, more: usize) -> Result<String, AllocError>
    ensures { IfOk result (λ words. string_bytes words ≡ words_of_more more) }
{
    format!(in alloc; "more lines that are no JSON texts: {more}")
}

/// Adds a last diagnostic, in the first line, that says how many more lines there are, if there are any.
fn add_more(
    alloc: Global,
    out: &mut Vec<u8>,
    first: &LineMark,
    more: usize,
) -> Result<(), AllocError>
    ensures { OnOk result (out.new.items ≡ out.old.items ++ more_diagnostic first.now more) }
{
    if more == 0 {
        return Ok(());
    }
    let extent = Extent {
        start: first.start,
        end: first.end,
    };
    let sentence = words_of_more(alloc, more)?;
    out.extend_from_slice(b",")?;
    add_told(out, extent, "more", sentence.as_bytes(), "")
}

fn add_line_marks(
    alloc: Global,
    out: &mut Vec<u8>,
    marks: &[LineMark],
    more: usize,
) -> Result<(), AllocError>
    ensures { OnOk result (out.new.items ≡ out.old.items ++ line_diagnostics marks.now more) }
{
    match marks.split_first() {
        None => Ok(()),
        Some((first, others)) => {
            add_line_mark(alloc, out, first)?;
            add_others(alloc, out, others)?;
            add_more(alloc, out, first, more)
        }
    }
}

/// Adds the message that publishes the lines of a document that are not valid JSON.
pub(crate) fn add_published_lines(
    alloc: Global,
    out: &mut Vec<u8>,
    uri: &[u8],
    version: &Option<Vec<u8>>,
    marks: &LineMarks,
) -> Result<(), AllocError>
    ensures { OnOk result (out.new.items ≡ out.old.items ++ published_lines uri.now version.now marks.now) }
{
    add_opening(out, uri, version)?;
    add_line_marks(alloc, out, &marks.marks, marks.more)?;
    out.extend_from_slice(b"]}}")
}
