// The sentence that says what is wrong with a line of a document.
use crate::sentence::{bytes_between, inside_quotes, place_at};
use jx_edit::{Document, Encoding};
use jx_lex::Span;
use jx_ndjson::{JudgedLine, LineVerdict};
use jx_run::{FrontMark, NameRule, Refusal, Settings};
use jx_sentence::{
    Standing, is_in_string, push_sentence, push_string_open, push_truncated, standing_before,
};
use std::alloc::{AllocError, Global};

/// A refusal with its offset in the line that begins at an offset.
fn in_line(start: usize, refusal: Refusal) -> Refusal {
    match refusal {
        Refusal::Stopped { at } => Refusal::Stopped {
            at: at.saturating_sub(start),
        },
        Refusal::TooDeep { at } => Refusal::TooDeep {
            at: at.saturating_sub(start),
        },
        Refusal::RepeatedName { at } => Refusal::RepeatedName {
            at: at.saturating_sub(start),
        },
        Refusal::Truncated => Refusal::Truncated,
    }
}

/// Appends the sentence for a line that ends too early.
fn push_end(
    out: &mut String,
    document: &Document,
    encoding: Encoding,
    span: Span,
    standing: Option<Standing>,
) -> Result<(), AllocError> {
    match standing {
        Some(standing) if is_in_string(standing.state) => {
            let at = span.start.saturating_add(standing.token);
            push_string_open(out, Some(place_at(document, encoding, at)))
        }
        standing => push_truncated(out, standing.as_ref()),
    }
}

/// Appends the sentence for a line that is refused.
fn push_refused(
    alloc: Global,
    out: &mut String,
    document: &Document,
    settings: &Settings,
    encoding: Encoding,
    span: Span,
    refusal: Refusal,
) -> Result<(), AllocError> {
    // A byte order mark may be ignored in front of the document, and not of a line.
    let of_line = Settings {
        depth: settings.depth,
        mark: FrontMark::Refused,
        names: NameRule::Any,
    };
    let text = bytes_between(document, span.start, span.end)?;
    match refusal {
        Refusal::Truncated => {
            let standing = standing_before(alloc, &text, text.len(), &of_line)?;
            push_end(out, document, encoding, span, standing)
        }
        _ => push_sentence(alloc, out, &text, in_line(span.start, refusal), &of_line),
    }
}

/// The sentence on a line that is not valid JSON, as the inside of a JSON string. The bytes of the line are read.
pub(crate) fn sentence_on_line(
    alloc: Global,
    document: &Document,
    settings: &Settings,
    encoding: Encoding,
    line: &JudgedLine,
) -> Result<Vec<u8>, AllocError> {
    let mut out = String::new(alloc);
    match line.verdict {
        LineVerdict::Refused(refusal) => push_refused(
            alloc, &mut out, document, settings, encoding, line.span, refusal,
        )?,
        LineVerdict::MayBeCut => {
            out.push_str("the value may be cut: nothing behind it ends it")?;
        }
        LineVerdict::Blank => out.push_str("the line is blank")?,
        LineVerdict::Accepted => {}
    }
    inside_quotes(alloc, &out)
}
