// The words of answers.
use crate::out::Out;
use jx_index::Row;
use jx_lex::{Kind, Span};
use jx_run::{ElementVerdict, JudgedElement, Refusal, Verdict};

/// `2,3`, or `-` for no numbers.
pub fn push_numbers(out: &mut Out, numbers: &[usize]) {
    out.list(",", numbers, |out, number| out.put(*number));
}

/// `S..E`.
pub fn push_span(out: &mut Out, span: Span) {
    let (start, end) = (span.start, span.end);
    out.put(format_args!("{start}..{end}"));
}

fn push_refusal(out: &mut Out, refusal: Refusal) {
    let (word, at) = match refusal {
        Refusal::Truncated => return out.push_str("truncated"),
        Refusal::Stopped { at } => ("stopped", at),
        Refusal::TooDeep { at } => ("too deep", at),
        Refusal::RepeatedName { at } => ("repeated name", at),
    };
    out.push_str(word);
    out.push_str(" at ");
    out.put(at);
}

/// `accepted`, `truncated`, `stopped at K`, `too deep at K` or `repeated name at K`.
pub fn push_verdict(out: &mut Out, verdict: Verdict) {
    match verdict {
        Verdict::Accepted => out.push_str("accepted"),
        Verdict::Refused(refusal) => push_refusal(out, refusal),
    }
}

/// The element's span, and a verdict, `may be cut` or `unmarked`.
fn push_element(out: &mut Out, element: &JudgedElement) {
    push_span(out, element.span);
    out.push_str(" ");
    match element.verdict {
        ElementVerdict::Accepted => out.push_str("accepted"),
        ElementVerdict::Refused(refusal) => push_refusal(out, refusal),
        ElementVerdict::MayBeCut => out.push_str("may be cut"),
        ElementVerdict::Unmarked => out.push_str("unmarked"),
    }
}

/// All elements, one after another, or `-` for none.
pub fn push_elements(out: &mut Out, elements: &[JudgedElement]) {
    out.list("; ", elements, push_element);
}

fn kind_word(kind: Kind) -> &'static str {
    match kind {
        Kind::Object => "object",
        Kind::Array => "array",
        Kind::String => "string",
        Kind::Number => "number",
        Kind::True => "true",
        Kind::False => "false",
        Kind::Null => "null",
    }
}

fn push_kind(out: &mut Out, kind: Kind, span: Span) {
    out.push_str(kind_word(kind));
    out.push_str(" ");
    push_span(out, span);
}

/// `found number 4..6`: the value to which a pointer leads.
pub fn push_found(out: &mut Out, kind: Kind, span: Span) {
    out.push_str("found ");
    push_kind(out, kind, span);
}

/// A value's kind and span, its parent's number, its place among its siblings and the span of its name; `-` where there is
/// none.
fn push_row(out: &mut Out, row: &Row) {
    push_kind(out, row.kind, row.span);
    match row.parent {
        Some(parent) => out.put(format_args!(" {}", parent.number())),
        None => out.push_str(" -"),
    }
    out.put(format_args!(" {} ", row.place));
    match row.name {
        Some(name) => push_span(out, name),
        None => out.push_str("-"),
    }
}

/// All rows, each after a semicolon and its number.
pub fn push_rows(out: &mut Out, rows: &[Row]) {
    for (number, row) in rows.iter().enumerate() {
        out.put(format_args!("; {number} "));
        push_row(out, row);
    }
}
