// The elements of sequences, in runs that are joined.
use crate::run::joins::{cut_at, from_left};
use jx_lex::{Depth, Span};
use jx_run::{SeqRun, Shape, Summary, Verdict};
use std::alloc::{AllocError, Global};
use test_words::{Line, Out, Ways, push_span, push_verdict};

/// An element that has bytes: its span, and the verdict on it where a record separator is before it.
fn push_part(out: &mut Out, span: Span, verdict: Option<Verdict>) {
    if span.start >= span.end {
        return;
    }
    out.part("; ");
    push_span(out, span);
    out.push_str(" ");
    match verdict {
        Some(verdict) => push_verdict(out, verdict),
        None => out.push_str("unmarked"),
    }
}

/// The elements of a run.
fn push_shape(out: &mut Out, run: &SeqRun) {
    match run.shape() {
        Shape::Plain(run) => push_part(out, run.span(), None),
        Shape::Marked {
            before,
            done,
            after,
        } => {
            push_part(out, before.span(), None);
            for element in done {
                push_part(out, element.span(), Some(element.verdict()));
            }
            push_part(out, after.span(), Some(after.verdict()));
        }
    }
}

/// The elements of a run over so many bytes.
fn told_of(
    alloc: Global,
    run: Result<SeqRun, AllocError>,
    len: usize,
    depth: Depth,
) -> Result<Out, AllocError> {
    let run = run?;
    let mut told = Out::new(alloc);
    push_shape(&mut told, &run);
    if told.is_empty() {
        told.push_str("-");
    }
    let span = run.span();
    if span.start != 0 || span.end != len || run.depth() != depth {
        told.push_str(", elsewhere");
    }
    Ok(told)
}

/// Adds the elements of runs that are joined at each cut.
fn add_cuts(ways: &mut Ways, alloc: Global, text: &[u8], depth: Depth) {
    for cut in 0..=text.len() {
        let joined = cut_at::<SeqRun>(alloc, text, cut, depth);
        let told = told_of(alloc, joined, text.len(), depth);
        ways.add_made(format_args!("cut at {cut}"), told);
    }
}

/// `parts DEPTH TEXT`: the elements of a run, of runs that are joined at each cut, and of runs of single bytes.
pub(crate) fn parts(line: &mut Line<'_>) {
    let depth = line.depth();
    let text = line.text();
    let (alloc, len) = (line.alloc, text.len());
    let mut ways = Ways::new(alloc);
    let whole = SeqRun::of(alloc, &text, 0, len, depth);
    ways.add_made("as one run", told_of(alloc, whole, len, depth));
    let bytes = from_left::<SeqRun>(alloc, &text, depth);
    ways.add_made("byte by byte", told_of(alloc, bytes, len, depth));
    add_cuts(&mut ways, alloc, &text, depth);
    ways.push_to(&mut line.out);
}
