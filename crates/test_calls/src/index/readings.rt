// The rows of texts, read in one pass, with pauses and by runs.
ghost use Rattle.std.specs.Prelude.{◌≤◌, length};

use crate::index::pauses::EachByte;
use jx_index::{Indexed, TextAnswer};
use jx_lex::{Depth, Span};
use jx_run::{NoPause, Pace, Refusal, Summary, TextRun, Verdict};
use std::alloc::{AllocError, Global};
use test_words::{Line, Out, Ways, push_rows, push_verdict};

/// The rows of a text that is accepted.
fn told_of_index(alloc: Global, index: &Indexed<'_>) -> Out {
    let mut told = Out::new(alloc);
    push_verdict(&mut told, Verdict::Accepted);
    push_rows(&mut told, index.rows());
    told
}

fn told_of_refusal(alloc: Global, refusal: Refusal) -> Out {
    let mut told = Out::new(alloc);
    push_verdict(&mut told, Verdict::Refused(refusal));
    told
}

/// The verdict, and the rows where the text is accepted.
fn told_of_answer(alloc: Global, answer: &TextAnswer<'_>) -> Out {
    match answer {
        TextAnswer::Accepted(index) => told_of_index(alloc, index),
        TextAnswer::Refused(refusal) => told_of_refusal(alloc, *refusal),
    }
}

/// The result of one pass over a span, with these pauses.
fn in_one_pass<P: Pace>(
    alloc: Global,
    text: &[u8],
    span: Span,
    depth: Depth,
    pace: &mut P,
) -> Result<Out, AllocError>
    requires ordered { span.start ≤ span.end }
    requires within { span.end ≤ length text.now }
{
    match Indexed::read(alloc, text, span, depth, pace)? {
        Ok(index) => Ok(told_of_index(alloc, &index)),
        Err(refusal) => Ok(told_of_refusal(alloc, refusal)),
    }
}

/// The result of a run over a span, started.
fn by_started_run(alloc: Global, text: &[u8], span: Span, depth: Depth) -> Result<Out, AllocError>
    requires ordered { span.start ≤ span.end }
    requires within { span.end ≤ length text.now }
{
    let run = TextRun::of(alloc, text, span.start, span.end, depth)?;
    let started = run.started()?;
    match started.verdict() {
        Verdict::Accepted => Ok(told_of_index(alloc, &Indexed::build(alloc, text, &started)?)),
        Verdict::Refused(refusal) => Ok(told_of_refusal(alloc, refusal)),
    }
}

/// The result of a run over the end of a text.
fn by_run_to_end(alloc: Global, text: &[u8], start: usize, depth: Depth) -> Result<Out, AllocError>
    requires within { start ≤ length text.now }
{
    let run = TextRun::of(alloc, text, start, text.len(), depth)?;
    Ok(told_of_answer(alloc, &TextAnswer::of_run(alloc, text, &run)?))
}

/// The result of one pass over the end of a text.
fn in_one_pass_to_end(
    alloc: Global,
    text: &[u8],
    start: usize,
    depth: Depth,
) -> Result<Out, AllocError>
    requires within { start ≤ length text.now }
{
    let answer = TextAnswer::read_from(alloc, text, start, depth, &mut NoPause)?;
    Ok(told_of_answer(alloc, &answer))
}

/// The span that a word asks for, or else that of the whole text.
fn span(line: &mut Line<'_>, len: usize) -> Span
    ensures ordered { result.start ≤ result.end }
    ensures within { result.end ≤ len }
{
    if line.count() == 0 {
        return Span { start: 0, end: len };
    }
    line.span(len)
}

/// `rows DEPTH TEXT [S..E]`: the verdict and all rows, in one pass, with a pause after each byte, and by runs.
pub(crate) fn rows(line: &mut Line<'_>) {
    let depth = line.depth();
    let text = line.text();
    let span = span(line, text.len());
    let alloc = line.alloc;
    let mut ways = Ways::new(alloc);
    let told = in_one_pass(alloc, &text, span, depth, &mut NoPause);
    ways.add_made("in one pass", told);
    let told = in_one_pass(alloc, &text, span, depth, &mut EachByte);
    ways.add_made("with pauses", told);
    ways.add_made("by a run", by_started_run(alloc, &text, span, depth));
    if span.end == text.len() {
        let told = by_run_to_end(alloc, &text, span.start, depth);
        ways.add_made("by a run to the end", told);
        let told = in_one_pass_to_end(alloc, &text, span.start, depth);
        ways.add_made("to the end", told);
    }
    ways.push_to(&mut line.out);
}
