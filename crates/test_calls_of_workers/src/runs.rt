// Runs that an accumulator holds, and what they are in words.
ghost use Rattle.std.specs.Prelude.{◌<◌, IfOk, IfSome};

use crate::copied::Copied;
use jx_book::Held;
use jx_lex::{Depth, Span};
use std::alloc::Global;
use test_words::{LineFault, Out, push_span, push_text};

/// The run of a part of a text, which has to have bytes.
pub fn read<'a>(
    alloc: Global,
    text: &'a [u8],
    span: Span,
    depth: Depth,
) -> Result<Held<'a, Copied>, LineFault>
    ensures { IfOk result (λ run. run.span.start < run.span.end) }
{
    if span.start < span.end && span.end <= text.len() {
        let run = Held::read(alloc, text, span.start, span.end, depth)?;
        return Ok(run);
    }
    Err(LineFault::NoSuchCall)
}

/// The run, if it has bytes.
pub fn filled<'a>(run: Held<'a, Copied>) -> Option<Held<'a, Copied>>
    ensures { IfSome result (λ run. run.span.start < run.span.end) }
{
    if run.span().start < run.span().end {
        Some(run)
    } else {
        None
    }
}

/// `S..E`, and the bytes that the run was read from.
pub fn push_run(out: &mut Out, run: &Held<'_, Copied>) {
    push_span(out, run.span());
    out.push_str(" of bytes ");
    push_text(out, run.run().bytes());
}

/// The spans of runs, or `-` for none.
pub fn push_runs(out: &mut Out, runs: &[Held<'_, Copied>]) {
    out.list(",", runs, push_run);
}
