// Answers on the lines of a text that is fed by slices.
use jx_ndjson::{JudgedLine, LineReader, LineVerdict};
use jx_run::{Settings, Verdict};
use std::alloc::{AllocError, Global};
use test_words::{Out, push_span, push_verdict};

/// How many bytes are fed at most.
const FAR: usize = 1 << 40;

fn push_line(out: &mut Out, judged: JudgedLine) {
    out.part("; ");
    out.put(format_args!("{} ", judged.number));
    push_span(out, judged.span);
    out.push_str(" ");
    match judged.verdict {
        LineVerdict::Accepted => push_verdict(out, Verdict::Accepted),
        LineVerdict::Refused(refusal) => push_verdict(out, Verdict::Refused(refusal)),
        LineVerdict::MayBeCut => out.push_str("may be cut"),
        LineVerdict::Blank => out.push_str("blank"),
    }
}

/// Feeds a slice, and writes the lines that end in it. Each step but one takes a byte at least.
fn feed(out: &mut Out, reader: &mut LineReader, slice: &[u8]) -> Result<(), AllocError> {
    let mut rest = slice;
    for _ in 0..=slice.len() {
        if reader.end() < FAR && rest.len() < FAR {
            let step = reader.feed(rest)?;
            rest = &rest[step.taken..];
            if let Some(judged) = step.line {
                push_line(out, judged);
            }
        }
    }
    Ok(())
}

/// The answers on a text that is fed by these slices, one after another.
pub(crate) fn told_by(
    alloc: Global,
    settings: &Settings,
    slices: &[&[u8]],
) -> Result<Out, AllocError> {
    let mut reader = LineReader::new(alloc, settings);
    let mut out = Out::new(alloc);
    for slice in slices {
        feed(&mut out, &mut reader, *slice)?;
    }
    if let Some(judged) = reader.last_line() {
        push_line(&mut out, judged);
    }
    out.part("; ");
    out.put(format_args!("{} ended", reader.ended()));
    Ok(out)
}
