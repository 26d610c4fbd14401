// A byte order mark in front of a text.
use jx_run::{Front, OutcomeRun, Settings, Summary, Verdict, front};
use std::alloc::{AllocError, Global};
use test_words::{Line, Out, push_verdict};

/// `front DEPTH SETTINGS TEXT`: how many bytes stand in front of the text and the verdict on what follows them, or why
/// they are not valid JSON.
pub(crate) fn fronted(line: &mut Line<'_>) {
    let depth = line.depth();
    let settings = line.settings(depth);
    let text = line.text();
    let told = push_front(&mut line.out, line.alloc, &settings, &text);
    line.settle(told);
}

fn push_front(
    out: &mut Out,
    alloc: Global,
    settings: &Settings,
    text: &[u8],
) -> Result<(), AllocError> {
    match front(text, settings.mark) {
        Front::Skip(count) => {
            let run = OutcomeRun::of(alloc, text, count, text.len(), settings.depth)?;
            out.put(format_args!("from {count}: "));
            push_verdict(out, run.verdict());
        }
        Front::Refused(refusal) => {
            out.push_str("refused: ");
            push_verdict(out, Verdict::Refused(refusal));
        }
    }
    Ok(())
}
