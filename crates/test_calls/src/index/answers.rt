// Answers on texts and on sequences by settings, read on the calling thread.
use jx_index::{TextAnswer, judge_elements};
use jx_run::Verdict;
use test_words::{Line, Out, push_elements, push_rows, push_span, push_verdict};

/// `text DEPTH SETTINGS TEXT`: the verdict, and where the text is accepted its span and all rows.
pub(crate) fn text(line: &mut Line<'_>) {
    let depth = line.depth();
    let settings = line.settings(depth);
    let text = line.text();
    let answer = TextAnswer::read(line.alloc, &text, &settings);
    if let Some(answer) = line.keep(answer) {
        push_answer(&mut line.out, &answer);
    }
}

fn push_answer(out: &mut Out, answer: &TextAnswer<'_>) {
    match answer {
        TextAnswer::Accepted(index) => {
            out.push_str("accepted ");
            push_span(out, index.span());
            push_rows(out, index.rows());
        }
        TextAnswer::Refused(refusal) => push_verdict(out, Verdict::Refused(*refusal)),
    }
}

/// `judged DEPTH SETTINGS TEXT`: the elements of a sequence.
pub(crate) fn judged(line: &mut Line<'_>) {
    let depth = line.depth();
    let settings = line.settings(depth);
    let text = line.text();
    let elements = judge_elements(line.alloc, &text, &settings);
    if let Some(elements) = line.keep(elements) {
        push_elements(&mut line.out, &elements);
    }
}
