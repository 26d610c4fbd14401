// The answers on elements, in words.
use jx_answer::{Element, ElementAnswer};
use jx_run::{ElementVerdict, JudgedElement};
use std::alloc::{AllocError, Global};
use test_words::{Out, push_elements};

/// The verdict that an answer has, without the index.
fn verdict_of(answer: &ElementAnswer) -> ElementVerdict {
    match answer {
        ElementAnswer::Accepted(_) => ElementVerdict::Accepted,
        ElementAnswer::Refused(refusal) => ElementVerdict::Refused(*refusal),
        ElementAnswer::MayBeCut => ElementVerdict::MayBeCut,
        ElementAnswer::Unmarked => ElementVerdict::Unmarked,
    }
}

/// Each element and its verdict, or `-` where there is none.
pub fn told_of(alloc: Global, elements: &[JudgedElement]) -> Out {
    let mut told = Out::new(alloc);
    push_elements(&mut told, elements);
    told
}

/// Each element with its index, or `-` where there is none.
pub fn told_of_answers(alloc: Global, elements: &[Element]) -> Result<Out, AllocError> {
    let mut judged = Vec::new(alloc);
    for element in elements {
        judged.push(JudgedElement {
            span: element.span,
            verdict: verdict_of(&element.answer),
        })?;
    }
    Ok(told_of(alloc, &judged))
}
