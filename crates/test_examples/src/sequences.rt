ghost use Rattle.std.specs.Prelude.{◌≡◌, ◌++◌, List, IfOk, OnOk};
ghost use Rattle.jx_answer.specs.declared.element.Element.{Element};
ghost use Rattle.jx_answer.specs.Sequence.{AreElements};
ghost use Rattle.test_examples.specs.Wholes.{accepted_spans, span_if};

use crate::example_fault::ExampleFault;
use jx_answer::{Element, ElementAnswer, index_sequence};
use jx_claim::Cutting;
use jx_crew::{OpenGate, Workers};
use jx_lex::{Depth, Span};
use std::alloc::{AllocError, Global};
use std::sync::Wait;
use std::thread::Threads;

/// The spans of the elements of a text sequence (RFC 7464) that are texts, in order. The others are skipped.
pub fn whole_elements<R: Threads + Wait + Sync>(
    rt: &R,
    alloc: Global,
    input: &[u8],
    workers: Workers,
) -> Result<Vec<Span>, ExampleFault>
    ensures { IfOk result (λ spans. (elements : List Element) × AreElements input.now 512 elements × (spans.items ≡ accepted_spans elements)) }
{
    let cutting = Cutting::every(input.len(), 65536)?;
    let depth = Depth::default();
    let elements = index_sequence(rt, alloc, input, &cutting, workers, depth, &OpenGate)?;
    let spans = spans_of(alloc, &elements)?;
    Ok(spans)
}

/// Where the accepted elements stand, in order.
fn spans_of(alloc: Global, elements: &[Element]) -> Result<Vec<Span>, AllocError>
    ensures { IfOk result (λ spans. spans.items ≡ accepted_spans elements.now) }
{
    let mut spans = Vec::new(alloc);
    for element in elements {
        push_whole(&mut spans, element)?;
    }
    Ok(spans)
}

/// Appends where the element stands, if it is accepted.
fn push_whole(spans: &mut Vec<Span>, element: &Element) -> Result<(), AllocError>
    ensures { OnOk result (spans.new.items ≡ spans.old.items ++ span_if element.now.answer element.now.span) }
{
    match &element.answer {
        ElementAnswer::Accepted(_) => {
            spans.push(element.span)?;
            Ok(())
        }
        ElementAnswer::Refused(_) | ElementAnswer::MayBeCut | ElementAnswer::Unmarked => Ok(()),
    }
}
