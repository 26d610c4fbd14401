ghost use Rattle.std.specs.Prelude.{◌≡◌, ◌<◌, ◌≤◌, ◌↔◌, ◌++◌, ℕ, List, IsTrue, All, length, slice_range, IfOk, OnOk};
ghost use Rattle.std.specs.List.{AllZip};
ghost use Rattle.jx_run.specs.Front.{front_of};
ghost use Rattle.jx_run.specs.SeqRun.{IsSeqRun, sequence_span};
ghost use Rattle.jx_run.specs.Text.{IsText};
ghost use Rattle.jx_run.specs.TextRun.{IsTextRun, text_span};
ghost use Rattle.jx_run.specs.Tree.{Tree, span};
ghost use Rattle.jx_run.specs.Unclosed.{EndsUnclosed, is_unclosed};
ghost use Rattle.jx_run.specs.MarkAlone.{elements_by, part_of};
ghost use Rattle.jx_answer.specs.Sequence.{AreElements, IsElement, IsElementAnswer};
ghost use Rattle.jx_answer.specs.Settled.{AreElementsBy};
ghost use Rattle.jx_answer.specs.inside.Pushed.{IsReadable, IsShown, PushesEach, PushesFilled, unmarked};

use crate::bytes::by_names::elements_by_names;
use crate::bytes::texts::read_text;
use crate::element::{Element, ElementAnswer};
use crate::fault::Fault;
use crate::laws::answer_with_settings_off;
use jx_claim::Cutting;
use jx_crew::{Crew, Gate, Workers};
use jx_index::Indexed;
use jx_lex::{Depth, Kind, Span};
use jx_run::{
    Front, FrontMark, SeqRun, Settings, Shape, Started, Summary, TextRun, Verdict, front,
    is_mark_alone,
};
use std::alloc::{AllocError, Global};
use std::sync::Wait;
use std::thread::Threads;

/// Reads a JSON text sequence (RFC 7464) by that many workers, who take the chunks of the division, and answers on each
/// of its elements in order. A refused one does not stop the rest. It may wait for the workers. The gate is asked after
/// each step of a worker and may stop the worker; the calling thread reads what is left. One worker reads as each of
/// several does, in a thread of its own where one can be made. A division of at most one chunk starts no worker and
/// asks no gate: the calling thread reads. The only fault is out of memory.
pub fn index_sequence<'a, R: Threads + Wait + Sync, G: Gate + Sync>(
    rt: &R,
    alloc: Global,
    text: &'a [u8],
    cutting: &Cutting,
    workers: Workers,
    depth: Depth,
    gate: &G,
) -> Result<Vec<Element<'a>>, Fault>
    requires cutting { cutting.now.len ≡ length text.now }
    requires front { cutting.now.front ≡ 0 }
    // For every division, number of workers and gate, these are the answers on the elements of the bytes.
    ensures elements { IfOk result (λ elements. AreElements text.entry.now depth elements.items) }
{
    answer_with_settings_off();
    index_sequence_with(rt, alloc, text, cutting, workers, &depth.into(), gate)
}

/// Reads a sequence as `index_sequence` does, by settings. An ignored byte order mark alone before the first record separator is
/// no element; a byte order mark in an element is refused as ever. Where names have to be unique, an element that is
/// otherwise accepted is refused for the first name that an object repeats.
pub fn index_sequence_with<'a, R: Threads + Wait + Sync, G: Gate + Sync>(
    rt: &R,
    alloc: Global,
    text: &'a [u8],
    cutting: &Cutting,
    workers: Workers,
    settings: &Settings,
    gate: &G,
) -> Result<Vec<Element<'a>>, Fault>
    requires cutting { cutting.now.len ≡ length text.now }
    requires front { cutting.now.front ≡ 0 }
    ensures elements { IfOk result (λ elements. AreElementsBy settings.now text.entry.now elements.items) }
{
    let crew = Crew {
        rt,
        alloc,
        workers,
        gate,
    };
    let elements = index_by_mark(&crew, text, cutting, settings)?;
    Ok(elements_by_names(settings.names, elements))
}

/// Reads a sequence by settings, whatever names the objects have.
fn index_by_mark<'a, R: Threads + Wait + Sync, G: Gate + Sync>(
    crew: &Crew<'_, R, G>,
    text: &'a [u8],
    cutting: &Cutting,
    settings: &Settings,
) -> Result<Vec<Element<'a>>, AllocError>
    requires cutting { cutting.now.len ≡ length text.now }
    requires front { cutting.now.front ≡ 0 }
    ensures elements { IfOk result (λ elements. AllZip (IsElement text.entry.now settings.now.depth) (elements_by settings.now.mark text.entry.now) elements.items) }
{
    let run = read_text::<SeqRun, R, G>(crew, text, cutting, settings.depth)?;
    let elements = elements_of(crew.alloc, text, run.run())?;
    match settings.mark {
        FrontMark::Refused => Ok(elements),
        FrontMark::Ignored => Ok(without_mark(front(text, FrontMark::Ignored), elements)),
    }
}

/// The answers without that on a byte order mark alone, before the first record separator.
fn without_mark<'a>(seen: Front, mut elements: Vec<Element<'a>>) -> Vec<Element<'a>>
    ensures { (text : List ℕ) (limit : ℕ) → seen ≡ front_of FrontMark.Ignored text → AreElements text limit elements.entry.items
        → AllZip (IsElement text limit) (elements_by FrontMark.Ignored text) result.items }
{
    if elements.is_empty() {
        return elements;
    }
    if !is_mark_alone(seen, elements[0].span) {
        return elements;
    }
    elements.remove(0);
    elements
}

/// The answers that a run over the whole input gives.
fn elements_of<'a>(
    alloc: Global,
    text: &'a [u8],
    run: &SeqRun,
) -> Result<Vec<Element<'a>>, AllocError>
    requires span { sequence_span run.now ≡ span 0 (length text.now) }
    requires of { IsSeqRun text.now run.now }
    ensures elements { IfOk result (λ elements. AreElements text.entry.now run.now.before.depth elements.items) }
{
    match run.shape() {
        Shape::Plain(before) => plain_elements(alloc, before),
        Shape::Marked {
            before,
            done,
            after,
        } => marked_elements(alloc, text, before, done, after),
    }
}

/// The answers on an input without a record separator.
fn plain_elements<'a>(alloc: Global, before: &TextRun) -> Result<Vec<Element<'a>>, AllocError>
    ensures elements { IfOk result (λ elements. elements.items ≡ unmarked (text_span before.now)) }
{
    let mut elements = Vec::new(alloc);
    push_unmarked(before.span(), &mut elements)?;
    Ok(elements)
}

/// The answers on an input with record separators.
fn marked_elements<'a>(
    alloc: Global,
    text: &'a [u8],
    before: &TextRun,
    done: &[Started],
    after: &TextRun,
) -> Result<Vec<Element<'a>>, AllocError>
    requires shown { IsShown text.now before.now done.now after.now }
    ensures elements { IfOk result (λ elements. AreElements text.entry.now before.now.depth elements.items) }
{
    let mut elements = Vec::new(alloc);
    push_unmarked(before.span(), &mut elements)?;
    push_done(alloc, text, done, &mut elements)?;
    push_last(alloc, text, after, &mut elements)?;
    Ok(elements)
}

/// The bytes before the first record separator, unless there are none.
fn push_unmarked<'a>(span: Span, elements: &mut Vec<Element<'a>>) -> Result<(), AllocError>
    ensures pushed { OnOk result (elements.new.items ≡ elements.old.items ++ unmarked span) }
{
    if span.start < span.end {
        elements.push(Element {
            span,
            answer: ElementAnswer::Unmarked,
        })?;
    }
    Ok(())
}

/// The elements between record separators.
fn push_done<'a>(
    alloc: Global,
    text: &'a [u8],
    done: &[Started],
    elements: &mut Vec<Element<'a>>,
) -> Result<(), AllocError>
    requires readable { All (IsReadable text.now) done.now }
    ensures pushed { OnOk result (PushesEach text.entry.now done.now elements.old.items elements.new.items) }
{
    for number in 0..done.len() {
        elements.push(element_of(alloc, text, &done[number])?)?;
    }
    Ok(())
}

/// The bytes after the last record separator, unless there are none.
fn push_last<'a>(
    alloc: Global,
    text: &'a [u8],
    after: &TextRun,
    elements: &mut Vec<Element<'a>>,
) -> Result<(), AllocError>
    requires marked { 0 < after.now.map.start }
    requires ordered { after.now.map.start ≤ after.now.map.end }
    requires within { after.now.map.end ≤ length text.now }
    requires of { IsTextRun (slice_range text.now after.now.map.start after.now.map.end) after.now }
    ensures pushed { OnOk result (PushesFilled text.entry.now after.now.depth (part_of text.entry.now (text_span after.now)) elements.old.items elements.new.items) }
{
    let span = after.span();
    if span.start < span.end {
        let started = after.started()?;
        elements.push(element_of(alloc, text, &started)?)?;
    }
    Ok(())
}

/// An element that follows a record separator, with its answer.
fn element_of<'a>(
    alloc: Global,
    text: &'a [u8],
    started: &Started,
) -> Result<Element<'a>, AllocError>
    requires readable { IsReadable text.now started.now }
    ensures element { IfOk result (IsElement text.entry.now started.now.depth (part_of text.entry.now started.now.span)) }
{
    let answer = answer_of(alloc, text, started)?;
    Ok(Element {
        span: started.span(),
        answer,
    })
}

/// The answer on an element that follows a record separator.
fn answer_of<'a>(
    alloc: Global,
    text: &'a [u8],
    started: &Started,
) -> Result<ElementAnswer<'a>, AllocError>
    requires readable { IsReadable text.now started.now }
    ensures answer { IfOk result (IsElementAnswer text.entry.now (part_of text.entry.now started.now.span) started.now.depth) }
{
    if let Verdict::Refused(refusal) = started.verdict() {
        return Ok(ElementAnswer::Refused(refusal));
    }
    let index = Indexed::build(alloc, text, started)?;
    if ends_unclosed(&index) {
        return Ok(ElementAnswer::MayBeCut);
    }
    Ok(ElementAnswer::Accepted(index))
}

/// Whether its end shows only in what follows a value.
fn is_unclosed(kind: Kind) -> bool
    ensures { result ≡ is_unclosed kind }
{
    match kind {
        Kind::Object | Kind::Array | Kind::String => false,
        Kind::Number | Kind::True | Kind::False | Kind::Null => true,
    }
}

/// Whether nothing follows the root, whose end shows only in what follows it.
fn ends_unclosed(index: &Indexed<'_>) -> bool
    ensures { (limit : ℕ) (tree : Tree) → IsText index.now.text index.now.span.start index.now.span.end limit tree → IsTrue result ↔ EndsUnclosed tree index.now.span.end }
{
    let root = index.row(index.root());
    is_unclosed(root.kind) && root.span.end == index.span().end
}
