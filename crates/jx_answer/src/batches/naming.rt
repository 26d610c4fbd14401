// Verdicts on elements by a rule on the names of objects, from the bytes of a part of their sequence.
ghost use Rattle.std.specs.Prelude.{◌≡◌, ◌+◌, ◌-◌, ◌<◌, ◌≤◌, ◌^◌, ◌↔◌, ℕ, List, IsTrue, IfOk, length, slice_range};
ghost use Rattle.std.specs.List.{AllZip};
ghost use Rattle.std.specs.Option.{option_map};
ghost use Rattle.jx_run.specs.declared.sequences.element_verdict.ElementVerdict.TheVariants.{Accepted};
ghost use Rattle.jx_run.specs.declared.texts.settings.NameRule.TheVariants.{Unique};
ghost use Rattle.jx_run.specs.Elements.{elements as elements_of};
ghost use Rattle.jx_run.specs.ElementVerdict.{IsJudgedElement};
ghost use Rattle.jx_run.specs.ReaderInside.{offset_at};
ghost use Rattle.jx_run.specs.Text.{IsDocument};
ghost use Rattle.jx_run.specs.Tree.{Tree};
ghost use Rattle.jx_index.specs.ByNames.{judged_unless};
ghost use Rattle.jx_index.specs.Repeats.{IsLeast, IsRepeat};
ghost use Rattle.jx_index.specs.Rows.{rows};
ghost use Rattle.jx_answer.specs.Named.{IsNamed};

use jx_index::repeated_name;
use jx_lex::{Depth, Span};
use jx_run::{
    ElementVerdict, JudgedElement, NameRule, NoPause, Refusal, Settings, reader_and_grammar,
    unique_tree,
};
use std::alloc::{AllocError, Global};

/// Whether the rule can refuse a name in what has this verdict.
fn may_be_refused(rule: NameRule, verdict: ElementVerdict) -> bool
    ensures { IsTrue result ↔ (rule ≡ Unique) × (verdict ≡ Accepted) }
{
    matches!(
        (rule, verdict),
        (NameRule::Unique, ElementVerdict::Accepted)
    )
}

/// The start of a name, where the bytes stand so much further on.
fn name_behind(by: usize, name: Option<usize>) -> Option<usize>
    ensures { result ≡ option_map (offset_at by) name }
{
    match name {
        None => None,
        Some(at) => Some(by.saturating_add(at)),
    }
}

/// The verdict on an element, unless a name is refused.
fn element_unless(name: Option<usize>, element: JudgedElement) -> JudgedElement
    ensures { result ≡ judged_unless name element }
{
    match name {
        None => element,
        Some(at) => JudgedElement {
            span: element.span,
            verdict: ElementVerdict::Refused(Refusal::RepeatedName { at }),
        },
    }
}

/// The start of the first name that an object repeats in a text with these bytes, which stand in an input from `at` on.
fn repeated_there(
    alloc: Global,
    bytes: &[u8],
    at: usize,
    depth: Depth,
) -> Result<Option<usize>, AllocError>
    ensures { IfOk result (λ name. (input : List ℕ) (end : ℕ) (tree : Tree) → slice_range input at end ≡ bytes.now → at + length bytes.now < 2 ^ 64
        → IsDocument at bytes.now depth tree → IsLeast (IsRepeat input (rows tree)) name) }
{
    reader_and_grammar();
    unique_tree();
    let end = bytes.len();
    let read = repeated_name(alloc, bytes, Span { start: 0, end }, depth, &mut NoPause)?;
    match read {
        Ok(name) => Ok(name_behind(at, name)),
        // The bytes are not valid JSON, wherever they stand.
        Err(_) => Ok(None),
    }
}

/// The verdict on an element of a text sequence by a rule on the names of objects (RFC 8259, section 4), from the
/// element's bytes alone. Only what is otherwise accepted is read, with the names of its open objects in memory. `Err`
/// when out of memory.
pub fn named_element(
    alloc: Global,
    bytes: &[u8],
    settings: &Settings,
    element: JudgedElement,
) -> Result<JudgedElement, AllocError>
    // In every input that has these bytes at the element's span, this is what the rule makes of the verdict.
    ensures named { IfOk result (λ named. (input : List ℕ) → slice_range input element.span.start element.span.end ≡ bytes.now → IsNamed settings.now input element named) }
{
    if !may_be_refused(settings.names, element.verdict) {
        return Ok(element);
    }
    let name = repeated_there(alloc, bytes, element.span.start, settings.depth)?;
    Ok(element_unless(name, element))
}

/// The bytes of a part at a span of the sequence, where the part follows `before` bytes.
fn bytes_at(part: &[u8], before: usize, span: Span) -> &[u8]
    requires from { before ≤ span.start }
    requires ordered { span.start ≤ span.end }
    requires to { span.end ≤ before + length part.now }
    ensures bytes { result.now ≡ slice_range part.now (span.start - before) (span.end - before) }
{
    &part[span.start - before..span.end - before]
}

/// Judges all elements of a part of the sequence by their names too. The part follows `before` bytes.
pub fn named_elements(
    alloc: Global,
    part: &[u8],
    before: usize,
    settings: &Settings,
    mut elements: Vec<JudgedElement>,
) -> Result<Vec<JudgedElement>, AllocError>
    requires elements { AllZip (IsJudgedElement settings.now.depth) (elements_of before part.now) elements.items }
    ensures named { IfOk result (λ named. (input : List ℕ) → slice_range input before (before + length part.now) ≡ part.now
        → AllZip (IsNamed settings.now input) elements.items named.items) }
{
    if let NameRule::Any = settings.names {
        return Ok(elements);
    }
    for at in 0..elements.len() {
        let element = elements[at];
        let bytes = bytes_at(part, before, element.span);
        elements[at] = named_element(alloc, bytes, settings, element)?;
    }
    Ok(elements)
}
