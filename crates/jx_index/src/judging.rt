// Elements of a text sequence, by a rule on the names of objects.
ghost use Rattle.std.specs.Prelude.{◌≡◌, ◌≤◌, ◌↔◌, IsTrue, IfOk, length};
ghost use Rattle.std.specs.List.{AllZip};
ghost use Rattle.jx_run.specs.declared.sequences.element_verdict.ElementVerdict.TheVariants.{Accepted};
ghost use Rattle.jx_run.specs.declared.texts.settings.NameRule.TheVariants.{Unique};
ghost use Rattle.jx_run.specs.Elements.{Part, elements as elements_of};
ghost use Rattle.jx_run.specs.ElementVerdict.{IsJudgedElement};
ghost use Rattle.jx_run.specs.MarkAlone.{elements_by};
ghost use Rattle.jx_run.specs.Text.{IsText};
ghost use Rattle.jx_run.specs.Tree.{Tree};
ghost use Rattle.jx_index.specs.ByNames.{AreJudgedBy, IsJudgedBy, judged_unless};
ghost use Rattle.jx_index.specs.Repeats.{IsLeast, IsRepeat};
ghost use Rattle.jx_index.specs.Rows.{rows};
ghost use Rattle.jx_index.specs.inside.JudgedIn.{IsJudgedIn};

use crate::unique_names::repeated_name;
use jx_lex::{Depth, Span};
use jx_run::{
    ElementVerdict, ElementsRun, FrontMark, JudgedElement, NameRule, NoPause, Refusal, Settings,
    Summary, front, judged_by_mark,
};
use std::alloc::{AllocError, Global};

/// Whether the rule can refuse a name in what has this verdict.
fn may_be_refused(rule: NameRule, verdict: ElementVerdict) -> bool
    ensures { IsTrue result ↔ (rule ≡ Unique) × (verdict ≡ Accepted) }
{
    matches!(
        (rule, verdict),
        (NameRule::Unique, ElementVerdict::Accepted)
    )
}

/// The start of the first name that an object repeats in the text at a span.
fn repeated_in_text(
    alloc: Global,
    input: &[u8],
    span: Span,
    depth: Depth,
) -> Result<Option<usize>, AllocError>
    requires ordered { span.start ≤ span.end }
    requires within { span.end ≤ length input.now }
    requires is_text { (tree : Tree) × IsText input.now span.start span.end depth tree }
    ensures { IfOk result (λ name. (tree : Tree) → IsText input.now span.start span.end depth tree → IsLeast (IsRepeat input.now (rows tree)) name) }
{
    let read = repeated_name(alloc, input, span, depth, &mut NoPause)?;
    match read {
        Ok(name) => Ok(name),
        Err(_) => unreachable!(),
    }
}

/// The element, unless a name is refused.
fn judged_unless(name: Option<usize>, element: JudgedElement) -> JudgedElement
    ensures { result ≡ judged_unless name element }
{
    match name {
        None => element,
        Some(at) => JudgedElement {
            span: element.span,
            verdict: ElementVerdict::Refused(Refusal::RepeatedName { at }),
        },
    }
}

/// The verdict on an element by the rule on names. Only what is otherwise accepted is read again.
fn element_by_names(
    alloc: Global,
    input: &[u8],
    settings: &Settings,
    element: JudgedElement,
) -> Result<JudgedElement, AllocError>
    requires { (p : Part) × IsJudgedIn input.now settings.now.depth p element }
    ensures { IfOk result (λ after. (p : Part) → IsJudgedIn input.now settings.now.depth p element → IsJudgedBy settings.now input.now p after) }
{
    if !may_be_refused(settings.names, element.verdict) {
        return Ok(element);
    }
    let name = repeated_in_text(alloc, input, element.span, settings.depth)?;
    Ok(judged_unless(name, element))
}

/// The verdicts on the elements of a text sequence (RFC 7464) by settings, from those whatever names their objects
/// have. Where names have to be unique (RFC 8259, section 4), each element that is otherwise accepted is read once
/// more, with the names of its open objects alone in memory. `Err` when out of memory.
pub fn judged_by_names(
    alloc: Global,
    input: &[u8],
    settings: &Settings,
    mut elements: Vec<JudgedElement>,
) -> Result<Vec<JudgedElement>, AllocError>
    requires elements { AllZip (IsJudgedElement settings.now.depth) (elements_by settings.now.mark input.now) elements.items }
    ensures elements { IfOk result (λ judged. AreJudgedBy settings.now input.now judged.items) }
{
    for at in 0..elements.len() {
        elements[at] = element_by_names(alloc, input, settings, elements[at])?;
    }
    Ok(elements)
}

/// The verdicts on all elements of a text sequence, within the depth.
fn judge(alloc: Global, input: &[u8], depth: Depth) -> Result<Vec<JudgedElement>, AllocError>
    ensures { IfOk result (λ judged. AllZip (IsJudgedElement depth) (elements_of 0 input.now) judged.items) }
{
    let run = ElementsRun::of(alloc, input, 0, input.len(), depth)?;
    let judged = run.into_elements()?;
    Ok(judged)
}

/// Reads a text sequence (RFC 7464, section 2.1) on the calling thread, and judges its elements by settings. `Err` when
/// out of memory.
pub fn judge_elements(
    alloc: Global,
    input: &[u8],
    settings: &Settings,
) -> Result<Vec<JudgedElement>, AllocError>
    ensures elements { IfOk result (λ judged. AreJudgedBy settings.now input.now judged.items) }
{
    let all = judge(alloc, input, settings.depth)?;
    let elements = judged_by_mark(settings.mark, front(input, FrontMark::Ignored), all);
    let judged = judged_by_names(alloc, input, settings, elements)?;
    Ok(judged)
}
