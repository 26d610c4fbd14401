// Elements that are otherwise accepted, by a rule on the names of objects.
ghost use Rattle.std.specs.Prelude.{◌≡◌, ℕ, List};
ghost use Rattle.std.specs.List.{AllZip};
ghost use Rattle.jx_run.specs.Elements.{Part};
ghost use Rattle.jx_run.specs.declared.texts.settings.Settings.{Settings};
ghost use Rattle.jx_answer.specs.ByNames.{IsByNames, RefusesNameIn};
ghost use Rattle.jx_answer.specs.Sequence.{IsElement};
ghost use Rattle.jx_answer.specs.Settled.{IsElementBy};

use crate::element::{Element, ElementAnswer};
use jx_run::{NameRule, Refusal};

/// The start of the name for which the rule refuses an element with this answer, if it refuses one.
fn refused_name_in(rule: NameRule, answer: &ElementAnswer<'_>) -> Option<usize>
    ensures { RefusesNameIn rule answer.now result }
{
    match answer {
        ElementAnswer::Accepted(index) => index.refused_name(rule),
        ElementAnswer::Refused(_) => None,
        ElementAnswer::MayBeCut => None,
        ElementAnswer::Unmarked => None,
    }
}

/// Turns the answer on an element into a refusal where the rule refuses one of its names.
fn element_by_names(rule: NameRule, answer: &mut ElementAnswer<'_>)
    ensures { IsByNames rule answer.old answer.new }
{
    if let Some(at) = refused_name_in(rule, answer) {
        *answer = ElementAnswer::Refused(Refusal::RepeatedName { at });
    }
}

/// The answers on elements, from those whatever names their objects have.
pub(crate) fn elements_by_names<'a>(
    rule: NameRule,
    mut elements: Vec<Element<'a>>,
) -> Vec<Element<'a>>
    ensures { (settings : Settings) (input : List ℕ) (ps : List Part) → settings.names ≡ rule
        → AllZip (IsElement input settings.depth) ps elements.entry.items → AllZip (IsElementBy settings input) ps result.items }
{
    for at in 0..elements.len() {
        element_by_names(rule, &mut elements[at].answer);
    }
    elements
}
