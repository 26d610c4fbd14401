// The lines and the exit for some elements of a text sequence.
ghost use Rattle.std.specs.Prelude.{◌≡◌, ◌++◌, ◌<◌, [], Some, flat_map, length, slice_get, IfOk, OnOk};
ghost use Rattle.jx_ndjson_report.specs.Elements.{element_line};
ghost use Rattle.jx_report.specs.Elements.{exit_past_judged};
ghost use Rattle.jx_words.specs.Verdicts.{shown_output};
ghost use Rattle.jx_ends.specs.declared.exit.Exit.TheVariants.{Good};
ghost use Rattle.jx_parallel_report.specs.inside.Elements.{IsToldOf};

use jx_ends::Exit;
use jx_ndjson_report::{add_element, exit_past};
use jx_parallel::PartRule;
use jx_run::JudgedElement;
use std::alloc::{AllocError, Global};

/// The lines of some elements, and the exit by them.
#[derive(Debug, Drop)]
pub(crate) struct ToldElements {
    pub words: Vec<u8>,
    pub exit: Exit,
}

/// The element with this number, counted from 0.
fn element_at(elements: &[JudgedElement], number: usize) -> JudgedElement
    requires { number < length elements.now }
    ensures { slice_get elements.now number ≡ Some result }
{
    elements[number]
}

/// Appends the lines of elements.
fn add_lines(words: &mut Vec<u8>, elements: &[JudgedElement]) -> Result<(), AllocError>
    ensures { OnOk result (words.new.items ≡ words.old.items ++ flat_map (element_line []) elements.now) }
{
    for number in 0..elements.len() {
        let element = element_at(elements, number);
        add_element(words, b"", element)?;
    }
    Ok(())
}

/// Bad where one of the elements is not accepted, and otherwise good.
fn exit_of(elements: &[JudgedElement]) -> Exit
    ensures { result ≡ exit_past_judged Good elements.now }
{
    let mut exit = Exit::Good;
    for number in 0..elements.len() {
        let element = element_at(elements, number);
        exit = exit_past(exit, element.verdict);
    }
    exit
}

/// The lines of elements, or nothing for a quiet command.
fn words_of(
    alloc: Global,
    rule: &PartRule,
    elements: &[JudgedElement],
) -> Result<Vec<u8>, AllocError>
    ensures { IfOk result (λ words. words.items ≡ shown_output rule.now.is_quiet (flat_map (element_line []) elements.now)) }
{
    let mut words = Vec::new(alloc);
    if rule.is_quiet {
        return Ok(words);
    }
    add_lines(&mut words, elements)?;
    Ok(words)
}

/// The lines of elements, and the exit by them.
pub(crate) fn told_of(
    alloc: Global,
    rule: &PartRule,
    elements: &[JudgedElement],
) -> Result<ToldElements, AllocError>
    ensures { IfOk result (λ told. IsToldOf rule.now.is_quiet elements.now told.words.items told.exit) }
{
    let words = words_of(alloc, rule, elements)?;
    let exit = exit_of(elements);
    Ok(ToldElements { words, exit })
}
