// The values around an offset of a text, in one pass.
ghost use Rattle.std.specs.Prelude.{◌≡◌, ◌≤◌, length, IfOk, IfErr};
ghost use Rattle.jx_run.specs.declared.texts.verdict.Verdict.TheVariants.{Refused};
ghost use Rattle.jx_run.specs.Settings.{JudgedBy};
ghost use Rattle.jx_run.specs.Verdict.{Judged};
ghost use Rattle.jx_index.specs.Settled.{rest_from};
ghost use Rattle.jx_around.specs.Around.{AreAround, AreAroundFrom};

use crate::around::Around;
use crate::on_tokens::{Offset, OnTokens};
use jx_index::index_behind_a_front;
use jx_lex::{Depth, grammar_of_tokens};
use jx_run::{Front, NoPause, Refusal, Settings, Verdict, front, read_into};
use std::alloc::{AllocError, Global};
use std::marker::Brand;

/// The values around an offset of the text that stands from another one on. The call picks the offset.
fn read_from<O: Offset>(
    alloc: Global,
    text: &[u8],
    start: usize,
    depth: Depth,
    offset: usize,
) -> Result<Result<Vec<Around>, Refusal>, AllocError>
    requires within { start ≤ length text.now }
    requires offset { offset ≡ O.offset }
    ensures accepted { IfOk result (λ read. IfOk read (λ values. AreAroundFrom start text.now depth O.offset values.items)) }
    ensures refused { IfOk result (λ read. IfErr read (λ refusal. Judged start (rest_from start text.now) depth (Refused refusal))) }
{
    grammar_of_tokens();
    let end = text.len();
    let sink: OnTokens<O> = OnTokens::new(alloc, offset);
    let told = read_into(alloc, text, start, end, depth, sink, &mut NoPause)?;
    match told.verdict {
        Verdict::Refused(refusal) => Ok(Err(refusal)),
        Verdict::Accepted => {
            let collected = told.sink.finish(end)?;
            Ok(Ok(collected.into_ended()))
        }
    }
}

/// The same, by the offset that is given.
fn around_from(
    alloc: Global,
    text: &[u8],
    start: usize,
    depth: Depth,
    offset: usize,
) -> Result<Result<Vec<Around>, Refusal>, AllocError>
    requires within { start ≤ length text.now }
    ensures accepted { IfOk result (λ read. IfOk read (λ values. AreAroundFrom start text.now depth offset values.items)) }
    ensures refused { IfOk result (λ read. IfErr read (λ refusal. Judged start (rest_from start text.now) depth (Refused refusal))) }
{
    read_from::<Brand>(alloc, text, start, depth, offset)
}

/// Reads a JSON text (RFC 8259) by settings in one pass, whatever names its objects have. Returns the values around an
/// offset, each before those in it; the refusal where it is not a text. `Err` when out of memory.
pub fn values_around(
    alloc: Global,
    text: &[u8],
    settings: &Settings,
    offset: usize,
) -> Result<Result<Vec<Around>, Refusal>, AllocError>
    ensures accepted { IfOk result (λ read. IfOk read (λ values. AreAround settings.now text.now offset values.items)) }
    ensures refused { IfOk result (λ read. IfErr read (λ refusal. JudgedBy settings.now 0 text.now (Refused refusal))) }
{
    index_behind_a_front();
    match front(text, settings.mark) {
        Front::Refused(refusal) => Ok(Err(refusal)),
        Front::Skip(count) => around_from(alloc, text, count, settings.depth, offset),
    }
}
