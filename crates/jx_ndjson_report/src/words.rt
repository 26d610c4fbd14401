// The lines that are written.
ghost use Rattle.std.specs.Prelude.{◌≡◌, ◌++◌, decimal, IfOk, OnOk};
ghost use Rattle.jx_report.specs.Elements.{verdict_words as element_words};
ghost use Rattle.jx_words.specs.Words.{line};
ghost use Rattle.jx_ndjson_report.specs.Elements.{element_line};
ghost use Rattle.jx_ndjson_report.specs.Output.{column_of, is_bad, is_good, member, offset_of, told_line, total_words, verdict_member, verdict_name, verdict_words};

use crate::task::{BlankRule, LineForm};
use jx_ndjson::{JudgedLine, LineVerdict};
use jx_run::{ElementVerdict, JudgedElement, Refusal};
use jx_words::{add_number, add_refusal, add_span};
use std::alloc::AllocError;

/// Whether a line is a text.
pub(crate) fn is_good(verdict: LineVerdict) -> bool
    ensures { result ≡ is_good verdict }
{
    match verdict {
        LineVerdict::Accepted => true,
        LineVerdict::Refused(_) => false,
        LineVerdict::MayBeCut => false,
        LineVerdict::Blank => false,
    }
}

/// Whether a line is reported.
pub fn is_bad(rule: BlankRule, verdict: LineVerdict) -> bool
    ensures { result ≡ is_bad rule verdict }
{
    match verdict {
        LineVerdict::Accepted => false,
        LineVerdict::Refused(_) => true,
        LineVerdict::MayBeCut => true,
        LineVerdict::Blank => match rule {
            BlankRule::Refused => true,
            BlankRule::Passed => false,
        },
    }
}

/// Appends the words for the verdict on a line, and a line feed.
fn add_verdict(out: &mut Vec<u8>, verdict: LineVerdict) -> Result<(), AllocError>
    ensures { OnOk result (out.new.items ≡ out.old.items ++ line (verdict_words verdict)) }
{
    match verdict {
        LineVerdict::Accepted => out.extend_from_slice(b"accepted\n"),
        LineVerdict::Refused(refusal) => add_refusal(out, refusal),
        LineVerdict::MayBeCut => out.extend_from_slice(b"may be cut\n"),
        LineVerdict::Blank => out.extend_from_slice(b"blank\n"),
    }
}

/// A verdict without its offset.
fn verdict_name(verdict: LineVerdict) -> &'static [u8]
    ensures { result.now ≡ verdict_name verdict }
{
    match verdict {
        LineVerdict::Accepted => b"accepted",
        LineVerdict::Refused(Refusal::Stopped { .. }) => b"stopped",
        LineVerdict::Refused(Refusal::Truncated) => b"truncated",
        LineVerdict::Refused(Refusal::TooDeep { .. }) => b"too deep",
        LineVerdict::Refused(Refusal::RepeatedName { .. }) => b"repeated name",
        LineVerdict::MayBeCut => b"may be cut",
        LineVerdict::Blank => b"blank",
    }
}

/// The offset of the place that the verdict on a line is about.
fn offset_of(judged: JudgedLine) -> usize
    ensures { result ≡ offset_of judged }
{
    match judged.verdict {
        LineVerdict::Accepted | LineVerdict::Blank => judged.span.start,
        LineVerdict::Refused(Refusal::Stopped { at }) => at,
        LineVerdict::Refused(Refusal::TooDeep { at }) => at,
        LineVerdict::Refused(Refusal::RepeatedName { at }) => at,
        LineVerdict::Refused(Refusal::Truncated) | LineVerdict::MayBeCut => judged.span.end,
    }
}

/// The byte there, counted from 1 in its line. It is also out of memory where that is no number of a byte.
fn column_of(judged: JudgedLine) -> Result<usize, AllocError>
    ensures { IfOk result (λ column. column ≡ column_of judged) }
{
    let behind = offset_of(judged).saturating_sub(judged.span.start);
    if behind == usize::MAX {
        return Err(AllocError);
    }
    Ok(behind + 1)
}

/// Appends the number of a line and the column of its place, and its verdict.
fn add_mark(out: &mut Vec<u8>, front: &[u8], judged: JudgedLine) -> Result<(), AllocError>
    ensures { OnOk result (out.new.items ≡ out.old.items ++ told_line LineForm.Mark front.now judged) }
{
    let column = column_of(judged)?;
    out.extend_from_slice(front)?;
    add_number(out, judged.number)?;
    out.extend_from_slice(b":")?;
    add_number(out, column)?;
    out.extend_from_slice(b": ")?;
    add_verdict(out, judged.verdict)
}

/// Appends words, and a number.
fn add_count(out: &mut Vec<u8>, words: &[u8], number: usize) -> Result<(), AllocError>
    ensures { OnOk result (out.new.items ≡ out.old.items ++ (words.now ++ decimal number)) }
{
    out.extend_from_slice(words)?;
    add_number(out, number)
}

/// Appends a member's name, and its number.
#[tactic(auto, unfolding(crate::specs::Output::member))]
fn add_member(out: &mut Vec<u8>, name: &[u8], number: usize) -> Result<(), AllocError>
    ensures { OnOk result (out.new.items ≡ out.old.items ++ member name.now number) }
{
    out.extend_from_slice(name)?;
    add_number(out, number)
}

/// Appends the member of a verdict.
#[tactic(auto, unfolding(crate::specs::Output::verdict_member))]
fn add_verdict_member(out: &mut Vec<u8>, verdict: LineVerdict) -> Result<(), AllocError>
    ensures { OnOk result (out.new.items ≡ out.old.items ++ verdict_member verdict) }
{
    out.extend_from_slice(b",\"verdict\":\"")?;
    out.extend_from_slice(verdict_name(verdict))?;
    out.extend_from_slice(b"\"")
}

/// Appends the rest of an object of a line.
fn add_object(out: &mut Vec<u8>, front: &[u8], judged: JudgedLine) -> Result<(), AllocError>
    ensures { OnOk result (out.new.items ≡ out.old.items ++ told_line LineForm.Object front.now judged) }
{
    let column = column_of(judged)?;
    out.extend_from_slice(front)?;
    add_member(out, b"\"line\":", judged.number)?;
    add_member(out, b",\"column\":", column)?;
    add_member(out, b",\"start\":", judged.span.start)?;
    add_member(out, b",\"end\":", judged.span.end)?;
    add_member(out, b",\"offset\":", offset_of(judged))?;
    add_verdict_member(out, judged.verdict)?;
    out.extend_from_slice(b"}\n")
}

/// Appends the report on a line in a form.
pub fn add_line(
    out: &mut Vec<u8>,
    form: LineForm,
    front: &[u8],
    judged: JudgedLine,
) -> Result<(), AllocError>
    ensures { OnOk result (out.new.items ≡ out.old.items ++ told_line form front.now judged) }
{
    match form {
        LineForm::Plain => add_plain(out, front, judged),
        LineForm::Mark => add_mark(out, front, judged),
        LineForm::Object => add_object(out, front, judged),
    }
}

/// Appends how many lines are good and how many bad, in words.
fn add_plain_counts(
    out: &mut Vec<u8>,
    front: &[u8],
    good: usize,
    bad: usize,
) -> Result<(), AllocError>
    ensures { OnOk result (out.new.items ≡ out.old.items ++ total_words LineForm.Plain front.now good bad) }
{
    out.extend_from_slice(front)?;
    add_count(out, b"accepted ", good)?;
    add_count(out, b", refused ", bad)?;
    out.extend_from_slice(b"\n")
}

/// Appends the rest of an object of how many lines are good and how many bad.
fn add_object_counts(
    out: &mut Vec<u8>,
    front: &[u8],
    good: usize,
    bad: usize,
) -> Result<(), AllocError>
    ensures { OnOk result (out.new.items ≡ out.old.items ++ total_words LineForm.Object front.now good bad) }
{
    out.extend_from_slice(front)?;
    add_member(out, b"\"accepted\":", good)?;
    add_member(out, b",\"refused\":", bad)?;
    out.extend_from_slice(b"}\n")
}

/// Appends how many lines are good and how many bad in a form.
pub fn add_counts(
    out: &mut Vec<u8>,
    form: LineForm,
    front: &[u8],
    good: usize,
    bad: usize,
) -> Result<(), AllocError>
    ensures { OnOk result (out.new.items ≡ out.old.items ++ total_words form front.now good bad) }
{
    match form {
        LineForm::Plain => add_plain_counts(out, front, good, bad),
        LineForm::Mark => Ok(()),
        LineForm::Object => add_object_counts(out, front, good, bad),
    }
}

/// Appends the number of a line, its span and its verdict.
fn add_plain(out: &mut Vec<u8>, front: &[u8], judged: JudgedLine) -> Result<(), AllocError>
    ensures { OnOk result (out.new.items ≡ out.old.items ++ told_line LineForm.Plain front.now judged) }
{
    out.extend_from_slice(front)?;
    add_number(out, judged.number)?;
    out.extend_from_slice(b" ")?;
    add_span(out, judged.span)?;
    out.extend_from_slice(b" ")?;
    add_verdict(out, judged.verdict)
}

/// Appends the words for the verdict on an element, and a line feed.
fn add_element_verdict(out: &mut Vec<u8>, verdict: ElementVerdict) -> Result<(), AllocError>
    ensures { OnOk result (out.new.items ≡ out.old.items ++ line (element_words verdict)) }
{
    match verdict {
        ElementVerdict::Accepted => out.extend_from_slice(b"accepted\n"),
        ElementVerdict::Refused(refusal) => add_refusal(out, refusal),
        ElementVerdict::MayBeCut => out.extend_from_slice(b"may be cut\n"),
        ElementVerdict::Unmarked => out.extend_from_slice(b"unmarked\n"),
    }
}

/// Appends the report on an element.
pub fn add_element(
    out: &mut Vec<u8>,
    front: &[u8],
    element: JudgedElement,
) -> Result<(), AllocError>
    ensures { OnOk result (out.new.items ≡ out.old.items ++ element_line front.now element) }
{
    out.extend_from_slice(front)?;
    add_span(out, element.span)?;
    out.extend_from_slice(b" ")?;
    add_element_verdict(out, element.verdict)
}
