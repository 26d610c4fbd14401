// The fault of a text, in a sentence.
ghost use Rattle.std.specs.Prelude.{◌≡◌, ◌++◌, List, Option, Some, ℕ, IfOk, OnOk, drop, length};
ghost use Rattle.std.specs.String.{string_bytes};
ghost use Rattle.jx_summary.specs.declared.span.Span.{Span};
ghost use Rattle.jx_sentence.specs.Places.{place_at};
ghost use Rattle.jx_sentence.specs.Sentences.{IsSentence, IsStanding, bytes_in, ended, offset_of, used};
ghost use Rattle.jx_sentence.specs.declared.standing.Standing.{Standing};

use crate::earlier_name::earlier_name;
use crate::place::{Place, place_of};
use crate::sentence::{
    is_in_string, push_repeated, push_stopped, push_string_open, push_too_deep, push_truncated,
};
use crate::standing::{Standing, standing_behind};
use jx_index::read_rows;
use jx_lex::Span;
use jx_run::{Front, NameRule, Refusal, Settings, front};
use std::alloc::{AllocError, Global};

/// The offset of the place that a refusal is about.
pub fn offset_of(text: &[u8], refusal: Refusal) -> usize
    ensures { result ≡ offset_of text.now refusal }
{
    match refusal {
        Refusal::Stopped { at } => at,
        Refusal::TooDeep { at } => at,
        Refusal::RepeatedName { at } => at,
        Refusal::Truncated => text.len(),
    }
}

/// The standing of a reading of a text before an offset, by settings; none just where it stands nowhere: in a byte order mark, or behind a fault.
pub fn standing_before(
    alloc: Global,
    text: &[u8],
    at: usize,
    settings: &Settings,
) -> Result<Option<Standing>, AllocError>
    ensures { IfOk result (IsStanding settings.now text.now at) }
{
    let Front::Skip(from) = front(text, settings.mark) else {
        return Ok(None);
    };
    if from > at || at > text.len() {
        return Ok(None);
    }
    standing_behind(alloc, text, from, at, settings.depth)
}

/// Where the name stands that is the same as the one that begins at an offset, in a text whose names may be repeated.
fn name_before(
    alloc: Global,
    text: &[u8],
    at: usize,
    settings: &Settings,
) -> Result<Option<Span>, AllocError> {
    let any = Settings {
        depth: settings.depth,
        mark: settings.mark,
        names: NameRule::Any,
    };
    match read_rows(alloc, text, &any)? {
        Ok(rows) => Ok(earlier_name(text, &rows, at)),
        Err(_) => Ok(None),
    }
}

/// Where the byte at an offset stands; the end of the text for an offset behind it.
#[tactic(auto, using(std::proofs::lemmas::List::take_min))]
fn place_in(text: &[u8], at: usize) -> Place
    ensures { result ≡ place_at text.now at }
{
    place_of(text, at.min(text.len()))
}

/// The bytes of a span; none where the text does not have it.
fn bytes_in(text: &[u8], span: Span) -> &[u8]
    ensures { result.now ≡ bytes_in text.now span }
{
    if span.start <= span.end && span.end <= text.len() {
        &text[span.start..span.end]
    } else {
        &[]
    }
}

/// The bytes from an offset on.
#[tactic(auto, using(std::proofs::lemmas::List::drop_min))]
fn rest_from(text: &[u8], at: usize) -> &[u8]
    ensures { result.now ≡ drop at text.now }
{
    &text[at.min(text.len())..]
}

/// Appends the sentence for a name that was used before, if it is known where.
#[tactic(auto, unfolding(crate::specs::Sentences::used))]
fn push_used(out: &mut String, text: &[u8], name: Option<Span>) -> Result<(), AllocError>
    ensures { OnOk result (string_bytes out.new ≡ string_bytes out.old ++ used text.now name) }
{
    match name {
        None => push_repeated(out, &[], None),
        Some(span) => push_repeated(out, bytes_in(text, span), Some(place_in(text, span.start))),
    }
}

/// Appends the sentence for a text that ends too early, by where the reading stands at its end.
#[tactic(auto, unfolding(crate::specs::Sentences::ended))]
fn push_ended(out: &mut String, text: &[u8], standing: &Standing) -> Result<(), AllocError>
    ensures { OnOk result (string_bytes out.new ≡ string_bytes out.old ++ ended text.now (Some standing.now)) }
{
    if is_in_string(standing.state) {
        push_string_open(out, Some(place_in(text, standing.token)))
    } else {
        push_truncated(out, Some(standing))
    }
}

/// Appends the sentence for a text that ends too early.
#[tactic(auto, unfolding(crate::specs::Sentences::ended))]
fn push_end(
    alloc: Global,
    out: &mut String,
    text: &[u8],
    settings: &Settings,
) -> Result<(), AllocError>
    ensures { OnOk result ((s : Option Standing) × (IsStanding settings.now text.now (length text.now) s × (string_bytes out.new ≡ string_bytes out.old ++ ended text.now s))) }
{
    match standing_before(alloc, text, text.len(), settings)? {
        None => push_truncated(out, None),
        Some(standing) => push_ended(out, text, &standing),
    }
}

/// Appends what is wrong with a text that is refused by settings, in a sentence.
pub fn push_sentence(
    alloc: Global,
    out: &mut String,
    text: &[u8],
    refusal: Refusal,
    settings: &Settings,
) -> Result<(), AllocError>
    ensures { OnOk result ((said : List ℕ) × (IsSentence settings.now text.now refusal said × (string_bytes out.new ≡ string_bytes out.old ++ said))) }
{
    match refusal {
        Refusal::Stopped { at } => {
            let standing = standing_before(alloc, text, at, settings)?;
            push_stopped(out, rest_from(text, at), at, standing.as_ref())
        }
        Refusal::Truncated => push_end(alloc, out, text, settings),
        Refusal::TooDeep { .. } => push_too_deep(out, settings.depth),
        Refusal::RepeatedName { at } => {
            let name = name_before(alloc, text, at, settings)?;
            push_used(out, text, name)
        }
    }
}
