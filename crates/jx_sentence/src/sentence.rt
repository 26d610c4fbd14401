// The fault at a place, in a sentence.
ghost use Rattle.std.specs.Prelude.{◌≡◌, ◌+◌, ◌<◌, ◌^◌, ◌++◌, OnOk, MatchOption, None, Some, length, option_copied};
ghost use Rattle.std.specs.String.{string_bytes};
ghost use Rattle.jx_sentence.specs.Words.{begins_with_mark, comma_after, found, is_in_string, listed_before, literal_of, mistake_of, name_of, named_at, names_of, place_words, repeated, separator, stopped, string_open, too_deep, truncated};

use crate::choice::Choice;
use crate::place::Place;
use crate::shown::{first_size, push_shown};
use crate::standing::{Standing, choices_at};
use jx_lex::{Depth, LexState};
use std::alloc::AllocError;
use std::fmt::Write;

/// The words for a choice at a place; none for white space, which is not named.
#[tactic(auto, unfolding(crate::specs::Words::name_of))]
fn name_of(choice: Choice) -> Option<&'static str>
    ensures { option_copied result ≡ name_of choice }
{
    match choice {
        Choice::Blank => None,
        Choice::Value => Some("a value"),
        Choice::Name => Some("a string"),
        Choice::Colon => Some("a colon"),
        Choice::Comma => Some("a comma"),
        Choice::ArrayEnd => Some("]"),
        Choice::ObjectEnd => Some("}"),
        Choice::Digit => Some("a digit"),
        Choice::Point => Some("a decimal point"),
        Choice::Exponent => Some("an exponent"),
        Choice::Sign => Some("a sign"),
        Choice::Character => Some("a character in UTF-8"),
        Choice::Escape => Some("one of \" \\ / b f n r t u"),
        Choice::HexDigit => Some("a hexadecimal digit"),
        Choice::Tail => Some("a byte from 80 to BF"),
        Choice::Tail80To8F => Some("a byte from 80 to 8F"),
        Choice::Tail80To9F => Some("a byte from 80 to 9F"),
        Choice::Tail90ToBF => Some("a byte from 90 to BF"),
        Choice::TailA0ToBF => Some("a byte from A0 to BF"),
        Choice::A => Some("a"),
        Choice::E => Some("e"),
        Choice::L => Some("l"),
        Choice::R => Some("r"),
        Choice::S => Some("s"),
        Choice::U => Some("u"),
    }
}

/// The literal that a state of the lexical machine has begun, with the words in front of it; nothing where none is begun.
#[tactic(auto, unfolding(crate::specs::Words::literal_of))]
fn literal_of(state: LexState) -> &'static str
    ensures { result.now ≡ literal_of state }
{
    match state {
        LexState::T | LexState::Tr | LexState::Tru => ", as in true",
        LexState::F | LexState::Fa | LexState::Fal | LexState::Fals => ", as in false",
        LexState::N | LexState::Nu | LexState::Nul => ", as in null",
        _ => "",
    }
}

/// The separator after a name that so many follow.
#[tactic(auto, unfolding(crate::specs::Words::separator))]
fn separator(left: usize) -> &'static str
    ensures { result.now ≡ separator left }
{
    match left {
        0 => "",
        1 => " or ",
        _ => ", ",
    }
}

/// How many of them are named.
fn count(choices: &[Choice]) -> usize
    ensures { result ≡ length (names_of choices.now) }
{
    let mut count = 0;
    for choice in choices {
        if name_of(*choice).is_some() {
            count += 1;
        }
    }
    count
}

/// Appends the names of choices, which so many names follow.
fn push_names(out: &mut String, choices: &[Choice], after: usize) -> Result<(), AllocError>
    requires { length choices.now + after < 2 ^ 64 }
    ensures { OnOk result (string_bytes out.new ≡ string_bytes out.old ++ listed_before after (names_of choices.now)) }
{
    let mut left = count(choices) + after;
    for choice in choices {
        match name_of(*choice) {
            None => {}
            Some(name) => {
                left -= 1;
                out.push_str(name)?;
                out.push_str(separator(left))?;
            }
        }
    }
    Ok(())
}

/// Appends what may stand where a reading stands: `A, B or C`, or that the text has to end.
#[tactic(auto, unfolding(crate::specs::Words::named_at))]
fn push_choices(out: &mut String, standing: &Standing) -> Result<(), AllocError>
    ensures { OnOk result (string_bytes out.new ≡ string_bytes out.old ++ named_at standing.now) }
{
    let choices = choices_at(standing);
    let between = count(choices.between);
    if between == 0 && count(choices.inside) == 0 {
        return out.push_str("the end of the text");
    }
    push_names(out, choices.inside, between)?;
    push_names(out, choices.between, 0)
}

/// Appends what bytes begin with.
#[tactic(auto, unfolding(crate::specs::Words::found))]
fn push_found(out: &mut String, rest: &[u8]) -> Result<(), AllocError>
    ensures { OnOk result (string_bytes out.new ≡ string_bytes out.old ++ found rest.now) }
{
    match rest.first() {
        None => out.push_str("the end of the text"),
        Some(b'\n') => out.push_str("the end of the line"),
        Some(b'\r') => out.push_str("a carriage return"),
        Some(b'\t') => out.push_str("a tab"),
        Some(b' ') => out.push_str("a space"),
        Some(b',') => out.push_str("a comma"),
        Some(b':') => out.push_str("a colon"),
        Some(b'.') => out.push_str("a point"),
        Some(_) => push_shown(out, &rest[..first_size(rest)]),
    }
}

/// The sentence for what stands at some places, where it says more than what could stand there.
#[tactic(auto, unfolding(crate::specs::Words::mistake_of))]
fn mistake_of(state: LexState, byte: u8) -> Option<&'static str>
    ensures { MatchOption result (mistake_of state byte ≡ None) (λ words. mistake_of state byte ≡ Some words.now) }
{
    match state {
        LexState::Str => {
            if byte < 0x20 {
                Some("a control character in a string must be escaped")
            } else {
                None
            }
        }
        LexState::Zero => {
            if byte.is_ascii_digit() {
                Some("no digit may follow a 0 that begins a number")
            } else {
                None
            }
        }
        _ => None,
    }
}

/// Whether bytes begin with a byte order mark.
#[tactic(auto, unfolding(crate::specs::Words::begins_with_mark))]
fn begins_with_mark(bytes: &[u8]) -> bool
    ensures { result ≡ begins_with_mark bytes.now }
{
    matches!(bytes, [0xef, 0xbb, 0xbf, ..])
}

/// Appends the sentence for a text that stopped at an offset where the first of these bytes stands, by where the
/// reading stood there; where it stood nowhere, a byte order mark was begun. The first character of the bytes is
/// reported.
#[tactic(auto, unfolding(crate::specs::Words::stopped))]
pub fn push_stopped(
    out: &mut String,
    rest: &[u8],
    at: usize,
    standing: Option<&Standing>,
) -> Result<(), AllocError>
    ensures { OnOk result (string_bytes out.new ≡ string_bytes out.old ++ stopped rest.now at (option_copied standing.entry)) }
{
    let Some(standing) = standing else {
        return out.push_str("a byte order mark is begun and not ended");
    };
    if at == 0 && begins_with_mark(rest) {
        return out.push_str("a byte order mark stands in front of the text");
    }
    let byte = rest.first().copied().unwrap_or(b' ');
    if let Some(sentence) = mistake_of(standing.state, byte) {
        return out.push_str(sentence);
    }
    out.push_str("expected ")?;
    push_choices(out, standing)?;
    out.push_str(literal_of(standing.state))?;
    out.push_str(", found ")?;
    push_found(out, rest)
}

/// Whether a state of the lexical machine is inside a string.
#[tactic(auto, unfolding(crate::specs::Words::is_in_string))]
pub fn is_in_string(state: LexState) -> bool
    ensures { result ≡ is_in_string state }
{
    match state {
        LexState::Str | LexState::Esc => true,
        LexState::Hex4 | LexState::Hex3 | LexState::Hex2 | LexState::Hex1 => true,
        LexState::Tail1 | LexState::Tail2 | LexState::Tail3 => true,
        LexState::AfterE0 | LexState::AfterEd | LexState::AfterF0 | LexState::AfterF4 => true,
        _ => false,
    }
}

/// Appends where something stands.
#[tactic(auto, unfolding(crate::specs::Words::place_words))]
fn push_place(out: &mut String, place: Place) -> Result<(), AllocError>
    ensures { OnOk result (string_bytes out.new ≡ string_bytes out.old ++ place_words place) }
{
    let Place { line, column } = place;
    write!(out, " at line {line}, column {column}")
}

/// Appends the sentence for a text that ends inside a string, by where the string began, if that is known.
#[tactic(auto, unfolding(crate::specs::Words::string_open))]
pub fn push_string_open(out: &mut String, began: Option<Place>) -> Result<(), AllocError>
    ensures { OnOk result (string_bytes out.new ≡ string_bytes out.old ++ string_open began) }
{
    match began {
        None => out.push_str("the text ends inside a string"),
        Some(place) => {
            out.push_str("the text ends inside a string that began")?;
            push_place(out, place)
        }
    }
}

/// The comma that ends words that are put in, if there are any.
#[tactic(auto, unfolding(crate::specs::Words::comma_after))]
fn comma_after(words: &str) -> &'static str
    ensures { result.now ≡ comma_after words.now }
{
    if words.is_empty() { "" } else { "," }
}

/// Appends the sentence for a text that ends too early, but inside no string, by where the reading stood at its end.
#[tactic(auto, unfolding(crate::specs::Words::truncated))]
pub fn push_truncated(out: &mut String, standing: Option<&Standing>) -> Result<(), AllocError>
    ensures { OnOk result (string_bytes out.new ≡ string_bytes out.old ++ truncated (option_copied standing.entry)) }
{
    let Some(standing) = standing else {
        return out.push_str("the text ends inside a byte order mark");
    };
    out.push_str("the text ends where ")?;
    push_choices(out, standing)?;
    let literal = literal_of(standing.state);
    out.push_str(literal)?;
    out.push_str(comma_after(literal))?;
    out.push_str(" is expected")
}

/// Appends the sentence for a text that opens more containers than a depth allows.
#[tactic(auto, unfolding(crate::specs::Words::too_deep))]
pub fn push_too_deep(out: &mut String, depth: Depth) -> Result<(), AllocError>
    ensures { OnOk result (string_bytes out.new ≡ string_bytes out.old ++ too_deep depth) }
{
    let most = depth.containers();
    write!(out, "more than {most} containers open")
}

/// Appends the sentence for a name that was used before, which stands at these bytes.
#[tactic(auto, unfolding(crate::specs::Words::repeated))]
pub fn push_repeated(
    out: &mut String,
    name: &[u8],
    earlier: Option<Place>,
) -> Result<(), AllocError>
    ensures { OnOk result (string_bytes out.new ≡ string_bytes out.old ++ repeated name.now earlier) }
{
    out.push_str("the name ")?;
    push_shown(out, name)?;
    match earlier {
        None => out.push_str(" was used before"),
        Some(place) => {
            out.push_str(" was used")?;
            push_place(out, place)
        }
    }
}
