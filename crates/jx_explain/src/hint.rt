// Guesses at the cause of a fault.
use crate::scene::Scene;
use jx_lex::LexState;
use jx_reduce::{Expect, Holder};
use jx_sentence::Standing;
use memchr::memrchr;

/// Beginnings of bytes that are not valid JSON, and the report on each.
const FRONTS: [(&[u8], &str); 6] = [
    (
        b"\xEF\xBB\xBF",
        "a byte order mark, which --ignore-bom ignores",
    ),
    (b"\xFF\xFE", "UTF-16, where JSON has UTF-8"),
    (b"\xFE\xFF", "UTF-16, where JSON has UTF-8"),
    (b"\x1F\x8B", "what gzip has packed"),
    (b"\x28\xB5\x2F\xFD", "what zstd has packed"),
    (b"\x1E", "a text sequence, which jx seq reads"),
];

/// A byte order mark.
const MARK: &[u8] = b"\xEF\xBB\xBF";

/// Quotation marks of letters: each is a character of three bytes.
const CURLY: [&[u8]; 4] = [
    b"\xE2\x80\x98",
    b"\xE2\x80\x99",
    b"\xE2\x80\x9C",
    b"\xE2\x80\x9D",
];

/// The literals of JSON.
const LITERALS: [&[u8]; 3] = [b"true", b"false", b"null"];

/// A word that stands for a value elsewhere, and the report on it.
const WORDS: [(&[u8], &str); 14] = [
    (b"NaN", "NaN, which JSON has not"),
    (b"nan", "NaN, which JSON has not"),
    (b"-NaN", "NaN, which JSON has not"),
    (b"Infinity", "Infinity, which JSON has not"),
    (b"-Infinity", "Infinity, which JSON has not"),
    (b"undefined", "undefined, which JSON has not"),
    (b"True", "true, in small letters"),
    (b"TRUE", "true, in small letters"),
    (b"False", "false, in small letters"),
    (b"FALSE", "false, in small letters"),
    (b"NULL", "null, in small letters"),
    (b"Null", "null, in small letters"),
    (b"None", "null, which is None elsewhere"),
    (b"nil", "null, which is nil elsewhere"),
];

/// Whether the bytes begin with a word, and no letter or digit goes on with it.
fn begins_with_word(bytes: &[u8], word: &[u8]) -> bool {
    let next = bytes.get(word.len()).copied().unwrap_or(b' ');
    bytes.starts_with(word) && !next.is_ascii_alphanumeric()
}

/// The report on the word that the bytes begin with, if it is one of those.
fn hint_of_word(bytes: &[u8]) -> Option<&'static str> {
    let mut found = None;
    for (word, hint) in &WORDS {
        if begins_with_word(bytes, *word) {
            found = Some(*hint);
        }
    }
    found
}

/// A guess at what a text is that stopped at its first two bytes.
fn hint_of_front(text: &[u8]) -> Option<&'static str> {
    match (text.first(), text.get(1)) {
        (Some(0), Some(1..)) | (Some(1..), Some(0)) => Some("UTF-16, where JSON has UTF-8"),
        _ => {
            let found = FRONTS.iter().find(|front| text.starts_with(front.0));
            found.map(|front| front.1)
        }
    }
}

/// Whether the bytes begin with one of these.
fn begins_with_one(bytes: &[u8], fronts: &[&[u8]]) -> bool {
    fronts.iter().any(|front| bytes.starts_with(*front))
}

/// Whether the bytes begin with a literal.
fn begins_with_literal(bytes: &[u8]) -> bool {
    LITERALS.iter().any(|word| begins_with_word(bytes, *word))
}

/// Whether a value may stand next.
fn wants_value(expect: Expect) -> bool {
    matches!(expect, Expect::Value | Expect::ArrayFirst)
}

/// Whether a name may stand next.
fn wants_name(expect: Expect) -> bool {
    matches!(expect, Expect::Name | Expect::ObjectFirst)
}

/// Whether a comma is before this, where a value or a name has to follow.
fn is_behind_comma(standing: &Standing) -> bool {
    match standing.expect {
        Expect::Name => true,
        Expect::Value => standing.top == Holder::Array,
        _ => false,
    }
}

/// Whether nothing but white space is before a place in its line, as far as it is known, and a line before that.
fn begins_line(scene: &Scene) -> bool {
    let before = scene.before();
    let line = match memrchr(b'\n', before) {
        Some(feed) => before.get(feed + 1..).unwrap_or(&[]),
        None => before,
    };
    scene.position.place.line > 1 && line.iter().all(|byte| matches!(byte, b' ' | b'\t' | b'\r'))
}

/// A guess at the first byte of a value or a name after a value, where it may not stand.
fn hint_behind_value(scene: &Scene, standing: &Standing) -> Option<&'static str> {
    if standing.expect != Expect::After {
        return None;
    }
    match standing.top {
        Holder::Bottom if begins_line(scene) => {
            Some("a second text: in JSON Lines each line is one")
        }
        Holder::Bottom => Some("a second text right behind the first"),
        Holder::Array | Holder::Object => Some("a comma is missing"),
    }
}

/// Whether a place is after a string in a container, with nothing but white space between them.
fn is_behind_string(scene: &Scene, standing: &Standing) -> bool {
    matches!(standing.expect, Expect::After | Expect::Colon)
        && standing.top != Holder::Bottom
        && scene.token_byte == Some(b'"')
}

/// Whether bytes after a string, of which the last byte is given, go on as its characters would.
fn goes_on(last: Option<u8>, rest: &[u8]) -> bool {
    match rest.first() {
        Some(b'A'..=b'Z' | b'a'..=b'z') => !begins_with_literal(rest),
        Some(b'0'..=b'9' | b'-' | b'_' | b'\\' | 0x80..=0xff) => last == Some(b'"'),
        _ => false,
    }
}

/// A guess at a byte order mark after a text.
fn hint_of_mark(rest: &[u8], standing: &Standing) -> Option<&'static str> {
    let is_joined = standing.expect == Expect::After
        && standing.top == Holder::Bottom
        && rest.starts_with(MARK);
    if is_joined {
        Some("a byte order mark between two texts")
    } else {
        None
    }
}

/// A guess at a byte between tokens, where it is no letter after a string.
fn hint_between(scene: &Scene, standing: &Standing, byte: u8) -> Option<&'static str> {
    let expect = standing.expect;
    match byte {
        b'/' | b'#' => Some("a comment, which JSON has not"),
        b'\'' if wants_value(expect) || wants_name(expect) => {
            Some("single quotes, where JSON has double ones")
        }
        b']' | b'}' | b',' if is_behind_comma(standing) => Some("a comma too many"),
        b'A'..=b'Z' | b'a'..=b'z' | b'_' | b'$' if wants_name(expect) => {
            Some("a name without quotation marks")
        }
        b'<' if standing.top == Holder::Bottom && wants_value(expect) => {
            Some("HTML or XML, where JSON is due")
        }
        b'{' | b'[' | b'"' | b'-' | b'0'..=b'9' | b't' | b'f' | b'n' => {
            hint_behind_value(scene, standing)
        }
        0xef => hint_of_mark(scene.rest(), standing),
        _ => None,
    }
}

/// A guess at the bytes between tokens at a place.
fn hint_in_gap(scene: &Scene, standing: &Standing) -> Option<&'static str> {
    let rest = scene.rest();
    let byte = *rest.first()?;
    let last = scene.before().last().copied();
    let expect = standing.expect;
    match hint_of_word(rest) {
        Some(hint) if wants_value(expect) => Some(hint),
        _ if begins_with_one(rest, &CURLY) && (wants_value(expect) || wants_name(expect)) => {
            Some("quotation marks of letters, where JSON has \"")
        }
        _ if is_behind_string(scene, standing) && goes_on(last, rest) => {
            Some("a quotation mark is missing, or one is not escaped")
        }
        _ => hint_between(scene, standing, byte),
    }
}

/// A guess at the bytes at a place, by where the reading stands there.
pub fn hint_at(scene: &Scene) -> Option<&'static str> {
    let standing = scene.standing.as_ref()?;
    let front = if scene.at < 2 {
        hint_of_front(&scene.near)
    } else {
        None
    };
    if front.is_some() {
        return front;
    }
    let next = scene.rest().first();
    match standing.state {
        LexState::Gap => hint_in_gap(scene, standing),
        LexState::Str if matches!(next, Some(b'\n' | b'\r')) => {
            Some("a string without its closing quotation mark")
        }
        LexState::Zero if matches!(next, Some(b'x' | b'X')) => {
            Some("a hexadecimal number, which JSON has not")
        }
        _ => hint_of_word(scene.from_token(standing)),
    }
}
