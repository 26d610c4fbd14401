// The words of the output. They go into room that was taken beforehand, so that none of them takes memory.
ghost use Rattle.std.specs.Prelude.{◌≡◌, ◌+◌, ◌≤◌, [], ◌∷◌, ◌++◌, decimal, length};
ghost use Rattle.jx_words.specs.inside.Room.{HasRoom, TakesRoom};
ghost use Rattle.jx_words.specs.Words.{refusal_words, kind_words, span_words};

use itoa::Buffer;
use jx_lex::{Kind, Span};
use jx_run::Refusal;

/// Appends bytes where there is room for them.
pub fn push_bytes(out: &mut Vec<u8>, bytes: &[u8])
    requires { HasRoom out.old (length bytes.now) }
    ensures words { out.new.items ≡ out.old.items ++ bytes.now }
    ensures room { TakesRoom out.old out.new (length bytes.now) }
{
    if out.extend_from_slice(bytes).is_err() {
        unreachable!();
    }
}

/// Appends a byte where there is room for it.
pub fn push_byte(out: &mut Vec<u8>, byte: u8)
    requires { HasRoom out.old 1 }
    ensures words { out.new.items ≡ out.old.items ++ (byte ∷ []) }
    ensures room { TakesRoom out.old out.new 1 }
{
    if out.push(byte).is_err() {
        unreachable!();
    }
}

/// Appends a number in plain decimal, at most 20 digits.
pub fn push_number(out: &mut Vec<u8>, number: usize)
    requires { HasRoom out.old 20 }
    ensures words { out.new.items ≡ out.old.items ++ decimal number }
    ensures room { TakesRoom out.old out.new 20 }
{
    // The place of a value among its siblings is mostly below ten.
    if number < 10 {
        push_byte(out, b'0' + number as u8);
        return;
    }
    let mut buffer = Buffer::new();
    push_bytes(out, buffer.format(number).as_bytes());
}

/// Appends words, and a number after them.
pub fn push_numbered(out: &mut Vec<u8>, words: &[u8], number: usize)
    requires { HasRoom out.old (length words.now + 20) }
    ensures words { out.new.items ≡ out.old.items ++ (words.now ++ decimal number) }
    ensures room { TakesRoom out.old out.new (length words.now + 20) }
{
    push_bytes(out, words);
    push_number(out, number);
}

/// Appends the words for a refusal; its offset is in the whole input.
pub fn push_refusal(out: &mut Vec<u8>, refusal: Refusal)
    requires { HasRoom out.old 37 }
    ensures words { out.new.items ≡ out.old.items ++ refusal_words refusal }
    ensures room { TakesRoom out.old out.new 37 }
{
    match refusal {
        Refusal::Stopped { at } => push_numbered(out, b"stopped at ", at),
        Refusal::Truncated => push_bytes(out, b"truncated"),
        Refusal::TooDeep { at } => push_numbered(out, b"too deep at ", at),
        Refusal::RepeatedName { at } => push_numbered(out, b"repeated name at ", at),
    }
}

/// The word that is written for a kind.
fn word_of_kind(kind: Kind) -> &'static str
    ensures word { result.now ≡ kind_words kind }
    ensures short { length result.now ≤ 6 }
{
    match kind {
        Kind::Object => "object",
        Kind::Array => "array",
        Kind::String => "string",
        Kind::Number => "number",
        Kind::True => "true",
        Kind::False => "false",
        Kind::Null => "null",
    }
}

/// Appends the word for a kind.
pub fn push_kind(out: &mut Vec<u8>, kind: Kind)
    requires { HasRoom out.old 6 }
    ensures words { out.new.items ≡ out.old.items ++ kind_words kind }
    ensures room { TakesRoom out.old out.new 6 }
{
    push_bytes(out, word_of_kind(kind).as_bytes());
}

/// Appends a span, as `S..E`.
pub fn push_span(out: &mut Vec<u8>, span: Span)
    requires { HasRoom out.old 42 }
    ensures words { out.new.items ≡ out.old.items ++ span_words span }
    ensures room { TakesRoom out.old out.new 42 }
{
    push_number(out, span.start);
    push_numbered(out, b"..", span.end);
}
