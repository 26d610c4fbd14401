// The character or escape at the front of a string's bytes (RFC 8259, section 7).
ghost use Rattle.std.specs.Prelude.{◌≡◌, ◌<◌, ◌∷◌, [], slice_index, drop, IfSome};
ghost use Rattle.std.specs.Char.{digit_value};
ghost use Rattle.std.specs.Char.Escape.{encode_utf16};
ghost use Rattle.jx_lex.specs.Character.{tail_bits};
ghost use Rattle.jx_index.specs.declared.units.Spelling.TheVariants.{InText, InToken};
ghost use Rattle.jx_index.specs.Units.{char_at, tails_of, char_units, char_more, escape_units};
ghost use Rattle.jx_string.specs.inside.Pairs.{units_in};

/// One unit or two, and how many bytes encode them after the first one.
#[derive(Clone, Copy, Debug)]
pub(crate) struct Spelt {
    pub(crate) first: u32,
    pub(crate) second: Option<u32>,
    pub(crate) more: usize,
}

/// The byte there, or 0 past the end.
fn byte_at(bytes: &[u8], at: usize) -> u8
    ensures { result ≡ slice_index bytes.now at }
{
    match bytes.get(at) {
        Some(byte) => *byte,
        None => 0,
    }
}

/// The bytes after the first `count`.
pub(crate) fn behind(bytes: &[u8], count: usize) -> &[u8]
    ensures { result.now ≡ drop count bytes.now }
{
    if count < bytes.len() {
        &bytes[count..]
    } else {
        &[]
    }
}

/// The payload of a byte that follows the first one of a character.
fn tail(byte: u8) -> u32
    ensures value { result ≡ tail_bits byte }
    ensures small { result < 128 }
{
    u32::from(byte.saturating_sub(0x80))
}

/// The number of the character that begins with the byte `first`, where `rest` follows it.
fn character_at(first: u8, rest: &[u8]) -> u32
    ensures value { result ≡ char_at first rest.now }
    ensures small { result < 0x50_0000 }
{
    let lead = u32::from(first);
    let one = tail(byte_at(rest, 0));
    if first < 0x80 {
        return lead;
    }
    if first < 0xe0 {
        return lead.saturating_sub(0xc0) * 64 + one;
    }
    let two = tail(byte_at(rest, 1));
    if first < 0xf0 {
        return (lead - 0xe0) * 4096 + (one * 64 + two);
    }
    let three = tail(byte_at(rest, 2));
    (lead - 0xf0) * 262144 + (one * 4096 + (two * 64 + three))
}

/// How many bytes follow the first one of a character.
fn tail_count(first: u8) -> usize
    ensures { result ≡ tails_of first }
{
    match first {
        0x00..=0x7f => 0,
        0x80..=0xdf => 1,
        0xe0..=0xef => 2,
        0xf0..=0xff => 3,
    }
}

/// A character that stands for itself.
fn spelt_itself(first: u8, rest: &[u8]) -> Spelt
    ensures units { units_in result ≡ encode_utf16 (char_at first rest.now) }
    ensures more { result.more ≡ tails_of first }
    ensures first { result.first < 0x11_0000 }
    ensures second { IfSome result.second (λ unit. unit < 0x11_0000) }
{
    let character = character_at(first, rest);
    let more = tail_count(first);
    if character < 0x1_0000 {
        return Spelt {
            first: character,
            second: None,
            more,
        };
    }
    let over = character - 0x1_0000;
    Spelt {
        first: 0xd800 + over / 0x400,
        second: Some(0xdc00 + over % 0x400),
        more,
    }
}

/// The value of a hexadecimal digit, or more than 15.
fn hex_digit(byte: u8) -> u32
    ensures value { result ≡ digit_value byte }
    ensures small { result < 37 }
{
    let digit = u32::from(byte);
    match byte {
        b'0'..=b'9' => digit - 48,
        b'A'..=b'Z' => digit - 55,
        b'a'..=b'z' => digit - 87,
        _ => 36,
    }
}

/// The unit of an escape, where `rest` follows its backslash.
fn escaped_unit(rest: &[u8]) -> u32
    ensures unit { result ∷ [] ≡ escape_units rest.now }
    ensures small { result < 0x11_0000 }
{
    match byte_at(rest, 0) {
        b'u' => {
            hex_digit(byte_at(rest, 1)) * 4096
                + hex_digit(byte_at(rest, 2)) * 256
                + hex_digit(byte_at(rest, 3)) * 16
                + hex_digit(byte_at(rest, 4))
        }
        b'b' => 0x08,
        b'f' => 0x0c,
        b'n' => 0x0a,
        b'r' => 0x0d,
        b't' => 0x09,
        other => u32::from(other),
    }
}

/// The character or escape at the front of a string's bytes.
pub(crate) fn spelt_at(first: u8, rest: &[u8]) -> Spelt
    ensures units { units_in result ≡ char_units InText first rest.now }
    ensures more { result.more ≡ char_more InText first rest.now }
    ensures first { result.first < 0x11_0000 }
    ensures second { IfSome result.second (λ unit. unit < 0x11_0000) }
{
    if first != b'\\' {
        return spelt_itself(first, rest);
    }
    Spelt {
        first: escaped_unit(rest),
        second: None,
        more: if byte_at(rest, 0) == b'u' { 5 } else { 1 },
    }
}

/// The character at the front of the bytes of a pointer's token, or `~` with the digit after it.
pub(crate) fn token_spelt_at(first: u8, rest: &[u8]) -> Spelt
    ensures units { units_in result ≡ char_units InToken first rest.now }
    ensures more { result.more ≡ char_more InToken first rest.now }
{
    if first != b'~' {
        return spelt_itself(first, rest);
    }
    Spelt {
        first: if byte_at(rest, 0) == b'0' { 0x7e } else { 0x2f },
        second: None,
        more: 1,
    }
}
