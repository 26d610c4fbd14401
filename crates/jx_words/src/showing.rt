// Names of files as messages show them: each is a word of one line, and can be read back.
ghost use Rattle.std.specs.Prelude.{◌≡◌, ◌&&◌, ◌<◌, ◌==◌, false, is_err, IfErr, IfOk, OnOk};
ghost use Rattle.std.specs.Char.{encode_utf8};
ghost use Rattle.std.specs.Io.KnownBytes.{Appends};
ghost use Rattle.jx_words.specs.Showing.{escaped, hex_digit, is_hidden, shown, shown_byte, shown_character};

use jx_ends::{End, ReportFault, Sink, write_whole};
use std::alloc::{AllocError, Global};

/// Whether a character is shown by its bytes: a backslash, and what a terminal does not print but obeys.
fn is_hidden(character: char) -> bool
    ensures { result ≡ is_hidden character }
{
    let code = character as u32;
    code < 0x20
        || code == 0x5c
        || (0x7f <= code && code < 0xa0)
        || (0x2028 <= code && code < 0x202f)
        || (0x2066 <= code && code < 0x206a)
}

/// A hexadecimal digit.
fn hex_digit(value: u8) -> u8
    requires { value < 16 }
    ensures { result ≡ hex_digit value }
{
    if value < 10 {
        b'0' + value
    } else {
        b'A' + (value - 10)
    }
}

/// A byte as `\xHH`.
fn shown_byte(byte: u8) -> [u8; 4]
    ensures { result ≡ shown_byte byte }
{
    [b'\\', b'x', hex_digit(byte / 16), hex_digit(byte % 16)]
}

/// Writes each of these bytes as `\xHH`.
fn write_escaped<E: Sink>(sink: &mut E, bytes: &[u8]) -> Result<(), ReportFault>
    requires { E.has_failed sink.old ≡ false }
    ensures ok { OnOk result (Appends (E.contents sink.old) (E.contents sink.new) (escaped bytes.now)) }
    ensures fault { IfErr result (λ fault. fault ≡ ReportFault.Write) }
    ensures failed { E.has_failed sink.new ≡ is_err result }
{
    for byte in bytes {
        write_whole(sink, &shown_byte(*byte))?;
    }
    Ok(())
}

/// Writes a character of a name, which may follow a colon.
fn write_character<E: Sink>(
    sink: &mut E,
    is_behind_colon: bool,
    character: char,
) -> Result<(), ReportFault>
    requires { E.has_failed sink.old ≡ false }
    ensures ok { OnOk result (Appends (E.contents sink.old) (E.contents sink.new) (shown_character is_behind_colon character)) }
    ensures fault { IfErr result (λ fault. fault ≡ ReportFault.Write) }
    ensures failed { E.has_failed sink.new ≡ is_err result }
{
    if character == '\0' {
        return write_whole(sink, b"\\x");
    }
    let mut room = [0u8; 4];
    let bytes = character.encode_utf8(&mut room).as_bytes();
    if is_hidden(character) || (is_behind_colon && character == ' ') {
        write_escaped(sink, bytes)
    } else {
        write_whole(sink, bytes)
    }
}

/// Writes a name as it is shown.
pub fn write_shown<E: Sink>(sink: &mut E, name: &str) -> Result<(), ReportFault>
    requires { E.has_failed sink.old ≡ false }
    ensures ok { OnOk result (Appends (E.contents sink.old) (E.contents sink.new) (shown name.now)) }
    ensures fault { IfErr result (λ fault. fault ≡ ReportFault.Write) }
    ensures failed { E.has_failed sink.new ≡ is_err result }
{
    let mut is_behind_colon = false;
    for character in name.chars() {
        write_character(sink, is_behind_colon, character)?;
        is_behind_colon = character == ':';
    }
    Ok(())
}

/// A name as it is shown: a character that a terminal obeys and does not print, a backslash, and a space after a colon are shown by
/// their bytes, each as `\xHH`. So a name is part of one line, and no colon with a space stands in it. A zero, which no name has, stands in
/// front of the two digits of a byte that is not UTF-8, and is shown as `\x`.
pub fn shown_name(alloc: Global, name: &str) -> Result<Vec<u8>, AllocError>
    ensures { IfOk result (λ all. all.items ≡ shown name.now) }
{
    let mut all = End::new(Vec::new(alloc));
    match write_shown(&mut all, name) {
        Ok(()) => Ok(all.inner),
        Err(_) => Err(AllocError),
    }
}
