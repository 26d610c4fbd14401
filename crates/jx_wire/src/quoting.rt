// Strings as they are written.
ghost use Rattle.std.specs.Prelude.{◌≡◌, ◌++◌, ◌<◌, ℕ, List, IfOk, OnOk};
ghost use Rattle.std.specs.Char.{digit_char};
ghost use Rattle.jx_lex.specs.Token.{IsString};
ghost use Rattle.jx_wire.specs.Strings.{IsTextOf};
ghost use Rattle.jx_wire.specs.inside.Escapes.{all_spelt, is_special, spelt};

use std::alloc::{AllocError, Global};

/// A hexadecimal digit.
fn hex_digit(value: u8) -> u8
    requires { value < 16 }
    ensures { result ≡ digit_char value }
{
    if value < 10 {
        b'0' + value
    } else {
        b'a' + (value - 10)
    }
}

/// Whether a byte may not stand for itself in a string: a quotation mark, a backslash or a control character.
fn is_special(byte: u8) -> bool
    ensures { result ≡ is_special byte }
{
    byte == b'"' || byte == b'\\' || byte < 0x20
}

/// Adds a byte, by an escape where it may not stand for itself.
fn add_byte(out: &mut Vec<u8>, byte: u8) -> Result<(), AllocError>
    ensures { OnOk result (out.new.items ≡ out.old.items ++ spelt byte) }
{
    if is_special(byte) {
        let escape = [
            b'\\',
            b'u',
            b'0',
            b'0',
            hex_digit(byte / 16),
            hex_digit(byte % 16),
        ];
        out.extend_from_slice(&escape)
    } else {
        out.push(byte)?;
        Ok(())
    }
}

/// Adds the bytes of a text, each as it may stand in a string.
fn add_all(out: &mut Vec<u8>, text: &[u8]) -> Result<(), AllocError>
    ensures { OnOk result (out.new.items ≡ out.old.items ++ all_spelt text.now) }
{
    for byte in text {
        add_byte(out, *byte)?;
    }
    Ok(())
}

/// The string that stands for a text of UTF-8 (RFC 8259, section 7), with its quotation marks.
pub fn quoted(alloc: Global, text: &[u8]) -> Result<Vec<u8>, AllocError>
    ensures { IfOk result (λ string. (units : List ℕ) → IsTextOf text.now units → IsString string.items units) }
{
    let mut out = Vec::from_slice(alloc, b"\"")?;
    add_all(&mut out, text)?;
    out.extend_from_slice(b"\"")?;
    Ok(out)
}
