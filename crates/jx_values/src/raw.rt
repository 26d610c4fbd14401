// The text of a string is written through the same buffer, character by character. No memory is taken.
ghost use Rattle.std.specs.Prelude.{◌≡◌, ◌≤◌, ◌++◌, [], false, is_err, unwrap_or, vec_capacity, IfErr, OnErr, OnOk};
ghost use Rattle.std.specs.Char.{encode_utf8};
ghost use Rattle.std.specs.Char.Utf16.{utf16_chars};
ghost use Rattle.jx_ends.specs.Ends.{AppendsBeginning};
ghost use Rattle.jx_words.specs.inside.Room.{IsPut};
ghost use Rattle.jx_string.specs.Texts.{string_units, text_of};
ghost use Rattle.jx_values.specs.inside.Characters.{spelt_characters};

use crate::compact::CHUNK;
use crate::putting::put;
use jx_ends::{ReportFault, Sink};
use jx_string::{Characters, has_text};

/// Writes the UTF-8 of a character after what waits in the buffer.
fn put_character<W: Sink>(
    writer: &mut W,
    out: &mut Vec<u8>,
    character: char,
) -> Result<(), ReportFault>
    requires { W.has_failed writer.old ≡ false }
    ensures room { OnOk result (vec_capacity out.old ≤ vec_capacity out.new) }
    ensures ok { OnOk result (IsPut (W.contents writer.old) (W.contents writer.new) out.new.items (out.old.items ++ encode_utf8 character)) }
    ensures err { OnErr result (AppendsBeginning (W.contents writer.old) (W.contents writer.new) (out.old.items ++ encode_utf8 character)) }
    ensures fault { IfErr result (λ fault. fault ≡ ReportFault.Write) }
    ensures failed { W.has_failed writer.new ≡ is_err result }
{
    let mut bytes = [0; 4];
    put(writer, out, character.encode_utf8(&mut bytes).as_bytes())
}

/// Writes the characters of a string after what waits in the buffer, and U+FFFD for each half of a surrogate pair
/// alone.
fn put_characters<W: Sink>(
    writer: &mut W,
    out: &mut Vec<u8>,
    string: &[u8],
) -> Result<(), ReportFault>
    requires unfailed { W.has_failed writer.old ≡ false }
    requires large { CHUNK ≤ vec_capacity out.old }
    ensures large { OnOk result (CHUNK ≤ vec_capacity out.new) }
    ensures ok { OnOk result (IsPut (W.contents writer.old) (W.contents writer.new) out.new.items (out.old.items ++ spelt_characters (utf16_chars (string_units string.now)))) }
    ensures err { OnErr result (AppendsBeginning (W.contents writer.old) (W.contents writer.new) (out.old.items ++ spelt_characters (utf16_chars (string_units string.now)))) }
    ensures fault { IfErr result (λ fault. fault ≡ ReportFault.Write) }
    ensures failed { W.has_failed writer.new ≡ is_err result }
{
    let mut characters = Characters::of_string(string);
    while let Some(character) = characters.next_character() {
        put_character(writer, out, character.unwrap_or('\u{fffd}'))?;
    }
    Ok(())
}

/// Writes the text of a string after what waits in the buffer, or nothing where it has none.
pub(crate) fn put_text<W: Sink>(
    writer: &mut W,
    out: &mut Vec<u8>,
    string: &[u8],
) -> Result<(), ReportFault>
    requires unfailed { W.has_failed writer.old ≡ false }
    requires large { CHUNK ≤ vec_capacity out.old }
    ensures large { OnOk result (CHUNK ≤ vec_capacity out.new) }
    ensures ok { OnOk result (IsPut (W.contents writer.old) (W.contents writer.new) out.new.items (out.old.items ++ unwrap_or (text_of string.now) [])) }
    ensures err { OnErr result (AppendsBeginning (W.contents writer.old) (W.contents writer.new) (out.old.items ++ unwrap_or (text_of string.now) [])) }
    ensures fault { IfErr result (λ fault. fault ≡ ReportFault.Write) }
    ensures failed { W.has_failed writer.new ≡ is_err result }
{
    if has_text(string) {
        put_characters(writer, out, string)
    } else {
        put(writer, out, &[])
    }
}
