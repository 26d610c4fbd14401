// Texts that strings stand for.
ghost use Rattle.std.specs.Prelude.{◌≡◌, ◌≢◌, ℕ, List, is_some, IfErr, IfOk, IsErrOf};
ghost use Rattle.jx_lex.specs.Token.{IsString};
ghost use Rattle.jx_string.specs.declared.string_fault.StringFault.TheVariants.{LoneSurrogate, NoString};
ghost use Rattle.jx_string.specs.Texts.{text_of, utf8_of};
ghost use Rattle.jx_string.specs.inside.TextIn.{IsTextIn};

use crate::characters::Characters;
use crate::string_fault::StringFault;
use jx_index::strings_pointers_and_rows;
use std::alloc::{AllocError, Global};

/// Whether a string stands for a text: no half of a surrogate pair stands in it without the other half. No memory is taken.
pub fn has_text(string: &[u8]) -> bool
    ensures { result ≡ is_some (text_of string.now) }
{
    let mut characters = Characters::of_string(string);
    while let Some(character) = characters.next_character() {
        if character.is_none() {
            return false;
        }
    }
    true
}

/// The UTF-8 of a string's characters, as far as each half of a surrogate pair has the other half.
fn text_in(alloc: Global, string: &[u8]) -> Result<Option<String>, AllocError>
    ensures { IfOk result (λ text. IsTextIn string.now text) }
{
    let mut characters = Characters::of_string(string);
    // No character takes more bytes than what encodes it.
    let mut text = String::with_capacity(alloc, string.len())?;
    while let Some(character) = characters.next_character() {
        let Some(character) = character else {
            return Ok(None);
        };
        text.push(character)?;
    }
    Ok(Some(text))
}

/// The value of a string (RFC 8259, section 7) in UTF-8: the characters whose UTF-16 code units are its own. A string
/// that has half of a surrogate pair without the other half has no such characters.
pub fn unescaped(alloc: Global, string: &[u8]) -> Result<Vec<u8>, StringFault>
    ensures value { (units : List ℕ) → IsString string.now units → IfOk result (λ text. utf8_of units ≡ Some text.items) }
    ensures string { (units : List ℕ) → IsString string.now units → IfErr result (λ fault. fault ≢ NoString) }
    ensures lone { (units : List ℕ) → IsString string.now units → IsErrOf result LoneSurrogate → utf8_of units ≡ None }
{
    strings_pointers_and_rows();
    if string.len() < 2 {
        return Err(StringFault::NoString);
    }
    match text_in(alloc, string)? {
        Some(text) => Ok(text.into_bytes()),
        None => Err(StringFault::LoneSurrogate),
    }
}
