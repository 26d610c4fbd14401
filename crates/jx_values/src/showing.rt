// Lines are written as they are made, or each as the text of the string that it is.
ghost use Rattle.std.specs.Prelude.{◌≡◌, ◌++◌, ◌||◌, false, is_none, unwrap_or, IfOk, OnOk};
ghost use Rattle.std.specs.Char.{encode_utf8};
ghost use Rattle.std.specs.Char.Utf16.{utf16_chars};
ghost use Rattle.jx_string.specs.Texts.{string_units, text_of};
ghost use Rattle.jx_values.specs.NameTexts.{Texts, no_texts, text_line, text_run, text_step, told_of_lone};
ghost use Rattle.jx_values.specs.inside.Characters.{spelt_characters};
ghost use Rattle.jx_values.specs.inside.Showing.{texts_of};

use crate::telling::add_front;
use jx_string::{Characters, has_text};
use std::alloc::{AllocError, Global};

/// How lines are written, and what was met in those so far.
#[derive(Drop)]
pub struct Showing {
    /// Whether each line is a string of which the text is written.
    pub by_texts: bool,
    /// The front of a line that has not ended.
    pub part: Vec<u8>,
    /// The texts that wait to be written, each in a line.
    pub ready: Vec<u8>,
    /// Whether a string lacked a text.
    pub has_lone: bool,
}

/// Appends the characters of a string, and U+FFFD for each half of a surrogate pair alone.
fn push_characters(out: &mut Vec<u8>, string: &[u8]) -> Result<(), AllocError>
    ensures { OnOk result (out.new.items ≡ out.old.items ++ spelt_characters (utf16_chars (string_units string.now))) }
{
    let mut characters = Characters::of_string(string);
    while let Some(character) = characters.next_character() {
        let mut bytes = [0; 4];
        let character = character.unwrap_or('\u{fffd}');
        out.extend_from_slice(character.encode_utf8(&mut bytes).as_bytes())?;
    }
    Ok(())
}

/// Appends the line of a string's text, which is empty where it has none, and answers whether it has none.
fn push_text_line(out: &mut Vec<u8>, string: &[u8]) -> Result<bool, AllocError>
    ensures line { OnOk result (out.new.items ≡ out.old.items ++ text_line string.now) }
    ensures lone { IfOk result (λ lone. lone ≡ is_none (text_of string.now)) }
{
    let is_lone = !has_text(string);
    if !is_lone {
        push_characters(out, string)?;
    }
    out.push(b'\n')?;
    Ok(is_lone)
}

impl Showing {
    /// Before the first line.
    pub(crate) fn new(alloc: Global, by_texts: bool) -> Showing
        ensures by { result.by_texts ≡ by_texts }
        ensures texts { texts_of result ≡ no_texts }
    {
        Showing {
            by_texts,
            part: Vec::new(alloc),
            ready: Vec::new(alloc),
            has_lone: false,
        }
    }

    /// Takes in a byte of a line, and appends the text of the line that it ends.
    fn take(&mut self, byte: u8) -> Result<(), AllocError>
        ensures by { self.new.by_texts ≡ self.old.by_texts }
        ensures step { OnOk result (texts_of self.new ≡ text_step (texts_of self.old) byte) }
    {
        if byte != b'\n' {
            self.part.push(byte)?;
            return Ok(());
        }
        let is_lone = push_text_line(&mut self.ready, &self.part)?;
        self.has_lone = self.has_lone || is_lone;
        self.part.clear();
        Ok(())
    }

    /// Takes in lines after those before, and appends the text of each.
    pub(crate) fn take_lines(&mut self, lines: &[u8]) -> Result<(), AllocError>
        ensures by { self.new.by_texts ≡ self.old.by_texts }
        ensures run { OnOk result (texts_of self.new ≡ text_run (texts_of self.old) lines.now) }
    {
        for number in 0..lines.len() {
            self.take(lines[number])?;
        }
        Ok(())
    }
}

/// The report on what was met in the lines, and another one after it.
pub(crate) fn told_with_lone(
    alloc: Global,
    pointer: &str,
    has_lone: bool,
    said: Vec<u8>,
) -> Result<Vec<u8>, AllocError>
    ensures { IfOk result (λ told. told.items ≡ told_of_lone pointer.now has_lone ++ said.items) }
{
    if !has_lone {
        return Ok(said);
    }
    let mut told = Vec::new(alloc);
    add_front(&mut told, pointer)?;
    told.extend_from_slice(b"half a surrogate pair in a name\n")?;
    told.extend_from_slice(&said)?;
    Ok(told)
}
