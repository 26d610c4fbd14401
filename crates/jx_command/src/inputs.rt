// The inputs that the words name.
ghost use Rattle.std.specs.Prelude.{◌≡◌, count_by, map, nat_lt, IfOk};
ghost use Rattle.jx_command.specs.Inputs.{is_dash, AreInputsOf, AreNamedInputsOf, IsInputOf};

use std::alloc::AllocError;

/// An input that one word names.
#[derive(Clone, Copy)]
pub enum Input<'a> {
    /// Standard input.
    Standard,
    /// The file of this name.
    File(&'a str),
}

/// The inputs that are read.
#[derive(Drop)]
pub enum Inputs<'a> {
    /// One input, whose answer stands alone.
    One(Input<'a>),
    /// The inputs that arguments name, in their order. The answer for each follows its name. They are two or more, unless the
    /// arguments ask for names.
    Several(Vec<&'a str>),
}

/// The input that a word names: standard input where it is `-`, and else the file of this name, also where it is empty.
pub fn input_of<'a>(word: &'a str) -> Input<'a>
    ensures { IsInputOf word.entry.now result }
{
    if word == "-" {
        Input::Standard
    } else {
        Input::File(word)
    }
}

/// The inputs that words name: standard input where there is none, the input of a word that stands alone, and else all of them.
pub fn inputs_of<'a>(words: Vec<&'a str>) -> Inputs<'a>
    ensures { AreInputsOf (map (λ word. word.now) words.entry.items) result }
{
    match words.as_slice() {
        [] => Inputs::One(Input::Standard),
        [word] => Inputs::One(input_of(word)),
        _ => Inputs::Several(words),
    }
}

/// The inputs where the answer for each is to follow its name, also where it is the only one.
pub fn named_inputs_of<'a>(mut words: Vec<&'a str>) -> Result<Inputs<'a>, AllocError>
    ensures { IfOk result (AreNamedInputsOf (map (λ word. word.now) words.entry.items)) }
{
    if words.is_empty() {
        words.push("-")?;
    }
    Ok(Inputs::Several(words))
}

/// Whether more than one of the words is `-`: standard input can be read once.
pub fn reads_standard_twice(words: &[&str]) -> bool
    ensures { result ≡ nat_lt 1 (count_by (λ word. is_dash word.now) words.now) }
{
    words.iter().filter(|word| **word == "-").count() > 1
}
