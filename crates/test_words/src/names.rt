// The values that words name: settings, states, expectations and open containers.
use crate::line::LineFault;
use crate::moves::EXPECTS;
use jx_lex::{Depth, LexState};
use jx_reduce::{Expect, Holder};
use jx_run::{FrontMark, NameRule, Settings};
use std::alloc::Global;
use std::fmt::Debug;

/// The one of these that shows as this word.
fn named<T: Debug + Copy>(alloc: Global, all: &[T], word: &str) -> Result<T, LineFault> {
    for one in all {
        let name = format!(in alloc; "{one:?}")?;
        if name.as_str() == word {
            return Ok(*one);
        }
    }
    Err(LineFault::NoSuchCall)
}

/// The state of this name.
pub fn state_of(alloc: Global, word: &str) -> Result<LexState, LineFault> {
    named(alloc, &LexState::all(), word)
}

/// The expectation of this name.
pub fn expect_of(alloc: Global, word: &str) -> Result<Expect, LineFault> {
    named(alloc, &EXPECTS, word)
}

/// The open containers of these letters, the outermost first.
pub fn holders_of(alloc: Global, word: &str) -> Result<Vec<Holder>, LineFault> {
    let mut holders = Vec::new(alloc);
    if word == "-" {
        return Ok(holders);
    }
    for letter in word.bytes() {
        match letter {
            b'A' => holders.push(Holder::Array)?,
            b'O' => holders.push(Holder::Object)?,
            _ => return Err(LineFault::NoSuchCall),
        }
    }
    Ok(holders)
}

/// The letters of settings, and what they ask for.
const LETTERS: [(&str, FrontMark, NameRule); 4] = [
    ("-", FrontMark::Refused, NameRule::Any),
    ("b", FrontMark::Ignored, NameRule::Any),
    ("u", FrontMark::Refused, NameRule::Unique),
    ("bu", FrontMark::Ignored, NameRule::Unique),
];

/// The settings of these letters, within a depth.
pub fn settings_of(depth: Depth, word: &str) -> Result<Settings, LineFault> {
    for (letters, mark, names) in &LETTERS {
        if *letters == word {
            return Ok(Settings {
                depth,
                mark: *mark,
                names: *names,
            });
        }
    }
    Err(LineFault::NoSuchCall)
}
