// A line of data, why it has no answer of its own, and its words.
ghost use Rattle.std.specs.Prelude.{◌≡◌, ◌≤◌};
ghost use Rattle.test_words.specs.declared.line.LineFault.TheVariants.{Memory};

use crate::names::{expect_of, holders_of, settings_of, state_of};
use crate::numbers::{Meeting, depth_of, meeting_within, number_of, numbers_of, span_within};
use crate::out::Out;
use crate::texts::{bytes_of, texts_of};
use jx_lex::{Depth, LexState, Span};
use jx_reduce::{Expect, Holder};
use jx_run::{FrontMark, NameRule, Settings};
use std::alloc::{AllocError, AllocFailed, Global};
use thiserror::Error;

/// Why a line has no answer.
#[derive(Clone, Copy, Debug, Error)]
pub enum LineFault {
    /// It names no call, or its words are not what the call takes.
    #[error("no such call")]
    NoSuchCall,
    /// No memory could be had.
    #[error("out of memory")]
    Memory,
}

impl From<AllocError> for LineFault {
    ghost from_gives = { λ _ fault. fault ≡ Memory };

    fn from(_: AllocError) -> LineFault {
        LineFault::Memory
    }
}

impl<T: Drop> From<AllocFailed<T>> for LineFault {
    ghost from_gives = { λ _ fault. fault ≡ Memory };

    fn from(_: AllocFailed<T>) -> LineFault {
        LineFault::Memory
    }
}

/// A line's words, which are taken one by one, and what its call answers.
///
/// The first fault is kept, and a call goes on with some value of the type that it asks for; what it answers is dropped in the end.
/// So it has no branch at each of its words, and its proof is short.
#[derive(Drop)]
pub struct Line<'a> {
    /// Where its texts and its answer are.
    pub alloc: Global,
    words: &'a [&'a str],
    fault: Option<LineFault>,
    /// The answer so far.
    pub out: Out,
}

impl<'a> Line<'a> {
    /// A line of these words.
    pub fn new(alloc: Global, words: &'a [&'a str]) -> Line<'a> {
        Line {
            alloc,
            words,
            fault: None,
            out: Out::new(alloc),
        }
    }

    /// How many words are left.
    pub fn count(&self) -> usize {
        self.words.len()
    }

    /// Keeps a fault, unless there is one.
    pub fn note(&mut self, fault: LineFault) {
        if self.fault.is_none() {
            self.fault = Some(fault);
        }
    }

    /// Keeps that the words are not what the call takes.
    pub fn refuse(&mut self) {
        self.note(LineFault::NoSuchCall);
    }

    /// Keeps the fault of what failed.
    pub fn settle<E: Into<LineFault>>(&mut self, done: Result<(), E>) {
        if let Err(fault) = done {
            self.note(fault.into());
        }
    }

    /// The value that was made, or none where it failed, the fault of which is kept.
    pub fn keep<T: Drop, E: Into<LineFault>>(&mut self, made: Result<T, E>) -> Option<T> {
        match made {
            Ok(made) => Some(made),
            Err(fault) => {
                self.note(fault.into());
                None
            }
        }
    }

    /// The value that was read, or this where nothing was, the fault of which is kept.
    pub fn read_or<T: Drop>(&mut self, read: Result<T, LineFault>, other: T) -> T {
        self.keep(read).unwrap_or(other)
    }

    /// The next word.
    pub fn word(&mut self) -> &'a str {
        match self.words {
            [word, rest @ ..] => {
                self.words = rest;
                word
            }
            [] => {
                self.refuse();
                ""
            }
        }
    }

    /// All words that are left.
    pub fn rest(&mut self) -> &'a [&'a str] {
        let rest = self.words;
        self.words = &[];
        rest
    }

    /// The bytes in the next word.
    pub fn text(&mut self) -> Vec<u8> {
        let read = bytes_of(self.alloc, self.word());
        self.read_or(read, Vec::new(self.alloc))
    }

    /// The texts in all words that are left.
    pub fn texts(&mut self) -> Vec<String> {
        let read = texts_of(self.alloc, self.rest());
        self.read_or(read, Vec::new(self.alloc))
    }

    /// The number in the next word.
    pub fn number(&mut self) -> usize {
        let read = number_of(self.word());
        self.read_or(read, 0)
    }

    /// The numbers of the list in the next word.
    pub fn numbers(&mut self) -> Vec<usize> {
        let read = numbers_of(self.alloc, self.word());
        self.read_or(read, Vec::new(self.alloc))
    }

    /// The depth in the next word.
    pub fn depth(&mut self) -> Depth {
        let read = depth_of(self.word());
        self.read_or(read, Depth::default())
    }

    /// The settings in the next word, within a depth.
    pub fn settings(&mut self, depth: Depth) -> Settings {
        let read = settings_of(depth, self.word());
        let other = Settings {
            depth,
            mark: FrontMark::Refused,
            names: NameRule::Any,
        };
        self.read_or(read, other)
    }

    /// The state that the next word names.
    pub fn state(&mut self) -> LexState {
        let read = state_of(self.alloc, self.word());
        self.read_or(read, LexState::Gap)
    }

    /// The expectation that the next word names.
    pub fn expect(&mut self) -> Expect {
        let read = expect_of(self.alloc, self.word());
        self.read_or(read, Expect::Value)
    }

    /// The open containers in the next word, the outermost first.
    pub fn holders(&mut self) -> Vec<Holder> {
        let read = holders_of(self.alloc, self.word());
        self.read_or(read, Vec::new(self.alloc))
    }

    /// The span within so many bytes in the next word.
    pub fn span(&mut self, len: usize) -> Span
        ensures ordered { result.start ≤ result.end }
        ensures within { result.end ≤ len }
    {
        match span_within(self.word(), len) {
            Ok(span) => span,
            Err(fault) => {
                self.note(fault);
                Span { start: 0, end: 0 }
            }
        }
    }

    /// The two spans that meet within so many bytes in the next word.
    pub fn meeting(&mut self, len: usize) -> Meeting
        ensures left { result.start ≤ result.cut }
        ensures right { result.cut ≤ result.end }
        ensures within { result.end ≤ len }
    {
        match meeting_within(self.word(), len) {
            Ok(meeting) => meeting,
            Err(fault) => {
                self.note(fault);
                Meeting {
                    start: 0,
                    cut: 0,
                    end: 0,
                }
            }
        }
    }

    /// The answer: that there is no such call where its words are not what it takes, or where some are left.
    pub fn answer(mut self) -> Result<String, AllocError> {
        if !self.words.is_empty() {
            self.refuse();
        }
        match self.fault {
            None => self.out.finish(),
            Some(LineFault::Memory) => Err(AllocError),
            Some(LineFault::NoSuchCall) => String::from_str(self.alloc, "no such call"),
        }
    }
}
