// A text that is written bit by bit.
use std::alloc::{AllocError, Global};
use std::fmt::Display;

/// A text that is written bit by bit. An allocation that fails is kept, and reported in the end: so what writes has no branch at
/// each step, and its proof is short.
#[derive(Drop, PartialEq)]
pub struct Out {
    text: String,
    is_refused: bool,
}

impl Out {
    /// Nothing so far.
    pub fn new(alloc: Global) -> Out {
        Out {
            text: String::new(alloc),
            is_refused: false,
        }
    }

    /// Whether nothing is written so far.
    pub fn is_empty(&self) -> bool {
        self.text.is_empty()
    }

    /// Writes a text.
    pub fn push_str(&mut self, text: &str) {
        let written = self.text.push_str(text);
        self.is_refused |= written.is_err();
    }

    /// Writes what `{}` shows: `out.put(format_args!("{start}..{end}"))`.
    pub fn put<T: Display + Drop>(&mut self, shown: T) {
        let written = write!(self.text, "{shown}");
        self.is_refused |= written.is_err();
    }

    /// Writes a separator, unless nothing was written before.
    pub fn part(&mut self, mark: &str) {
        if !self.text.is_empty() {
            self.push_str(mark);
        }
    }

    /// Writes each of these with a separator between, or `-` for none.
    pub fn list<T, F: Fn(&mut Out, &T)>(&mut self, mark: &str, items: &[T], push: F)
        requires { F.IsAlwaysCallable push }
    {
        if items.is_empty() {
            self.push_str("-");
        }
        for (place, item) in items.iter().enumerate() {
            if place > 0 {
                self.push_str(mark);
            }
            push(self, item);
        }
    }

    /// Keeps that an allocation failed.
    pub fn refuse(&mut self) {
        self.is_refused = true;
    }

    /// Writes what another one has, and keeps that an allocation failed for it.
    pub fn push(&mut self, other: &Out) {
        self.push_str(other.text.as_str());
        self.is_refused |= other.is_refused;
    }

    /// All that was written, unless an allocation failed.
    pub fn finish(self) -> Result<String, AllocError> {
        if self.is_refused {
            Err(AllocError)
        } else {
            Ok(self.text)
        }
    }
}
