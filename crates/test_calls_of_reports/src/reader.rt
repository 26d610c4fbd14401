// A reader that gives little at a time, and fails at a given call.
use std::io;
use std::io::Read;
use test_words::{LineFault, number_of};

/// The number of no call: an end that is to fail at this one never does.
pub const NO_CALL: usize = 0;

/// How a text is given.
#[derive(Clone, Copy, Debug)]
pub struct Giving {
    /// How many bytes a call gives at most.
    pub most: usize,
    /// The call that fails, counted from 1.
    pub fails_at: usize,
    /// The fault that it gives.
    pub kind: io::ErrorKind,
    /// How many zeros are given after the text.
    pub zeros: usize,
}

impl Giving {
    /// The whole text in one call, and no failure.
    pub fn whole() -> Giving {
        Giving {
            most: usize::MAX,
            fails_at: NO_CALL,
            kind: io::ErrorKind::Other,
            zeros: 0,
        }
    }

    /// A byte a call, and a failure at this one.
    pub fn failing_at(call: usize, kind: io::ErrorKind) -> Giving {
        Giving {
            most: 1,
            fails_at: call,
            kind,
            zeros: 0,
        }
    }
}

/// Gives a text, and zeros after it.
#[derive(Drop)]
pub struct Giver<'a> {
    text: &'a [u8],
    giving: Giving,
    calls: usize,
}

impl<'a> Giver<'a> {
    pub fn new(text: &'a [u8], giving: Giving) -> Giver<'a> {
        Giver {
            text,
            giving,
            calls: 0,
        }
    }

    /// Whether all was given.
    pub fn is_at_end(&self) -> bool {
        self.text.is_empty() && self.giving.zeros == 0
    }
}

impl Read for Giver<'_> {
    fn read(&mut self, buf: &mut [u8]) -> io::Result<usize> {
        self.calls = self.calls.saturating_add(1);
        if self.calls == self.giving.fails_at {
            return Err(io::Error::from(self.giving.kind));
        }
        let room = buf.len().min(self.giving.most);
        if self.text.is_empty() {
            let count = room.min(self.giving.zeros);
            self.giving.zeros -= count;
            return Ok(count);
        }
        let count = room.min(self.text.len());
        buf[..count].copy_from_slice(&self.text[..count]);
        self.text = &self.text[count..];
        Ok(count)
    }
}

/// `CALL`: a byte a call, and a failure at that call.
pub fn giving_of(word: &str) -> Result<Giving, LineFault> {
    Ok(Giving::failing_at(number_of(word)?, io::ErrorKind::Other))
}
