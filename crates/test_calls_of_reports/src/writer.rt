// A writer that takes little at a time, and fails at a given call.
use crate::reader::NO_CALL;
use std::alloc::Global;
use std::io;
use std::io::Write;
use test_words::{LineFault, number_of};

/// The ways in which a writer fails at a call.
#[derive(Clone, Copy, Debug, PartialEq, Eq)]
pub enum Refusal {
    Error,
    TakesNone,
}

/// How an output is taken.
#[derive(Clone, Copy, Debug)]
pub struct Taking {
    /// How many bytes a call takes at most.
    pub most: usize,
    /// The call that fails, counted from 1.
    pub fails_at: usize,
    pub refusal: Refusal,
}

impl Taking {
    /// All that it is given, and no failure.
    pub fn whole() -> Taking {
        Taking {
            most: usize::MAX,
            fails_at: NO_CALL,
            refusal: Refusal::Error,
        }
    }
}

/// Keeps what it takes.
#[derive(Drop)]
pub struct Taker {
    pub taken: Vec<u8>,
    taking: Taking,
    calls: usize,
}

impl Taker {
    pub fn new(alloc: Global, taking: Taking) -> Taker {
        Taker {
            taken: Vec::new(alloc),
            taking,
            calls: 0,
        }
    }
}

impl Write for Taker {
    fn write(&mut self, buf: &[u8]) -> io::Result<usize> {
        self.calls = self.calls.saturating_add(1);
        if self.calls == self.taking.fails_at {
            return match self.taking.refusal {
                Refusal::Error => Err(io::Error::from(io::ErrorKind::BrokenPipe)),
                Refusal::TakesNone => Ok(0),
            };
        }
        let count = buf.len().min(self.taking.most);
        self.taken.extend_from_slice(&buf[..count])?;
        Ok(count)
    }

    fn flush(&mut self) -> io::Result<()> {
        Ok(())
    }
}

/// `MOST:CALL`: so many bytes a call, and a failure at that call, or at none where it is 0.
pub fn taking_of(word: &str) -> Result<Taking, LineFault> {
    let (most, call) = word.split_once(":").ok_or(LineFault::NoSuchCall)?;
    Ok(Taking {
        most: number_of(most)?,
        fails_at: number_of(call)?,
        refusal: Refusal::Error,
    })
}
