ghost use Rattle.std.specs.Prelude.{◌≡◌, false};

use crate::sink::Sink;
use crate::source::Source;
use std::io;
use std::io::{Read, Write};

/// A reader or a writer of std as a `Source` or a `Sink`.
#[derive(Debug, Drop)]
pub struct End<T> {
    /// The reader or the writer itself.
    pub inner: T,
    /// Whether a call through this end has failed.
    pub failed: bool,
}

impl<T> End<T> {
    /// An end that has not failed.
    pub fn new(inner: T) -> End<T>
        ensures inner { result.inner ≡ inner }
        ensures failed { result.failed ≡ false }
    {
        End {
            inner,
            failed: false,
        }
    }
}

impl<R: Read> Source for End<R> {
    ghost remaining = { λ end. R.remaining end.inner };

    ghost has_failed = { λ end. end.failed };

    fn read(&mut self, buf: &mut [u8]) -> io::Result<usize> {
        let result = self.inner.read(buf);
        if result.is_err() {
            self.failed = true;
        }
        result
    }

    fn failed(&self) -> bool {
        self.failed
    }
}

impl<W: Write> Sink for End<W> {
    ghost contents = { λ end. W.contents end.inner };

    ghost has_failed = { λ end. end.failed };

    fn write(&mut self, buf: &[u8]) -> io::Result<usize> {
        let result = self.inner.write(buf);
        match &result {
            Err(_) => self.failed = true,
            Ok(taken) => {
                if *taken == 0 && !buf.is_empty() {
                    self.failed = true;
                }
            }
        }
        result
    }

    fn failed(&self) -> bool {
        self.failed
    }
}
