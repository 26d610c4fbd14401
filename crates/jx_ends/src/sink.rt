ghost use Rattle.std.specs.Prelude.{◌≡◌, ◌||◌};
ghost use Rattle.std.specs.Io.{WritesAtMost};
ghost use Rattle.std.specs.Io.KnownBytes.{WriteAppends};
ghost use Rattle.jx_ends.specs.Ends.{is_write_failure};

use std::io;

/// An end that bytes are written to, which remembers whether it ever failed.
pub trait Sink {
    ghost use Rattle.std.specs.Prelude.{ℕ, List, Bool, Option};

    /// The bytes that were written to it, where they are known.
    ghost contents: { Self → Option (List ℕ) };

    /// Whether a call has failed.
    ghost has_failed: { Self → Bool };

    /// Writes a beginning of the bytes, and answers how many it took. An error is a failure, and so is a call that is given
    /// bytes and takes none.
    fn write(&mut self, buf: &[u8]) -> io::Result<usize>
        ensures bound { WritesAtMost result buf.now }
        ensures bytes { WriteAppends (contents self.old) (contents self.new) result buf.now }
        ensures failed { has_failed self.new ≡ (has_failed self.old || is_write_failure result buf.now) };

    /// Whether a call of `write` has failed.
    fn failed(&self) -> bool
        ensures { result ≡ has_failed self.now };
}
