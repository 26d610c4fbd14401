ghost use Rattle.std.specs.Prelude.{◌≡◌, ◌||◌, is_err};
ghost use Rattle.std.specs.Io.{ReadsAtMost};
ghost use Rattle.std.specs.Io.KnownBytes.{ReadConsumes};

use std::io;

/// An end that bytes are read from, which remembers whether it ever failed.
pub trait Source {
    ghost use Rattle.std.specs.Prelude.{ℕ, List, Bool, Option};

    /// The bytes that reads will give from here on, up to the end of input, where they are known.
    ghost remaining: { Self → Option (List ℕ) };

    /// Whether a call has failed.
    ghost has_failed: { Self → Bool };

    /// Reads up to as many bytes as there is room for, and answers how many; 0 at the end of input, or where there is
    /// no room. Each error is a failure, also one of kind `Interrupted`.
    fn read(&mut self, buf: &mut [u8]) -> io::Result<usize>
        ensures bound { ReadsAtMost result buf.new }
        ensures bytes { ReadConsumes (remaining self.old) (remaining self.new) result buf.new }
        ensures failed { has_failed self.new ≡ (has_failed self.old || is_err result) };

    /// Whether a call of `read` has failed.
    fn failed(&self) -> bool
        ensures { result ≡ has_failed self.now };
}
