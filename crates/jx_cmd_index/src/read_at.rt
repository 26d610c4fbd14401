ghost use Rattle.std.specs.Prelude.{◌≡◌, ◌||◌, is_err};
ghost use Rattle.std.specs.Io.{ReadsAtMost};
ghost use Rattle.jx_cmd_index.specs.Offsets.{HasSize, ReadsThere};

use std::io;

/// An end with bytes that are read at offsets, which remembers whether a read of it ever failed.
pub trait ReadAt {
    ghost use Rattle.std.specs.Prelude.{ℕ, List, Bool, Option};

    /// All of its bytes, where they are known.
    ghost content: { Self → Option (List ℕ) };

    /// Whether a call has failed.
    ghost has_failed: { Self → Bool };

    /// How many bytes there are.
    fn size(&self) -> usize
        ensures { HasSize (content self.now) result };

    /// Reads from an offset on up to as many bytes as there is room for, and answers how many; 0 at the end of the
    /// bytes and after it, or where there is no room. Each error is a failure, also one of kind `Interrupted`.
    fn read_at(&mut self, buf: &mut [u8], offset: usize) -> io::Result<usize>
        ensures bound { ReadsAtMost result buf.new }
        ensures bytes { ReadsThere (content self.old) offset result buf.new }
        ensures kept { content self.new ≡ content self.old }
        ensures failed { has_failed self.new ≡ (has_failed self.old || is_err result) };

    /// Whether a call of `read_at` has failed.
    fn failed(&self) -> bool
        ensures { result ≡ has_failed self.now };
}
