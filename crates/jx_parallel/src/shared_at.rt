ghost use Rattle.std.specs.Prelude.{◌≡◌, IfErr};
ghost use Rattle.std.specs.Io.{ReadsAtMost};
ghost use Rattle.jx_parallel.specs.Offsets.{ReadsThere};

/// Bytes that several threads read at offsets through one shared reference.
pub trait SharedAt {
    ghost use Rattle.std.specs.Prelude.{ℕ, List, Option};

    /// Why a read fails.
    type Fault: Drop + Send;

    /// All of its bytes, where they are known.
    ghost content: { Self → Option (List ℕ) };

    /// A read of it may fail for this reason.
    ghost may_fail: { Self → Self.Fault → Type 0 };

    /// Reads from an offset on up to as many bytes as there is room for, and returns how many; 0 at the end of the bytes and
    /// after it, or where there is no room.
    fn read_at(&self, buf: &mut [u8], offset: usize) -> Result<usize, Self::Fault>
        ensures bound { ReadsAtMost result buf.new }
        ensures bytes { ReadsThere (content self.now) offset result buf.new }
        ensures fault { IfErr result (may_fail self.now) };
}
