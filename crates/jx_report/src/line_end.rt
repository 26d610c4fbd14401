// A line that is put together from its end: what it has so far stands in a buffer from a place on.
ghost use Rattle.std.specs.Prelude.{◌≡◌, ◌+◌, ◌≤◌, ◌++◌, drop, length};

/// Puts bytes in front of what a line has from a place on, and answers where they begin.
#[inline(always)]
pub(crate) fn put_bytes(line: &mut [u8], end: usize, bytes: &[u8]) -> usize
    requires { (length bytes.now ≤ end) × (end ≤ length line.old) }
    ensures words { drop result line.new ≡ bytes.now ++ drop end line.old }
    ensures start { result + length bytes.now ≡ end }
{
    let start = end - bytes.len();
    line[start..end].copy_from_slice(bytes);
    start
}
