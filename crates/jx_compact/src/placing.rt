// The tokens of a value in room that is there already.
ghost use Rattle.std.specs.Prelude.{◌≡◌, ◌+◌, ◌≤◌, ◌++◌, drop, length, take};
ghost use Rattle.jx_compact.specs.Compact.{compact, kept};

use crate::place::{Place, is_kept, next};

/// How many bytes of a place stay.
fn kept_len(place: Place, byte: u8) -> usize
    ensures value { result ≡ length (kept place byte) }
    ensures small { result ≤ 1 }
{
    if is_kept(place, byte) { 1 } else { 0 }
}

/// The number of bytes of the compact form of a value: as many as the value has, or fewer.
pub fn compact_len(bytes: &[u8]) -> usize
    ensures { result ≡ length (compact bytes.now) }
{
    let mut place = Place::Between;
    let mut len = 0;
    for byte in bytes {
        len += kept_len(place, *byte);
        place = next(place, *byte);
    }
    len
}

/// Puts a byte after those that stand in front, where it stays, and answers how many stand there then.
fn put_kept(out: &mut [u8], len: usize, place: Place, byte: u8) -> usize
    requires { len + length (kept place byte) ≤ length out.old }
    ensures len { result ≡ len + length (kept place byte) }
    ensures front { take result out.new ≡ take len out.old ++ kept place byte }
    ensures back { drop result out.new ≡ drop result out.old }
{
    if is_kept(place, byte) {
        out[len] = byte;
        len + 1
    } else {
        len
    }
}

/// Puts the compact form of a value at the front of a buffer that has room for it, and answers how many bytes it has. A
/// buffer as long as the value has room. The rest stays as it was.
pub fn compact_into(bytes: &[u8], out: &mut [u8]) -> usize
    requires { length (compact bytes.now) ≤ length out.old }
    ensures len { result ≡ length (compact bytes.now) }
    ensures put { out.new ≡ compact bytes.now ++ drop (length (compact bytes.now)) out.old }
{
    let mut place = Place::Between;
    let mut len = 0;
    for byte in bytes {
        len = put_kept(out, len, place, *byte);
        place = next(place, *byte);
    }
    len
}
