// A byte order mark in front of a text.
ghost use Rattle.std.specs.Prelude.{◌≡◌, ◌+◌, ◌<◌, ◌≤◌, drop, length};
ghost use Rattle.jx_run.specs.Front.{agreed, front_of, IsTold};

use crate::laws::beginning_of_a_text_by_its_front;
use crate::texts::settings::{Front, FrontMark};
use crate::texts::verdict::Refusal;

/// U+FEFF in UTF-8.
const BYTE_ORDER_MARK: [u8; 3] = [0xEF, 0xBB, 0xBF];

/// With how many bytes of the byte order mark a text begins: with so many before this slice, and then with those of the
/// slice.
pub(crate) fn count_agreed(slice: &[u8], before: usize) -> usize
    requires { before < 3 }
    ensures bounds { (before ≤ result) × (result ≤ 3) }
    ensures within { result ≤ before + length slice.now }
    ensures counted { result ≡ before + agreed slice.now (drop before BYTE_ORDER_MARK) }
{
    for count in before..3 {
        if slice.len() <= count - before {
            return count;
        }
        if slice[count - before] != BYTE_ORDER_MARK[count] {
            return count;
        }
    }
    3
}

/// The front of a text, by how many bytes of the byte order mark the text begins with.
fn seen(text: &[u8], mark: FrontMark) -> Front
    ensures { result ≡ front_of mark text.now }
{
    if mark == FrontMark::Refused {
        return Front::Skip(0);
    }
    match count_agreed(text, 0) {
        0 => Front::Skip(0),
        3 => Front::Skip(3),
        count if count == text.len() => Front::Refused(Refusal::Truncated),
        count => Front::Refused(Refusal::Stopped { at: count }),
    }
}

/// The front of a text that begins at the input's start (RFC 8259, section 8.1). It is the byte order mark or a part of
/// it where the setting ignores it, and otherwise nothing. It takes no memory.
///
/// The verdict by settings is that on the bytes after the front, at their offsets, or the refusal.
pub fn front(text: &[u8], mark: FrontMark) -> Front
    ensures value { result ≡ front_of mark text.now }
    ensures verdict { IsTold mark text.now result }
{
    beginning_of_a_text_by_its_front();
    seen(text, mark)
}
