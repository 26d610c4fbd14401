// Whether the last byte of an element may be followed by more of its value.
ghost use Rattle.std.specs.Prelude.{◌≡◌};
ghost use Rattle.jx_run.specs.ElementVerdict.{told};
ghost use Rattle.jx_run.specs.Unclosed.{is_open, ends_open, last_open};

use crate::sequences::element_verdict::ElementVerdict;
use crate::texts::verdict::Verdict;

/// Whether the byte is neither white space nor one that ends a string or a container.
fn is_open(byte: u8) -> bool
    ensures { result ≡ is_open byte }
{
    !matches!(byte, b' ' | b'\t' | b'\n' | b'\r' | b'"' | b']' | b'}')
}

/// Whether the last byte is such a byte.
pub(crate) fn ends_open(bytes: &[u8]) -> bool
    ensures { result ≡ ends_open bytes.now }
{
    match bytes.last() {
        None => false,
        Some(byte) => is_open(*byte),
    }
}

/// Whether the last byte of an element may be followed by more of its value (RFC 7464, section 2.4). `before` is the
/// answer for the bytes of the element before these, and false at its start.
pub fn ends_open_behind(before: bool, bytes: &[u8]) -> bool
    ensures { result ≡ last_open before bytes.now }
{
    match bytes.last() {
        None => before,
        Some(byte) => is_open(*byte),
    }
}

/// The verdict on an element after a record separator, by that on its bytes and by whether their last one is open.
pub(crate) fn told(verdict: Verdict, open_ended: bool) -> ElementVerdict
    ensures { result ≡ told verdict open_ended }
{
    match verdict {
        Verdict::Accepted if open_ended => ElementVerdict::MayBeCut,
        Verdict::Accepted => ElementVerdict::Accepted,
        Verdict::Refused(refusal) => ElementVerdict::Refused(refusal),
    }
}
