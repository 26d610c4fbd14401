// Verdicts on lines of JSON Lines.
ghost use Rattle.std.specs.Prelude.{◌≡◌, ◌&&◌, not};
ghost use Rattle.jx_lex.specs.Uneventful.{is_blank};
ghost use Rattle.jx_ndjson.specs.Answers.{are_blanks};
ghost use Rattle.jx_ndjson.specs.WholeLines.{moved_line, moved_refusal, moved_verdict};
ghost use Rattle.jx_ndjson.specs.inside.Steps.{told};

use jx_lex::Span;
use jx_run::{Refusal, Verdict};

/// The verdict on a line.
#[derive(Clone, Copy, Debug, PartialEq, Eq)]
pub enum LineVerdict {
    /// It is a text within the depth.
    Accepted,
    /// It is not valid JSON within the depth. Offsets are in the whole input.
    Refused(Refusal),
    /// No line feed ends it, and its value is a number, `true`, `false` or `null` with nothing after it. So it may be
    /// the beginning of a longer one that was cut (RFC 7464, section 2.4).
    MayBeCut,
    /// It has no byte, or white space alone (RFC 8259, section 2).
    Blank,
}

/// A line, and the verdict on it.
#[derive(Clone, Copy, Debug, PartialEq, Eq)]
pub struct JudgedLine {
    /// Its place among the lines, from 1.
    pub number: usize,
    /// Where it stands without its line feed, as offsets in the whole input.
    pub span: Span,
    pub verdict: LineVerdict,
}

/// The refusal of bytes so much further on.
fn moved_refusal(by: usize, refusal: Refusal) -> Refusal
    ensures { result ≡ moved_refusal by refusal }
{
    match refusal {
        Refusal::Stopped { at } => Refusal::Stopped {
            at: by.saturating_add(at),
        },
        Refusal::Truncated => Refusal::Truncated,
        Refusal::TooDeep { at } => Refusal::TooDeep {
            at: by.saturating_add(at),
        },
        Refusal::RepeatedName { at } => Refusal::RepeatedName {
            at: by.saturating_add(at),
        },
    }
}

/// The verdict on bytes so much further on.
fn moved_verdict(by: usize, verdict: LineVerdict) -> LineVerdict
    ensures { result ≡ moved_verdict by verdict }
{
    match verdict {
        LineVerdict::Accepted => LineVerdict::Accepted,
        LineVerdict::Refused(refusal) => LineVerdict::Refused(moved_refusal(by, refusal)),
        LineVerdict::MayBeCut => LineVerdict::MayBeCut,
        LineVerdict::Blank => LineVerdict::Blank,
    }
}

impl JudgedLine {
    /// The line after so many lines, which have so many bytes.
    pub fn behind(self, lines: usize, bytes: usize) -> JudgedLine
        ensures { result ≡ moved_line lines bytes self }
    {
        JudgedLine {
            number: lines.saturating_add(self.number),
            span: Span {
                start: bytes.saturating_add(self.span.start),
                end: bytes.saturating_add(self.span.end),
            },
            verdict: moved_verdict(bytes, self.verdict),
        }
    }
}

/// A space, a tab, a line feed or a carriage return (RFC 8259, section 2).
fn is_blank(byte: u8) -> bool
    ensures { result ≡ is_blank byte }
{
    byte == b' ' || byte == b'\t' || byte == b'\n' || byte == b'\r'
}

/// Whether there is no byte but white space.
fn are_blanks(bytes: &[u8]) -> bool
    ensures { result ≡ are_blanks bytes.now }
{
    for byte in bytes {
        if !is_blank(*byte) {
            return false;
        }
    }
    true
}

/// Whether a line has no byte but white space. `before` is the answer for the bytes before these.
pub(crate) fn blanks_behind(before: bool, bytes: &[u8]) -> bool
    ensures { result ≡ (before && are_blanks bytes.now) }
{
    before && are_blanks(bytes)
}

/// Whether more of a line's value may follow its last byte, which is open or not, where a line feed ends the line or none does.
pub(crate) fn is_unended(is_open: bool, is_ended: bool) -> bool
    ensures { result ≡ (is_open && not is_ended) }
{
    is_open && !is_ended
}

/// The verdict on a line by that on its bytes, by whether they are white space alone, and by whether more of its value
/// may follow its last byte.
pub(crate) fn told(is_blank: bool, is_open: bool, verdict: Verdict) -> LineVerdict
    ensures { result ≡ told is_blank is_open verdict }
{
    if is_blank {
        return LineVerdict::Blank;
    }
    match verdict {
        Verdict::Refused(refusal) => LineVerdict::Refused(refusal),
        Verdict::Accepted if is_open => LineVerdict::MayBeCut,
        Verdict::Accepted => LineVerdict::Accepted,
    }
}
