// Record separators in the bytes of a JSON text sequence.
ghost use Rattle.std.specs.Prelude.{◌≡◌, ◌≤◌, ◌<◌, ◌+◌, [], length, slice_range, IfSome, IfNone};
ghost use Rattle.jx_run.specs.Elements.{before_separator, after_separators, parts};
ghost use Rattle.jx_run.specs.SequenceRead.{HasNoSeparator, StartsWithSeparator, EndsWithSeparator};

use jx_lex::Span;
use memchr::{memchr, memrchr};

/// The record separator (RFC 7464, section 2.2).
pub(crate) const RECORD_SEPARATOR: u8 = 0x1E;

/// Where the first record separator stands from `start` up to `end`.
pub(crate) fn next_separator(text: &[u8], start: usize, end: usize) -> Option<usize>
    requires ordered { start ≤ end }
    requires within { end ≤ length text.now }
    ensures none { IfNone result (after_separators start (slice_range text.now start end) ≡ []) }
    ensures within { IfSome result (λ at. (start ≤ at) × (at < end)) }
    ensures before { IfSome result (λ at. before_separator (slice_range text.now start end) ≡ slice_range text.now start at) }
    ensures behind { IfSome result (λ at. after_separators start (slice_range text.now start end) ≡ parts (at + 1) (slice_range text.now (at + 1) end)) }
{
    let skipped = memchr(RECORD_SEPARATOR, &text[start..end])?;
    Some(start + skipped)
}

/// The span from the first record separator of the bytes up to after the last one (RFC 7464, section 2.2); none where
/// there is none.
pub fn separated_part(bytes: &[u8]) -> Option<Span>
    ensures none { IfNone result (HasNoSeparator bytes.now) }
    ensures ordered { IfSome result (λ s. s.start < s.end) }
    ensures within { IfSome result (λ s. s.end ≤ length bytes.now) }
    ensures before { IfSome result (λ s. HasNoSeparator (slice_range bytes.now 0 s.start)) }
    ensures starts { IfSome result (λ s. StartsWithSeparator (slice_range bytes.now s.start s.end)) }
    ensures ends { IfSome result (λ s. EndsWithSeparator (slice_range bytes.now s.start s.end)) }
    ensures behind { IfSome result (λ s. HasNoSeparator (slice_range bytes.now s.end (length bytes.now))) }
{
    let first = memchr(RECORD_SEPARATOR, bytes)?;
    let last = memrchr(RECORD_SEPARATOR, bytes)?;
    Some(Span {
        start: first,
        end: last + 1,
    })
}
