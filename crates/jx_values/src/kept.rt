// Bytes of a text that is read batch by batch, from an offset on.
ghost use Rattle.std.specs.Prelude.{◌≡◌, ◌+◌, ◌<◌, ◌^◌, ◌++◌, ℕ, List, length, slice_range, IfSome, OnOk};
ghost use Rattle.jx_values.specs.inside.Kept.{IsKept, IsKeptOf};

use jx_lex::Span;
use std::alloc::{AllocError, Global};

/// Some bytes of a text, and where the first one stands in it.
#[derive(Drop)]
pub struct Kept {
    pub from: usize,
    pub bytes: Vec<u8>,
}

impl Kept {
    /// None, of any text.
    pub(crate) fn new(alloc: Global) -> Kept
        ensures { (text : List ℕ) → IsKeptOf text result }
    {
        Kept {
            from: 0,
            bytes: Vec::new(alloc),
        }
    }

    /// Takes in what is wanted of a batch after so many bytes. What was kept is let go where none of it is wanted any
    /// more.
    pub(crate) fn keep(&mut self, batch: &[u8], base: usize, wanted: Span) -> Result<(), AllocError>
        requires { base + length batch.now < 2 ^ 64 }
        ensures { OnOk result ((text : List ℕ) → length text ≡ base → IsKept text self.old.from self.old.bytes.items
            → IsKept (text ++ batch.now) self.new.from self.new.bytes.items) }
    {
        let to = wanted.end.saturating_sub(base).min(batch.len());
        if wanted.start >= base {
            let skipped = (wanted.start - base).min(to);
            self.from = base + skipped;
            self.bytes.clear();
            self.bytes.extend_from_slice(&batch[skipped..to])?;
            return Ok(());
        }
        if self.from <= base && self.bytes.len() == base - self.from {
            self.bytes.extend_from_slice(&batch[..to])?;
            return Ok(());
        }
        Ok(())
    }

    /// A span of the text in the bytes that these are appended to, of which there are so many, if these have it.
    pub(crate) fn span_among(&self, before: usize, span: Span) -> Option<Span>
        ensures { IfSome result (λ here. (text front more : List ℕ) → IsKeptOf text self.now → length front ≡ before
            → slice_range ((front ++ self.now.bytes.items) ++ more) here.start here.end ≡ slice_range text span.start span.end) }
    {
        if span.start < self.from {
            return None;
        }
        if span.end < span.start {
            return None;
        }
        if self.bytes.len() < span.end - self.from {
            return None;
        }
        let Some(start) = before.checked_add(span.start - self.from) else {
            return None;
        };
        let Some(end) = before.checked_add(span.end - self.from) else {
            return None;
        };
        Some(Span { start, end })
    }

    /// Appends these bytes to others. Where there are no others, nothing is copied.
    pub(crate) fn append_to(self, bytes: &mut Vec<u8>) -> Result<(), AllocError>
        ensures { OnOk result (bytes.new.items ≡ bytes.old.items ++ self.bytes.items) }
    {
        if bytes.is_empty() {
            *bytes = self.bytes;
            return Ok(());
        }
        bytes.extend_from_slice(&self.bytes)
    }
}
