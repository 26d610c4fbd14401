// The run of a part of a text, which is read batch by batch.
ghost use Rattle.std.specs.Prelude.{◌≡◌, ◌≢◌, ◌+◌, ◌<◌, ◌≤◌, ◌^◌, ◌↔◌, ◌++◌, ℕ, List, [], Option, length, true, false, IfOk, IfErr, IsErrOf};
ghost use Rattle.jx_portion.specs.Portion.{IsPortion};
ghost use Rattle.jx_parts.specs.inside.Reading.{IsRead};

use jx_ends::{ReportFault, Source, fill_buffer};
use jx_lex::Depth;
use jx_portion::Portion;
use std::alloc::{AllocError, Global};

/// How many bytes of a part are read at a time.
pub(crate) const BATCH: usize = 256 * 1024;

/// The run of a part with more bytes after it. It is also out of memory where the last of them has no offset.
fn with_batch(alloc: Global, portion: Portion, batch: &[u8]) -> Result<Portion, AllocError>
    ensures below { portion.run.end < 2 ^ 64 }
    ensures grows { IfOk result (λ p. p.run.end ≡ portion.run.end + length batch.now) }
    ensures of { IfOk result (λ p. (text : List ℕ) (from : Option ℕ) (depth : ℕ) → IsPortion text from depth portion
        → IsPortion (text ++ batch.now) from depth p) }
{
    if batch.len() > usize::MAX - portion.end() {
        return Err(AllocError);
    }
    portion.and(alloc, batch)
}

/// Reads to the end of input, so many bytes at a time, and answers their run.
pub(crate) fn read_portion<S: Source>(
    alloc: Global,
    reader: &mut S,
    from: Option<usize>,
    depth: Depth,
    batch: usize,
) -> Result<Portion, ReportFault>
    requires unfailed { S.has_failed reader.old ≡ false }
    requires some { 1 ≤ batch }
    ensures ok { IfOk result (IsRead from depth (S.remaining reader.old) (S.remaining reader.new)) }
    ensures read { IsErrOf result ReportFault.Read ↔ (S.has_failed reader.new ≡ true) }
    ensures unwritten { IfErr result (λ fault. fault ≢ ReportFault.Write) }
{
    let mut buffer = Vec::new(alloc);
    let mut portion = Portion::of(alloc, &[], from, depth)?;
    loop {
        let filled = fill_buffer(reader, &mut buffer, batch)?;
        portion = with_batch(alloc, portion, &buffer[..filled])?;
        if filled < batch {
            return Ok(portion);
        }
    }
}
