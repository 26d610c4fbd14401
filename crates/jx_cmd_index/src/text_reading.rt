// The index of an input that is read batch by batch.
ghost use Rattle.std.specs.Prelude.{◌≡◌, ◌≢◌, ◌≤◌, ◌↔◌, true, false, IfOk, IfErr, IsErrOf};
ghost use Rattle.jx_ends.specs.declared.report_fault.ReportFault.TheVariants.{Read, Write};
ghost use Rattle.jx_cmd_index.specs.inside.Saving.{IsRead};

use crate::saving::Saving;
use jx_ends::{ReportFault, Source, fill_buffer};
use jx_file_index::{ChunkSize, SavedText};
use jx_run::{Refusal, Settings};
use std::alloc::Global;

/// Reads to the end of input, so many bytes at a time, and answers their outcome.
pub(crate) fn read_text<S: Source>(
    alloc: Global,
    reader: &mut S,
    settings: &Settings,
    chunk: ChunkSize,
    has_names: bool,
    batch: usize,
) -> Result<Result<SavedText, Refusal>, ReportFault>
    requires unfailed { S.has_failed reader.old ≡ false }
    requires some { 1 ≤ batch }
    ensures ok { IfOk result (IsRead has_names settings.now chunk (S.remaining reader.old) (S.remaining reader.new)) }
    ensures read { IsErrOf result ReportFault.Read ↔ (S.has_failed reader.new ≡ true) }
    ensures unwritten { IfErr result (λ fault. fault ≢ ReportFault.Write) }
    ensures uncut { IfErr result (λ fault. fault ≢ ReportFault.Pieces) }
{
    let mut buffer = Vec::new(alloc);
    let mut saving = Saving::new(alloc, settings, chunk, has_names);
    'batches: for _ in 0..u64::MAX {
        let filled = fill_buffer(reader, &mut buffer, batch)?;
        saving.feed(&buffer[..filled])?;
        if filled < batch {
            let read = saving.finish()?;
            return Ok(read);
        }
    }
    // There are more bytes than a word counts.
    Err(ReportFault::Memory)
}
