// The index of the lines of what a reader gives.
ghost use Rattle.std.specs.Prelude.{◌≡◌, ◌≢◌, ◌≤◌, ◌↔◌, true, false, IfErr, IfOk, IsErrOf};
ghost use Rattle.jx_ends.specs.declared.report_fault.ReportFault.TheVariants.{Read, Write};
ghost use Rattle.jx_cmd_lines.specs.inside.Reading.{IsIndexed};

use jx_ends::{ReportFault, Source, fill_buffer};
use jx_file_index::ChunkSize;
use jx_file_lines::{LineIndex, LineIndexer};
use std::alloc::Global;

/// Reads to the end of input, so many bytes at a time, and answers the index of their lines.
pub(crate) fn read_lines<S: Source>(
    alloc: Global,
    reader: &mut S,
    chunk: ChunkSize,
    batch: usize,
) -> Result<LineIndex, ReportFault>
    requires unfailed { S.has_failed reader.old ≡ false }
    requires some { 1 ≤ batch }
    ensures ok { IfOk result (IsIndexed chunk (S.remaining reader.old) (S.remaining reader.new)) }
    ensures read { IsErrOf result ReportFault.Read ↔ (S.has_failed reader.new ≡ true) }
    ensures unwritten { IfErr result (λ fault. fault ≢ ReportFault.Write) }
    ensures uncut { IfErr result (λ fault. fault ≢ ReportFault.Pieces) }
{
    let mut buffer = Vec::new(alloc);
    let mut indexer = LineIndexer::new(alloc, chunk);
    'batches: for _ in 0..u64::MAX {
        let filled = fill_buffer(reader, &mut buffer, batch)?;
        indexer.feed(&buffer[..filled])?;
        if filled < batch {
            let index = indexer.finish()?;
            return Ok(index);
        }
    }
    // There are more bytes than a word counts.
    Err(ReportFault::Memory)
}
