// Writes the index of an input, or reports why there is none.
ghost use Rattle.std.specs.Prelude.{◌≡◌, ◌≢◌, ◌↔◌, true, false, IfOk, IfErr, IsErrOf, OnErr};
ghost use Rattle.jx_cmd_index.specs.SaveReports.{ReportsIndex, ReportsIndexInPart};

use crate::saved_showing::show_saved;
use crate::text_reading::read_text;
use jx_ends::{Exit, ReportFault, Sink, Source};
use jx_file_index::ChunkSize;
use jx_run::Settings;
use std::alloc::Global;

/// How many bytes are read at a time, at least. They are looked at before they leave the processor's cache.
const BATCH: usize = 256 * 1024;

/// Reads a text to the end of input, and then writes the bytes of its index, for chunks of this size, with tables of
/// its names after it where these are asked for. Of an input that is refused nothing is written, and its verdict is
/// reported. The status is good where nothing is reported.
///
/// Of the input one batch is kept, or one chunk where that is longer, and the entries of its chunks, which are 24 bytes
/// for each; where names have to be unique, also the names of open objects; and with tables four bytes for each name
/// that they have. The bytes are made before the first one is written. Where reporting fails, the status is the same.
pub fn report_index<S: Source, W: Sink, E: Sink>(
    alloc: Global,
    reader: &mut S,
    writer: &mut W,
    errors: &mut E,
    settings: &Settings,
    chunk: ChunkSize,
    has_names: bool,
) -> Result<Exit, ReportFault>
    requires reader { S.has_failed reader.old ≡ false }
    requires writer { W.has_failed writer.old ≡ false }
    // All that the reader had was read, and its whole output was written and told.
    ensures ok { IfOk result (λ exit. ReportsIndex has_names settings.now chunk (S.remaining reader.old) (S.remaining reader.new)
        (W.contents writer.old) (W.contents writer.new) (E.has_failed errors.new) (E.contents errors.old) (E.contents errors.new) exit) }
    ensures read { IsErrOf result ReportFault.Read ↔ (S.has_failed reader.new ≡ true) }
    ensures write { IsErrOf result ReportFault.Write ↔ (W.has_failed writer.new ≡ true) }
    // After any other fault the writer is as it was, and after each fault nothing was reported.
    ensures unwritten { IfErr result (λ fault. fault ≢ ReportFault.Write → writer.new ≡ writer.old) }
    ensures untold { OnErr result (errors.new ≡ errors.old) }
    // After a write fault all was read, it is a text, and a beginning of its output was written.
    ensures beginning { IsErrOf result ReportFault.Write → ReportsIndexInPart has_names settings.now chunk (S.remaining reader.old)
        (S.remaining reader.new) (W.contents writer.old) (W.contents writer.new) }
    ensures uncut { IfErr result (λ fault. fault ≢ ReportFault.Pieces) }
{
    let batch = BATCH.max(chunk.bytes());
    let read = read_text(alloc, reader, settings, chunk, has_names, batch)?;
    show_saved(alloc, writer, errors, read)
}
