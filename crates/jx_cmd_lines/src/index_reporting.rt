// Writes the index of the lines of an input.
ghost use Rattle.std.specs.Prelude.{◌≡◌, ◌≢◌, ◌↔◌, true, false, IfErr, IsErrOf, OnOk};
ghost use Rattle.std.specs.Io.KnownBytes.{Appends};
ghost use Rattle.jx_ends.specs.Ends.{AppendsBeginning};
ghost use Rattle.jx_file_lines.specs.Spelling.{spelt_lines};
ghost use Rattle.jx_cmd_lines.specs.LineSaves.{SavesLines, SavesLinesInPart};

use crate::line_reading::read_lines;
use jx_ends::{ReportFault, Sink, Source, write_whole};
use jx_file_index::ChunkSize;
use jx_file_lines::LineIndex;
use std::alloc::Global;

/// How many bytes are read at a time. They are looked at before they leave the processor's cache.
const BATCH: usize = 256 * 1024;

/// Writes the bytes of an index. They are made before the first one is written.
fn write_index<W: Sink>(alloc: Global, writer: &mut W, index: &LineIndex) -> Result<(), ReportFault>
    requires { W.has_failed writer.old ≡ false }
    ensures ok { OnOk result (Appends (W.contents writer.old) (W.contents writer.new) (spelt_lines index.now)) }
    ensures write { IsErrOf result ReportFault.Write ↔ (W.has_failed writer.new ≡ true) }
    ensures beginning { IsErrOf result ReportFault.Write → AppendsBeginning (W.contents writer.old) (W.contents writer.new) (spelt_lines index.now) }
    ensures unwritten { IfErr result (λ fault. fault ≢ ReportFault.Write → writer.new ≡ writer.old) }
    ensures unread { IfErr result (λ fault. fault ≢ ReportFault.Read) }
    ensures uncut { IfErr result (λ fault. fault ≢ ReportFault.Pieces) }
{
    let bytes = index.encode(alloc)?;
    write_whole(writer, &bytes)
}

/// Reads to the end of input, and then writes the bytes of the index of its lines, for chunks of this size. It may have any bytes: no line
/// is judged.
///
/// Of the input one batch is kept and less than one chunk, and the entries of its chunks, which are 16 bytes for each. The bytes are made
/// before the first one is written.
pub fn report_line_index<S: Source, W: Sink>(
    alloc: Global,
    reader: &mut S,
    writer: &mut W,
    chunk: ChunkSize,
) -> Result<(), ReportFault>
    requires reader { S.has_failed reader.old ≡ false }
    requires writer { W.has_failed writer.old ≡ false }
    // All that the reader had was read, and its index was written.
    ensures ok { OnOk result (SavesLines chunk (S.remaining reader.old) (S.remaining reader.new) (W.contents writer.old) (W.contents writer.new)) }
    ensures read { IsErrOf result ReportFault.Read ↔ (S.has_failed reader.new ≡ true) }
    ensures write { IsErrOf result ReportFault.Write ↔ (W.has_failed writer.new ≡ true) }
    // After any other fault the writer is as it was.
    ensures unwritten { IfErr result (λ fault. fault ≢ ReportFault.Write → writer.new ≡ writer.old) }
    // After a write fault all was read, and a beginning of its index was written.
    ensures beginning { IsErrOf result ReportFault.Write → SavesLinesInPart chunk (S.remaining reader.old) (S.remaining reader.new) (W.contents writer.old) (W.contents writer.new) }
    ensures uncut { IfErr result (λ fault. fault ≢ ReportFault.Pieces) }
{
    let index = read_lines(alloc, reader, chunk, BATCH)?;
    write_index(alloc, writer, &index)
}
