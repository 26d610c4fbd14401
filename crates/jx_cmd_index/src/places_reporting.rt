// Where pointers lead in a text of which an index is saved.
ghost use Rattle.std.specs.Prelude.{◌≡◌, ◌≢◌, ◌↔◌, ◌⊎◌, true, false, map, string_bytes, IfOk, IfErr, IsErrOf, OnOk};
ghost use Rattle.std.specs.Io.KnownBytes.{Appends};
ghost use Rattle.jx_ends.specs.Ends.{AppendsBeginning};
ghost use Rattle.jx_cmd_index.specs.PlaceReports.{FailsFor, IsOfText, WritesPlaces, WritesPlacesInPart};

use crate::look_fault::LookFault;
use crate::looking::{Looked, look_up};
use crate::place_lines::lines_of;
use crate::read_at::ReadAt;
use jx_ends::{Exit, Sink, Source, write_whole};
use std::alloc::Global;

/// Writes all of these bytes.
pub(crate) fn write_lines<W: Sink>(writer: &mut W, bytes: &[u8]) -> Result<(), LookFault>
    requires { W.has_failed writer.old ≡ false }
    ensures ok { OnOk result (Appends (W.contents writer.old) (W.contents writer.new) bytes.now) }
    ensures beginning { IsErrOf result LookFault.Write → AppendsBeginning (W.contents writer.old) (W.contents writer.new) bytes.now }
    ensures fault { IfErr result (λ fault. fault ≡ LookFault.Write) }
    ensures write { IsErrOf result LookFault.Write ↔ (W.has_failed writer.new ≡ true) }
{
    match write_whole(writer, bytes) {
        Ok(()) => Ok(()),
        Err(_) => Err(LookFault::Write),
    }
}

/// Reads an index to its end, looks pointers up in the text by it, and writes a line for each, in order, as `at` does.
/// The status is good where each is found.
///
/// The index is kept, and of the text one chunk. Bytes that are not an index, or an index of a text with another size,
/// are reported before a byte of the text is read. Each chunk that is read is checked against its checksum; those that
/// are not read may have changed. All lines are made before the first one is written.
pub fn report_places<S: Source, F: ReadAt, W: Sink>(
    alloc: Global,
    saved: &mut S,
    file: &mut F,
    writer: &mut W,
    pointers: &[String],
) -> Result<Exit, LookFault>
    requires saved { S.has_failed saved.old ≡ false }
    requires file { F.has_failed file.old ≡ false }
    requires writer { W.has_failed writer.old ≡ false }
    // The output is that of `at` on the text that was indexed.
    ensures ok { IfOk result (λ exit. WritesPlaces (map string_bytes pointers.now) (S.remaining saved.old) (F.content file.old)
        (W.contents writer.old) (W.contents writer.new) exit) }
    ensures saved_read { IsErrOf result LookFault.SavedRead ↔ (S.has_failed saved.new ≡ true) }
    ensures read { IsErrOf result LookFault.TextRead ↔ (F.has_failed file.new ≡ true) }
    ensures write { IsErrOf result LookFault.Write ↔ (W.has_failed writer.new ≡ true) }
    // After any other fault the writer is as it was.
    ensures unwritten { IfErr result (λ fault. fault ≢ LookFault.Write → writer.new ≡ writer.old) }
    // After a write fault a beginning of the output was written.
    ensures beginning { IsErrOf result LookFault.Write → WritesPlacesInPart (map string_bytes pointers.now) (S.remaining saved.old) (F.content file.old)
        (W.contents writer.old) (W.contents writer.new) }
    // Each fault of the index or of the text is one.
    ensures fault { IfErr result (FailsFor (S.remaining saved.old) (F.content file.old)) }
    // A fault of the index is reported before the text is read.
    ensures unread { IfErr result (λ fault. IsOfText fault ⊎ (fault ≡ LookFault.Write) ⊎ (file.new ≡ file.old)) }
{
    let Looked { answers, .. } = look_up(alloc, saved, file, pointers)?;
    let lines = lines_of(alloc, &answers)?;
    write_lines(writer, &lines.bytes)?;
    Ok(lines.exit)
}
