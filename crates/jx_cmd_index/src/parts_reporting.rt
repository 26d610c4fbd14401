// The parts of a container, in a text of which an index is saved, are written.
ghost use Rattle.std.specs.Prelude.{◌≡◌, ◌≢◌, ◌↔◌, ◌⊎◌, true, false, IfOk, IfErr, IsErrOf, OnErr};
ghost use Rattle.jx_cmd_index.specs.PartReports.{WritesParts, WritesPartsInPart};
ghost use Rattle.jx_cmd_index.specs.PlaceReports.{FailsFor, IsOfText};

use crate::look_fault::LookFault;
use crate::part_lines::{part_lines, told_of};
use crate::places_reporting::write_lines;
use crate::read_at::ReadAt;
use crate::saved_reading::read_saved;
use crate::splitting::split_of;
use jx_ends::{Exit, Sink, Source};
use jx_values::tell;
use std::alloc::Global;

/// Reads an index to its end, and writes a line `S..E I..J` for each part of a container of its text that has a child.
/// The container is the one that a string, read as a pointer, leads to; where it leads to none, nothing is written, and
/// `POINTER: WORDS` is reported. The status is good where nothing is reported.
///
/// The index is kept, and of the text one chunk; each part takes a few words. The report on the index, of the size of
/// the text and of chunks is as by `report_places`. All lines are made before the first one is written.
pub fn report_parts<S: Source, F: ReadAt, W: Sink, E: Sink>(
    alloc: Global,
    saved: &mut S,
    file: &mut F,
    writer: &mut W,
    errors: &mut E,
    pointer: &str,
    parts: usize,
) -> Result<Exit, LookFault>
    requires saved { S.has_failed saved.old ≡ false }
    requires file { F.has_failed file.old ≡ false }
    requires writer { W.has_failed writer.old ≡ false }
    // The output has the parts of the text that was indexed.
    ensures ok { IfOk result (λ exit. WritesParts parts pointer.now (S.remaining saved.old) (F.content file.old) (W.contents writer.old) (W.contents writer.new)
        (E.has_failed errors.new) (E.contents errors.old) (E.contents errors.new) exit) }
    ensures saved_read { IsErrOf result LookFault.SavedRead ↔ (S.has_failed saved.new ≡ true) }
    ensures read { IsErrOf result LookFault.TextRead ↔ (F.has_failed file.new ≡ true) }
    ensures write { IsErrOf result LookFault.Write ↔ (W.has_failed writer.new ≡ true) }
    // After any other fault the writer is as it was, and after each fault nothing was reported.
    ensures unwritten { IfErr result (λ fault. fault ≢ LookFault.Write → writer.new ≡ writer.old) }
    ensures untold { OnErr result (errors.new ≡ errors.old) }
    // After a write fault a beginning of the output was written.
    ensures beginning { IsErrOf result LookFault.Write → WritesPartsInPart parts pointer.now (S.remaining saved.old) (F.content file.old) (W.contents writer.old) (W.contents writer.new) }
    // Each fault of the index or of the text is one.
    ensures fault { IfErr result (FailsFor (S.remaining saved.old) (F.content file.old)) }
    // A fault of the index is reported before the text is read.
    ensures unread { IfErr result (λ fault. IsOfText fault ⊎ (fault ≡ LookFault.Write) ⊎ (file.new ≡ file.old)) }
{
    let read = read_saved(alloc, saved, file.size())?;
    match split_of(alloc, file, &read, pointer, parts)? {
        Ok(parts) => {
            let lines = part_lines(alloc, &parts)?;
            write_lines(writer, &lines)?;
            Ok(Exit::Good)
        }
        Err(answer) => {
            let told = told_of(alloc, pointer, answer)?;
            tell(errors, &told);
            Ok(Exit::Bad)
        }
    }
}
