// Values of a text of which an index is saved.
ghost use Rattle.std.specs.Prelude.{◌≡◌, ◌≢◌, ◌↔◌, ◌⊎◌, true, false, map, string_bytes, IfOk, IfErr, IsErrOf, OnErr};
ghost use Rattle.jx_cmd_index.specs.PlaceReports.{FailsFor, IsOfText};
ghost use Rattle.jx_cmd_index.specs.ValueReports.{WritesFirst, WritesFirstInPart, WritesValues};

use crate::look_fault::LookFault;
use crate::looking::{Looked, look_up};
use crate::read_at::ReadAt;
use crate::value_lines::write_answers;
use jx_ends::{Exit, Sink, Source};
use jx_values::{Form, exit_by, tell};
use std::alloc::Global;

/// Reads an index to its end, looks pointers up in the text by it, and writes a line for each, in their order, as `get`
/// does: the bytes of its value, their compact form, or where texts are asked for that of a string. The line is empty
/// where there is none of these. After that it reports why, by a line `POINTER: ANSWER`. The status is good where
/// nothing is reported.
///
/// The index is kept, and of the text a chunk and a value at a time. Bytes that are not an index, or an index of a text
/// with another size, are reported before a byte of the text is read. Each chunk that is read is checked against its
/// checksum, those of values too; others may have changed. The line of a value is written once all its bytes were
/// checked against their checksums. So a fault of the text leaves whole lines, those of the first of the pointers.
pub fn report_values_by_index<S: Source, F: ReadAt, W: Sink, E: Sink>(
    alloc: Global,
    saved: &mut S,
    file: &mut F,
    writer: &mut W,
    errors: &mut E,
    pointers: &[String],
    form: Form,
) -> Result<Exit, LookFault>
    requires saved { S.has_failed saved.old ≡ false }
    requires file { F.has_failed file.old ≡ false }
    requires writer { W.has_failed writer.old ≡ false }
    // The output and the report are those of `get` of the text that was indexed.
    ensures ok { IfOk result (λ exit. WritesValues form (map string_bytes pointers.now) (S.remaining saved.old) (F.content file.old)
        (W.contents writer.old) (W.contents writer.new) (E.has_failed errors.new) (E.contents errors.old) (E.contents errors.new) exit) }
    ensures saved_read { IsErrOf result LookFault.SavedRead ↔ (S.has_failed saved.new ≡ true) }
    ensures read { IsErrOf result LookFault.TextRead ↔ (F.has_failed file.new ≡ true) }
    ensures write { IsErrOf result LookFault.Write ↔ (W.has_failed writer.new ≡ true) }
    // After any other fault the writer is as it was, or has the lines of the first of the pointers.
    ensures first { IfErr result (λ fault. fault ≢ LookFault.Write → (writer.new ≡ writer.old) ⊎ WritesFirst form (map string_bytes pointers.now)
        (S.remaining saved.old) (F.content file.old) (W.contents writer.old) (W.contents writer.new)) }
    // After a write fault a beginning of such lines was written.
    ensures beginning { IsErrOf result LookFault.Write → WritesFirstInPart form (map string_bytes pointers.now)
        (S.remaining saved.old) (F.content file.old) (W.contents writer.old) (W.contents writer.new) }
    // After each fault nothing was reported.
    ensures untold { OnErr result (errors.new ≡ errors.old) }
    // Each fault of the index or of the text is one.
    ensures fault { IfErr result (FailsFor (S.remaining saved.old) (F.content file.old)) }
    // A fault of the index is reported before the text is read, and before anything is written.
    ensures unread { IfErr result (λ fault. IsOfText fault ⊎ (fault ≡ LookFault.Write) ⊎ ((file.new ≡ file.old) × (writer.new ≡ writer.old))) }
{
    let Looked { index, answers } = look_up(alloc, saved, file, pointers)?;
    let told = write_answers(alloc, file, &index, writer, form, pointers, &answers)?;
    tell(errors, &told);
    Ok(exit_by(&told))
}
