// Pointers are looked up by an index that is read.
ghost use Rattle.std.specs.Prelude.{◌≡◌, ◌≢◌, ◌↔◌, ◌⊎◌, true, false, map, string_bytes, IfOk, IfErr, IsErrOf};
ghost use Rattle.jx_cmd_index.specs.inside.Looked.{AreAnswersBySaved, IsReadOf};
ghost use Rattle.jx_cmd_index.specs.Offsets.{HasSize};
ghost use Rattle.jx_cmd_index.specs.PlaceReports.{FailsFor, IsOfText};

use crate::answers::answers_of;
use crate::look_fault::LookFault;
use crate::read_at::ReadAt;
use crate::saved_reading::read_saved;
use jx_ends::Source;
use jx_file_index::Index;
use jx_words::PointerAnswer;
use std::alloc::Global;

/// The answers to pointers in a text, and the index that they were looked up by.
#[derive(Debug, Drop)]
pub(crate) struct Looked {
    pub index: Index,
    /// For each pointer, in order.
    pub answers: Vec<PointerAnswer>,
}

/// Reads an index to its end, and looks strings up as pointers (RFC 6901, section 4) in the text by it.
///
/// With tables of the text's names after the index fewer chunks are read; the answers are the same. The index is kept,
/// and of the text one chunk. Bytes that are not an index, or an index of a text with another size, are reported before
/// a byte of the text is read. Each chunk that is read is checked against its checksum; those that are not read may
/// have changed.
pub(crate) fn look_up<S: Source, F: ReadAt>(
    alloc: Global,
    saved: &mut S,
    file: &mut F,
    pointers: &[String],
) -> Result<Looked, LookFault>
    requires saved { S.has_failed saved.old ≡ false }
    requires file { F.has_failed file.old ≡ false }
    // The index is that of the text, and the answers are those in the text that was indexed.
    ensures index { IfOk result (λ looked. IsReadOf (S.remaining saved.old) looked.index) }
    ensures answers { IfOk result (λ looked. AreAnswersBySaved (map string_bytes pointers.now) (S.remaining saved.old) (F.content file.old) looked.answers.items) }
    // The file is as long as the text, and stays as it is.
    ensures size { IfOk result (λ looked. HasSize (F.content file.old) looked.index.size) }
    ensures kept { F.content file.new ≡ F.content file.old }
    ensures saved_read { IsErrOf result LookFault.SavedRead ↔ (S.has_failed saved.new ≡ true) }
    ensures read { IsErrOf result LookFault.TextRead ↔ (F.has_failed file.new ≡ true) }
    // Each fault of the index or of the text is one.
    ensures fault { IfErr result (FailsFor (S.remaining saved.old) (F.content file.old)) }
    ensures unwritten { IfErr result (λ fault. fault ≢ LookFault.Write) }
    // A fault of the index is reported before the text is read.
    ensures unread { IfErr result (λ fault. IsOfText fault ⊎ (file.new ≡ file.old)) }
{
    let read = read_saved(alloc, saved, file.size())?;
    let answers = answers_of(alloc, file, &read, pointers)?;
    Ok(Looked {
        index: read.index,
        answers,
    })
}
