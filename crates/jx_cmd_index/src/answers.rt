// Answers to strings as pointers into a text of which an index is saved.
ghost use Rattle.std.specs.Prelude.{◌≡◌, ◌↔◌, true, false, Some, ℕ, List, map, string_bytes, IfOk, IfErr, IsErrOf};
ghost use Rattle.jx_run.specs.declared.texts.settings.Settings.{Settings};
ghost use Rattle.jx_words.specs.Answers.{AreAnswersIn};
ghost use Rattle.jx_cmd_index.specs.inside.Faults.{IsChange};
ghost use Rattle.jx_cmd_index.specs.Offsets.{HasSize};
ghost use Rattle.jx_cmd_index.specs.PlaceReports.{IsOfText};
ghost use Rattle.jx_cmd_index.specs.SavedBytes.{IsKeptOf, TellsApart};

use crate::look_fault::LookFault;
use crate::read_at::ReadAt;
use crate::walking::found_in;
use jx_file_index::SavedText;
use jx_index::rows_of_look_ups;
use jx_words::{PointerAnswer, ReadPointers, answers_in, read_pointers};
use std::alloc::Global;

/// The answers to strings, in their order, as pointers into the text of which this is saved.
pub(crate) fn answers_of<F: ReadAt>(
    alloc: Global,
    file: &mut F,
    saved: &SavedText,
    spelt: &[String],
) -> Result<Vec<PointerAnswer>, LookFault>
    requires unfailed { F.has_failed file.old ≡ false }
    requires size { HasSize (F.content file.old) saved.now.index.size }
    ensures answers { IfOk result (λ answers. (settings : Settings) (chunk : ℕ) (text bytes : List ℕ) → IsKeptOf settings chunk text saved.now → F.content file.old ≡ Some bytes
        → TellsApart chunk text bytes → AreAnswersIn settings text (map string_bytes spelt.now) answers.items) }
    ensures changed { IfErr result (λ fault. (settings : Settings) (chunk : ℕ) (text bytes : List ℕ) → IsKeptOf settings chunk text saved.now → F.content file.old ≡ Some bytes
        → TellsApart chunk text bytes → IsChange text bytes fault) }
    ensures kept { F.content file.new ≡ F.content file.old }
    ensures read { IsErrOf result LookFault.TextRead ↔ (F.has_failed file.new ≡ true) }
    ensures fault { IfErr result IsOfText }
{
    rows_of_look_ups();
    let ReadPointers { pointers, unread } = read_pointers(alloc, spelt)?;
    let found = found_in(alloc, file, saved, pointers)?;
    Ok(answers_in(alloc, &unread, &found)?)
}
