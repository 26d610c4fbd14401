// Pointers are looked up in a text of which an index is saved.
ghost use Rattle.std.specs.Prelude.{◌≡◌, ◌↔◌, true, false, Some, ℕ, List, IfOk, IfErr, IsErrOf};
ghost use Rattle.jx_run.specs.declared.texts.settings.Settings.{Settings};
ghost use Rattle.jx_index.specs.Found.{AreFoundIn};
ghost use Rattle.jx_file_query.specs.Walk.{HasCome};
ghost use Rattle.jx_cmd_index.specs.inside.Faults.{IsChange};
ghost use Rattle.jx_cmd_index.specs.Offsets.{HasSize};
ghost use Rattle.jx_cmd_index.specs.PlaceReports.{IsOfText};
ghost use Rattle.jx_cmd_index.specs.SavedBytes.{IsKeptOf, TellsApart};

use crate::file_part::read_part;
use crate::look_fault::{LookFault, walk_fault};
use crate::read_at::ReadAt;
use jx_file_index::SavedText;
use jx_file_query::Walk;
use jx_index::{FindFault, Found, Pointer};
use std::alloc::{AllocError, Global};

/// A walk for pointers in the text of which this is saved, by the tables of its names too, if there are any.
fn walk_by<'a, 'p>(
    alloc: Global,
    saved: &'a SavedText,
    pointers: Vec<Pointer<'p>>,
) -> Result<Walk<'a, 'p>, AllocError>
    ensures index { IfOk result (λ walk. walk.index.now ≡ saved.now.index) }
    ensures come { IfOk result (λ walk. (settings : Settings) (chunk : ℕ) (text : List ℕ) → IsKeptOf settings chunk text saved.now
        → HasCome settings chunk text pointers.entry.items walk) }
{
    match &saved.names {
        Some(tables) => Walk::with_names(alloc, &saved.index, tables, pointers),
        None => Walk::new(alloc, &saved.index, pointers),
    }
}

/// The answer to each pointer, in order, in the text of which this is saved. Of the file those chunks are read that
/// have to be, one at a time.
pub(crate) fn found_in<F: ReadAt>(
    alloc: Global,
    file: &mut F,
    saved: &SavedText,
    pointers: Vec<Pointer<'_>>,
) -> Result<Vec<Result<Found, FindFault>>, LookFault>
    requires unfailed { F.has_failed file.old ≡ false }
    requires size { HasSize (F.content file.old) saved.now.index.size }
    ensures found { IfOk result (λ found. (settings : Settings) (chunk : ℕ) (text bytes : List ℕ) → IsKeptOf settings chunk text saved.now → F.content file.old ≡ Some bytes
        → TellsApart chunk text bytes → AreFoundIn settings text pointers.entry.items found.items) }
    ensures changed { IfErr result (λ fault. (settings : Settings) (chunk : ℕ) (text bytes : List ℕ) → IsKeptOf settings chunk text saved.now → F.content file.old ≡ Some bytes
        → TellsApart chunk text bytes → IsChange text bytes fault) }
    ensures kept { F.content file.new ≡ F.content file.old }
    ensures read { IsErrOf result LookFault.TextRead ↔ (F.has_failed file.new ≡ true) }
    ensures fault { IfErr result IsOfText }
{
    let mut walk = walk_by(alloc, saved, pointers)?;
    let mut bytes = Vec::new(alloc);
    'chunks: while let Some(span) = walk.needs() {
        read_part(file, &mut bytes, span)?;
        if let Err(fault) = walk.give(&bytes)? {
            return Err(walk_fault(fault));
        }
    }
    match walk.answers()? {
        Ok(found) => Ok(found),
        Err(fault) => Err(walk_fault(fault)),
    }
}
