// The parts of a container, in a text of which an index is saved.
ghost use Rattle.std.specs.Prelude.{◌≡◌, ◌==◌, ◌↔◌, [], ◌∷◌, true, false, if◌then◌else◌, Some, ℕ, List, length, slice_get, IfOk, IfErr, IsErrOf};
ghost use Rattle.jx_run.specs.declared.texts.settings.Settings.{Settings};
ghost use Rattle.jx_run.specs.Laws.{span_of};
ghost use Rattle.jx_run.specs.Tree.{Tree};
ghost use Rattle.jx_index.specs.Found.{IsFoundIn};
ghost use Rattle.jx_index.specs.Pointers.{tokens};
ghost use Rattle.jx_file_index.specs.Index.{IsIndexOf};
ghost use Rattle.jx_file_query.specs.Parts.{IsContainer, IsIn, parts_of};
ghost use Rattle.jx_cmd_index.specs.inside.Faults.{IsChange};
ghost use Rattle.jx_cmd_index.specs.inside.Splitting.{AreSplit};
ghost use Rattle.jx_cmd_index.specs.Offsets.{HasSize};
ghost use Rattle.jx_cmd_index.specs.PlaceReports.{IsOfText};
ghost use Rattle.jx_cmd_index.specs.SavedBytes.{IsKeptOf, TellsApart};

use crate::file_part::read_part;
use crate::look_fault::{LookFault, walk_fault};
use crate::read_at::ReadAt;
use crate::walking::found_in;
use jx_file_index::{Index, SavedText};
use jx_file_query::{Aim, ContainerPart, Split};
use jx_index::{FindFault, Found, Pointer};
use jx_lex::Kind;
use jx_words::{PointerAnswer, ReadPointer, read_pointer};
use std::alloc::{AllocError, Global};

/// How many slashes a byte is.
fn slash_count(byte: u8) -> usize
    ensures { result ≡ (if byte == 0x2f then 1 else 0) }
{
    if byte == b'/' { 1 } else { 0 }
}

/// How many tokens a pointer has: one after each slash.
fn token_count(spelt: &str) -> usize
    ensures { result ≡ length (tokens spelt.now) }
{
    let bytes = spelt.as_bytes();
    let mut count = 0;
    'bytes: for at in 0..bytes.len() {
        count += slash_count(bytes[at]);
    }
    count
}

/// Whether a value may have children.
fn is_container(kind: Kind) -> bool
    ensures yes { result ≡ true → IsContainer kind }
    ensures no { result ≡ false → IsContainer kind → ⊥ }
{
    matches!(kind, Kind::Array | Kind::Object)
}

/// The parts of the container with this span, if there is one in the text with this index. Of the file those chunks are read in
/// which a part begins or ends.
fn parts_in<F: ReadAt>(
    alloc: Global,
    file: &mut F,
    index: &Index,
    aim: Aim,
) -> Result<Vec<ContainerPart>, LookFault>
    requires unfailed { F.has_failed file.old ≡ false }
    requires size { HasSize (F.content file.old) index.now.size }
    ensures parts { IfOk result (λ parts. (settings : Settings) (chunk : ℕ) (text bytes : List ℕ) (container : Tree) → IsIndexOf settings chunk text index.now → F.content file.old ≡ Some bytes
        → TellsApart chunk text bytes → IsIn settings text container → span_of container ≡ aim.whole → parts.items ≡ parts_of aim.parts text container) }
    ensures changed { IfErr result (λ fault. (settings : Settings) (chunk : ℕ) (text bytes : List ℕ) (container : Tree) → IsIndexOf settings chunk text index.now → F.content file.old ≡ Some bytes
        → TellsApart chunk text bytes → IsIn settings text container → span_of container ≡ aim.whole → IsChange text bytes fault) }
    ensures read { IsErrOf result LookFault.TextRead ↔ (F.has_failed file.new ≡ true) }
    ensures fault { IfErr result IsOfText }
{
    let mut split = Split::new(alloc, index, aim);
    let mut bytes = Vec::new(alloc);
    'chunks: while let Some(span) = split.needs() {
        read_part(file, &mut bytes, span)?;
        if let Err(fault) = split.give(&bytes)? {
            return Err(walk_fault(fault));
        }
    }
    match split.parts()? {
        Ok(parts) => Ok(parts),
        Err(fault) => Err(walk_fault(fault)),
    }
}

/// A pointer alone.
fn one_pointer(alloc: Global, pointer: Pointer<'_>) -> Result<Vec<Pointer<'_>>, AllocError>
    ensures { IfOk result (λ pointers. pointers.items ≡ pointer.entry ∷ []) }
{
    let mut pointers = Vec::new(alloc);
    pointers.push(pointer)?;
    Ok(pointers)
}

/// The answer to the first of several pointers.
fn first_of(found: &[Result<Found, FindFault>]) -> Option<Result<Found, FindFault>>
    ensures { result ≡ slice_get found.now 0 }
{
    found.get(0).copied()
}

/// The answer to a pointer in the text of which this is saved.
fn found_one<F: ReadAt>(
    alloc: Global,
    file: &mut F,
    saved: &SavedText,
    pointer: Pointer<'_>,
) -> Result<Result<Found, FindFault>, LookFault>
    requires unfailed { F.has_failed file.old ≡ false }
    requires size { HasSize (F.content file.old) saved.now.index.size }
    ensures found { IfOk result (λ found. (settings : Settings) (chunk : ℕ) (text bytes : List ℕ) → IsKeptOf settings chunk text saved.now → F.content file.old ≡ Some bytes
        → TellsApart chunk text bytes → IsFoundIn settings text pointer.entry found) }
    ensures changed { IfErr result (λ fault. (settings : Settings) (chunk : ℕ) (text bytes : List ℕ) → IsKeptOf settings chunk text saved.now → F.content file.old ≡ Some bytes
        → TellsApart chunk text bytes → IsChange text bytes fault) }
    ensures kept { F.content file.new ≡ F.content file.old }
    ensures read { IsErrOf result LookFault.TextRead ↔ (F.has_failed file.new ≡ true) }
    ensures fault { IfErr result IsOfText }
{
    let pointers = one_pointer(alloc, pointer)?;
    let found = found_in(alloc, file, saved, pointers)?;
    match first_of(&found) {
        Some(one) => Ok(one),
        None => Err(LookFault::Memory),
    }
}

/// The parts of the container that a string, read as a pointer, leads to in the text of which this is saved, or why there are none.
pub(crate) fn split_of<F: ReadAt>(
    alloc: Global,
    file: &mut F,
    saved: &SavedText,
    spelt: &str,
    parts: usize,
) -> Result<Result<Vec<ContainerPart>, PointerAnswer>, LookFault>
    requires unfailed { F.has_failed file.old ≡ false }
    requires size { HasSize (F.content file.old) saved.now.index.size }
    ensures split { IfOk result (λ answer. (settings : Settings) (chunk : ℕ) (text bytes : List ℕ) → IsKeptOf settings chunk text saved.now → F.content file.old ≡ Some bytes
        → TellsApart chunk text bytes → AreSplit settings parts spelt.now text answer) }
    ensures changed { IfErr result (λ fault. (settings : Settings) (chunk : ℕ) (text bytes : List ℕ) → IsKeptOf settings chunk text saved.now → F.content file.old ≡ Some bytes
        → TellsApart chunk text bytes → IsChange text bytes fault) }
    ensures read { IsErrOf result LookFault.TextRead ↔ (F.has_failed file.new ≡ true) }
    ensures fault { IfErr result IsOfText }
{
    let ReadPointer { pointer, unread } = read_pointer(spelt);
    if let Some(fault) = unread {
        return Ok(Err(PointerAnswer::Unread(fault)));
    }
    let found = match found_one(alloc, file, saved, pointer)? {
        Ok(found) => found,
        Err(fault) => return Ok(Err(PointerAnswer::Lost(fault))),
    };
    if !is_container(found.kind) {
        let token = token_count(spelt);
        return Ok(Err(PointerAnswer::Lost(FindFault::NotAContainer { token })));
    }
    let whole = found.span;
    let parts = parts_in(alloc, file, &saved.index, Aim { whole, parts })?;
    Ok(Ok(parts))
}
