// The index of a text that comes slice by slice, to be saved. Each call takes the text out of the caller's struct and puts it back.
// The calls of the C header have these names without `_non_null`, and answer null pointers.
ghost use Rattle.std.specs.Prelude.{◌≡◌, ◌⊎◌, ◌<◌, ◌≤◌, [], ℕ, Vec, IfOk, None, Some, false, length, true};
ghost use Rattle.std.specs.declared.alloc.Global.{Global};
ghost use Rattle.jx_run.specs.declared.texts.settings.NameRule.TheVariants.{Any};
ghost use Rattle.jx_file_index.specs.Chunks.{IsChunkSize};
ghost use Rattle.jx_c.specs.Compact.{IsPlaced};
ghost use Rattle.jx_c.specs.Saves.{HasEnded, HasRead, IsBegun, IsEndOf, IsFed};
ghost use Rattle.jx_c.specs.Settings.{settings_in};
ghost use Rattle.jx_c.specs.declared.saving.saver.Saver.{Saver};
ghost use Rattle.jx_c.specs.declared.saving.saver.Saver.TheVariants.{Saved};

use crate::runs::put;
use crate::saving::held_save::JxSave;
use crate::saving::saver::Saver;
use crate::shapes::settings::{JxSettings, settings_in};
use crate::shapes::status::{
    DEPTH_TOO_GREAT, NO_MEMORY, NO_ROOM, NO_SAVE, NO_UNIQUE_NAMES, NOT_A_CHUNK, NOT_BEGUN, OK,
    UNKNOWN_FLAG,
};
use crate::shapes::unboxed::sent;
use crate::shapes::verdict::{JxVerdict, shown};
use jx_file_build::Indexer;
use jx_file_index::ChunkSize;
use jx_run::{NameRule, Settings, Verdict};
use std::alloc::{AllocError, Global};

/// A text of which no byte was fed.
fn boxed(
    alloc: Global,
    settings: &Settings,
    chunk: ChunkSize,
    has_names: bool,
) -> Result<Box<Saver>, AllocError>
    requires { settings.now.names ≡ Any }
    ensures { IfOk result (λ whole. HasRead has_names settings.now chunk [] whole.value) }
{
    let saver = Saver::Reading(Indexer::new(alloc, settings, chunk, has_names));
    Ok(Box::new(alloc, sent(saver))?)
}

/// Begins a text, for an index with tables of names or without. The text that the struct held is freed.
fn begin(
    alloc: Global,
    settings: &JxSettings,
    chunk: usize,
    has_names: bool,
    save: &mut JxSave,
) -> u32
    ensures made { result ≡ OK → IsBegun has_names (settings_in settings.now) chunk save.new.held }
    ensures depth { 65535 < settings.now.depth → result ≡ DEPTH_TOO_GREAT }
    ensures flags { settings.now.depth ≤ 65535 → 3 < settings.now.flags → result ≡ UNKNOWN_FLAG }
    ensures names { settings.now.depth ≤ 65535 → 1 < settings.now.flags → settings.now.flags ≤ 3 → result ≡ NO_UNIQUE_NAMES }
    ensures chunk { settings.now.depth ≤ 65535 → settings.now.flags ≤ 1 → (IsChunkSize chunk → ⊥) → result ≡ NOT_A_CHUNK }
    ensures status { settings.now.depth ≤ 65535 → settings.now.flags ≤ 1 → IsChunkSize chunk → (result ≡ OK) ⊎ (result ≡ NO_MEMORY) }
    ensures unchanged { (result ≡ OK → ⊥) → save.new.held ≡ save.old.held }
{
    let asked = match settings_in(settings) {
        Ok(asked) => asked,
        Err(status) => return status,
    };
    if asked.names == NameRule::Unique {
        return NO_UNIQUE_NAMES;
    }
    let Some(size) = ChunkSize::new(chunk) else {
        return NOT_A_CHUNK;
    };
    match boxed(alloc, &asked, size, has_names) {
        Ok(whole) => {
            let _ = save.replace(alloc, Some(whole));
            OK
        }
        Err(AllocError) => NO_MEMORY,
    }
}

/// Begins a text by settings, for an index of chunks of so many bytes. The text that the struct held is freed. Unique names are
/// refused, as it keeps no names.
#[unsafe(no_mangle)]
pub extern "C" fn jx_save_new_non_null(
    alloc: Global,
    settings: &JxSettings,
    chunk: usize,
    save: &mut JxSave,
) -> u32
    ensures made { result ≡ OK → IsBegun false (settings_in settings.now) chunk save.new.held }
    ensures depth { 65535 < settings.now.depth → result ≡ DEPTH_TOO_GREAT }
    ensures flags { settings.now.depth ≤ 65535 → 3 < settings.now.flags → result ≡ UNKNOWN_FLAG }
    ensures names { settings.now.depth ≤ 65535 → 1 < settings.now.flags → settings.now.flags ≤ 3 → result ≡ NO_UNIQUE_NAMES }
    ensures chunk { settings.now.depth ≤ 65535 → settings.now.flags ≤ 1 → (IsChunkSize chunk → ⊥) → result ≡ NOT_A_CHUNK }
    ensures status { settings.now.depth ≤ 65535 → settings.now.flags ≤ 1 → IsChunkSize chunk → (result ≡ OK) ⊎ (result ≡ NO_MEMORY) }
    ensures unchanged { (result ≡ OK → ⊥) → save.new.held ≡ save.old.held }
{
    begin(alloc, settings, chunk, false, save)
}

/// Begins a text by settings, for an index with tables of the text's names after it.
#[unsafe(no_mangle)]
pub extern "C" fn jx_save_new_with_names_non_null(
    alloc: Global,
    settings: &JxSettings,
    chunk: usize,
    save: &mut JxSave,
) -> u32
    ensures made { result ≡ OK → IsBegun true (settings_in settings.now) chunk save.new.held }
    ensures depth { 65535 < settings.now.depth → result ≡ DEPTH_TOO_GREAT }
    ensures flags { settings.now.depth ≤ 65535 → 3 < settings.now.flags → result ≡ UNKNOWN_FLAG }
    ensures names { settings.now.depth ≤ 65535 → 1 < settings.now.flags → settings.now.flags ≤ 3 → result ≡ NO_UNIQUE_NAMES }
    ensures chunk { settings.now.depth ≤ 65535 → settings.now.flags ≤ 1 → (IsChunkSize chunk → ⊥) → result ≡ NOT_A_CHUNK }
    ensures status { settings.now.depth ≤ 65535 → settings.now.flags ≤ 1 → IsChunkSize chunk → (result ≡ OK) ⊎ (result ≡ NO_MEMORY) }
    ensures unchanged { (result ≡ OK → ⊥) → save.new.held ≡ save.old.held }
{
    begin(alloc, settings, chunk, true, save)
}

/// Reads the bytes after all that the text was fed. When out of memory the struct is empty afterwards.
#[unsafe(no_mangle)]
pub extern "C" fn jx_save_feed_non_null(alloc: Global, save: &mut JxSave, bytes: &[u8]) -> u32
    ensures none { save.old.held ≡ None → result ≡ NO_SAVE }
    ensures fed { (s : Saver) → save.old.held ≡ Some s → result ≡ OK → IsFed s bytes.now save.new.held }
    ensures status { (s : Saver) → save.old.held ≡ Some s → (HasEnded s → ⊥) → (result ≡ OK) ⊎ (result ≡ NO_MEMORY) }
    ensures ended { (s : Saver) → save.old.held ≡ Some s → HasEnded s → result ≡ NOT_BEGUN }
    ensures lost { result ≡ NO_MEMORY → save.new.held ≡ None }
    ensures unchanged { (result ≡ OK → ⊥) → (result ≡ NO_MEMORY → ⊥) → save.new.held ≡ save.old.held }
{
    let Some(mut whole) = save.replace(alloc, None) else {
        return NO_SAVE;
    };
    let status = whole.feed(bytes);
    if status == NO_MEMORY {
        return NO_MEMORY;
    }
    let _ = save.replace(alloc, Some(whole));
    status
}

/// Ends the text: the verdict on all bytes that it was fed, and how many bytes its index has. These wait in the struct until they
/// are taken; where the text is refused, or memory is, the struct holds nothing.
#[unsafe(no_mangle)]
pub extern "C" fn jx_save_end_non_null(
    alloc: Global,
    save: &mut JxSave,
    size: &mut usize,
    verdict: &mut JxVerdict,
) -> u32
    ensures none { save.old.held ≡ None → result ≡ NO_SAVE }
    ensures told { (s : Saver) → save.old.held ≡ Some s → result ≡ OK → IsEndOf s size.new verdict.new save.new.held }
    ensures status { (s : Saver) → save.old.held ≡ Some s → (HasEnded s → ⊥) → (result ≡ OK) ⊎ (result ≡ NO_MEMORY) }
    ensures ended { (s : Saver) → save.old.held ≡ Some s → HasEnded s → result ≡ NOT_BEGUN }
    ensures lost { result ≡ NO_MEMORY → save.new.held ≡ None }
    ensures unchanged { (result ≡ OK → ⊥) → (result ≡ NO_MEMORY → ⊥) → save.new.held ≡ save.old.held }
    ensures unchanged_size { (result ≡ OK → ⊥) → size.new ≡ size.old }
    ensures unchanged_verdict { (result ≡ OK → ⊥) → verdict.new ≡ verdict.old }
{
    let Some(mut whole) = save.replace(alloc, None) else {
        return NO_SAVE;
    };
    match whole.end(alloc) {
        Ok(Verdict::Accepted) => {
            *size = whole.size();
            *verdict = shown(Verdict::Accepted);
            let _ = save.replace(alloc, Some(whole));
            OK
        }
        Ok(Verdict::Refused(refusal)) => {
            *size = 0;
            *verdict = shown(Verdict::Refused(refusal));
            OK
        }
        Err(status) => {
            if status == NOT_BEGUN {
                let _ = save.replace(alloc, Some(whole));
            }
            status
        }
    }
}

/// Copies the bytes of the index into the buffer, if that has room for them, and puts their number into `size`. They wait on.
#[unsafe(no_mangle)]
pub extern "C" fn jx_save_take_non_null(
    alloc: Global,
    save: &mut JxSave,
    index: &mut [u8],
    size: &mut usize,
) -> u32
    ensures none { save.old.held ≡ None → result ≡ NO_SAVE }
    ensures taken { (bytes : Vec ℕ Global) → save.old.held ≡ Some (Saved bytes) → result ≡ OK → IsPlaced bytes.items index.old index.new size.new }
    ensures room { (bytes : Vec ℕ Global) → save.old.held ≡ Some (Saved bytes) → result ≡ NO_ROOM → (size.new ≡ length bytes.items) × (length index.old < size.new) }
    ensures status { (bytes : Vec ℕ Global) → save.old.held ≡ Some (Saved bytes) → (result ≡ OK) ⊎ (result ≡ NO_ROOM) }
    ensures going { (s : Saver) → save.old.held ≡ Some s → (HasEnded s → ⊥) → result ≡ NOT_BEGUN }
    ensures same { save.new.held ≡ save.old.held }
    ensures unchanged_index { (result ≡ OK → ⊥) → index.new ≡ index.old }
    ensures unchanged_size { (result ≡ OK → ⊥) → (result ≡ NO_ROOM → ⊥) → size.new ≡ size.old }
{
    let Some(whole) = save.replace(alloc, None) else {
        return NO_SAVE;
    };
    let status = match whole.index() {
        Some(bytes) => put(bytes, index, size),
        None => NOT_BEGUN,
    };
    let _ = save.replace(alloc, Some(whole));
    status
}

/// Frees the text or its index, if there is one. The struct holds none afterwards.
#[unsafe(no_mangle)]
pub extern "C" fn jx_save_free_non_null(alloc: Global, save: &mut JxSave)
    ensures { save.new.held ≡ None }
{
    let _ = save.replace(alloc, None);
}
