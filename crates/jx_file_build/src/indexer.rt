// An index of a text that is fed by slices, and the tables of its names where these are asked for.
ghost use Rattle.std.specs.Prelude.{◌≡◌, ◌<◌, ◌≤◌, ◌++◌, [], ℕ, Bool, List, true, false, length, take, IfOk, IfErr, IfNone, IfSome, IsErr, OnOk, OnErr};
ghost use Rattle.jx_run.specs.Settings.{JudgedBy};
ghost use Rattle.jx_run.specs.declared.texts.settings.NameRule.TheVariants.{Any};
ghost use Rattle.jx_run.specs.declared.texts.settings.Settings.{Settings};
ghost use Rattle.jx_run.specs.declared.texts.verdict.Verdict.TheVariants.{Accepted, Refused};
ghost use Rattle.jx_file_index.specs.Index.{IsIndexOf};
ghost use Rattle.jx_file_index.specs.SavedTexts.{HasTablesToo};
ghost use Rattle.jx_file_build.specs.TextTables.{HasNames};
ghost use Rattle.jx_file_build.specs.Indexer.{HasFed, IsLost};
ghost use Rattle.jx_file_build.specs.Held.{AreAll, AreHeld};
ghost use Rattle.jx_file_build.specs.LoneChunk.{IsReadAlone};

use crate::held::Held;
use crate::lone_chunk::LoneChunk;
use crate::named_chunks::tables_of;
use crate::part_filling::fill;
use jx_file_index::{ChunkSize, Index, SavedText, levels_of};
use jx_run::{Refusal, Settings, Verdict, reader_and_grammar, unique_verdict_by_settings};
use std::alloc::{AllocError, Global};

/// An index of a JSON text (RFC 8259) that is fed by slices of any length, and the tables of its names where these are asked
/// for. It keeps the entries of the chunks that were read, and of the text less than one chunk. For tables it keeps those of
/// the blocks that were read, the names of one block, and the bytes of a name that has begun and not ended.
#[derive(Drop)]
pub struct Indexer {
    alloc: Global,
    settings: Settings,
    chunk: ChunkSize,
    /// None when out of memory.
    held: Option<Held>,
    /// The bytes after the whole chunks.
    part: Vec<u8>,
}

/// Bytes of a slice that were read, and how many they are.
#[derive(Drop)]
struct Begun {
    held: Held,
    len: usize,
}

/// Reads the part of a chunk that is kept, with the bytes of a slice that make it whole. Where the part is empty, or is
/// not made whole, no chunk is read.
fn begin(held: Held, part: &mut Vec<u8>, slice: &[u8], size: usize) -> Result<Begun, AllocError>
    requires some { 0 < size }
    ensures within { IfOk result (λ begun. begun.len ≤ length slice.now) }
    ensures all { IfOk result (λ begun. 0 < length part.new.items → begun.len ≡ length slice.now) }
    ensures held { IfOk result (λ begun. (has_names : Bool) (settings : Settings) (bytes : List ℕ) → AreHeld has_names settings size bytes held part.old.items
        → AreHeld has_names settings size (bytes ++ take begun.len slice.now) begun.held part.new.items) }
{
    if part.is_empty() {
        return Ok(Begun { held, len: 0 });
    }
    let len = fill(part, slice, size)?;
    if part.len() < size {
        return Ok(Begun { held, len });
    }
    let held = held.add(part)?;
    part.clear();
    Ok(Begun { held, len })
}

/// Whether a chunk of so many bytes comes next: it is whole, and no part of another is kept.
fn is_next(part: &[u8], len: usize, size: usize) -> bool
    ensures empty { result ≡ true → part.now ≡ [] }
    ensures whole { result ≡ true → len ≡ size }
{
    if !part.is_empty() {
        return false;
    }
    len == size
}

/// Reads a slice after all bytes that were fed.
fn feed_held(held: Held, part: &mut Vec<u8>, slice: &[u8], size: usize) -> Result<Held, AllocError>
    requires some { 0 < size }
    ensures { IfOk result (λ next. (has_names : Bool) (settings : Settings) (bytes : List ℕ) → AreHeld has_names settings size bytes held part.old.items
        → AreHeld has_names settings size (bytes ++ slice.now) next part.new.items) }
{
    let begun = begin(held, part, slice, size)?;
    let rest = &slice[begun.len..slice.len()];
    let added = begun.held.add_all(rest, size)?;
    part.extend_from_slice(&rest[added.len..rest.len()])?;
    Ok(added.held)
}

/// Reads the last chunk, where the part that is kept has a byte.
fn all_of(held: Held, part: &[u8]) -> Result<Held, AllocError>
    ensures { IfOk result (λ all. (has_names : Bool) (settings : Settings) (size : ℕ) (bytes : List ℕ) → AreHeld has_names settings size bytes held part.now → AreAll has_names settings size bytes all) }
{
    if part.is_empty() {
        return Ok(held);
    }
    let all = held.add(part)?;
    Ok(all)
}

/// The saved text of an accepted text, made of what is kept of all its chunks. There is nothing where it has no chunk.
fn saved_of(
    alloc: Global,
    settings: &Settings,
    chunk: ChunkSize,
    held: Held,
) -> Result<Option<SavedText>, AllocError>
    ensures index { IfOk result (λ saved. IfSome saved (λ s. (has_names : Bool) (bytes : List ℕ) → AreAll has_names settings.now chunk bytes held → JudgedBy settings.now 0 bytes Accepted
        → IsIndexOf settings.now chunk bytes s.index)) }
    ensures names { IfOk result (λ saved. IfSome saved (λ s. (has_names : Bool) (bytes : List ℕ) → AreAll has_names settings.now chunk bytes held → JudgedBy settings.now 0 bytes Accepted
        → HasNames has_names settings.now chunk bytes s.names)) }
    ensures savable { IfOk result (λ saved. IfSome saved (λ s. (has_names : Bool) (bytes : List ℕ) → AreAll has_names settings.now chunk bytes held → JudgedBy settings.now 0 bytes Accepted
        → HasTablesToo s.index s.names)) }
    ensures none { IfOk result (λ saved. IfNone saved ((has_names : Bool) (size : ℕ) (bytes : List ℕ) → AreAll has_names settings.now size bytes held → length bytes ≡ 0)) }
{
    reader_and_grammar();
    unique_verdict_by_settings();
    let size = held.count();
    let kept = held.into_kept();
    let levels = levels_of(alloc, kept.entries)?;
    match levels {
        None => Ok(None),
        Some(levels) => {
            let names = tables_of(kept.names)?;
            Ok(Some(SavedText {
                index: Index {
                    settings: *settings,
                    chunk,
                    size,
                    entries: levels.entries,
                    top: levels.top,
                },
                names,
            }))
        }
    }
}

/// The outcome of the chunks of a whole text.
fn outcome_of(
    alloc: Global,
    settings: &Settings,
    chunk: ChunkSize,
    held: Held,
) -> Result<Result<SavedText, Refusal>, AllocError>
    ensures index { IfOk result (λ read. IfOk read (λ saved. (has_names : Bool) (bytes : List ℕ) → AreAll has_names settings.now chunk bytes held → IsIndexOf settings.now chunk bytes saved.index)) }
    ensures names { IfOk result (λ read. IfOk read (λ saved. (has_names : Bool) (bytes : List ℕ) → AreAll has_names settings.now chunk bytes held → HasNames has_names settings.now chunk bytes saved.names)) }
    ensures savable { IfOk result (λ read. IfOk read (λ saved. (has_names : Bool) (bytes : List ℕ) → AreAll has_names settings.now chunk bytes held → HasTablesToo saved.index saved.names)) }
    ensures refused { IfOk result (λ read. IfErr read (λ refusal. (has_names : Bool) (bytes : List ℕ) → AreAll has_names settings.now chunk bytes held → JudgedBy settings.now 0 bytes (Refused refusal))) }
{
    reader_and_grammar();
    match held.verdict() {
        Verdict::Refused(refusal) => Ok(Err(refusal)),
        Verdict::Accepted => {
            let made = saved_of(alloc, settings, chunk, held)?;
            match made {
                Some(saved) => Ok(Ok(saved)),
                None => Ok(Err(Refusal::Truncated)),
            }
        }
    }
}

impl Indexer {
    /// An indexer that was fed no byte, for chunks of this size, with tables of names or without. The settings may ignore a
    /// byte order mark in front of the text (section 8.1); objects may have any names. Nothing is allocated.
    pub fn new(alloc: Global, settings: &Settings, chunk: ChunkSize, has_names: bool) -> Indexer
        requires any { settings.now.names ≡ Any }
        ensures fed { HasFed has_names settings.now chunk [] result }
    {
        // Shows the proof that a chunk has a byte.
        let _ = chunk.bytes();
        Indexer {
            alloc,
            settings: *settings,
            chunk,
            held: Some(Held::new(alloc, settings, chunk, has_names)),
            part: Vec::new(alloc),
        }
    }

    /// Reads the slice after all bytes that it was fed. After a fault no byte is looked at. Fails only when out of
    /// memory, and more than 2 ^ 64 - 1 bytes; from then on every slice is.
    pub fn feed(&mut self, slice: &[u8]) -> Result<(), AllocError>
        ensures fed { OnOk result ((has_names : Bool) (settings : Settings) (chunk : ℕ) (bytes : List ℕ) → HasFed has_names settings chunk bytes self.old → HasFed has_names settings chunk (bytes ++ slice.now) self.new) }
        ensures err { OnErr result (IsLost self.new) }
        ensures lost { IsLost self.old → IsErr result }
    {
        let Some(held) = self.held.take() else {
            return Err(AllocError);
        };
        let next = feed_held(held, &mut self.part, slice, self.chunk.bytes())?;
        self.held = Some(next);
        Ok(())
    }

    /// Takes a chunk that was read without the bytes before it, as if it had been fed its bytes. Answers whether it did: it does not
    /// in a chunk that has begun, for a shorter chunk or another depth, where names are asked for, after a fault, where the chunk
    /// begins in another state than was likely, and where a byte order mark may stand in it. Fails only when out of memory; from then
    /// on every slice and every chunk is refused.
    pub fn take(&mut self, chunk: &LoneChunk) -> Result<bool, AllocError>
        ensures taken { IfOk result (λ is. is ≡ true → (has_names : Bool) (settings : Settings) (size : ℕ) (bytes more : List ℕ) → HasFed has_names settings size bytes self.old
            → IsReadAlone settings.depth more chunk.now → HasFed has_names settings size (bytes ++ more) self.new) }
        ensures left { IfOk result (λ is. is ≡ false → self.new ≡ self.old) }
        ensures err { OnErr result (IsLost self.new) }
        ensures lost { IsLost self.old → IsErr result }
    {
        let Some(held) = &self.held else {
            return Err(AllocError);
        };
        if !is_next(&self.part, chunk.len(), self.chunk.bytes()) {
            return Ok(false);
        }
        let Some(entry) = held.entry_of(chunk) else {
            return Ok(false);
        };
        let Some(held) = self.held.take() else {
            return Err(AllocError);
        };
        let next = held.follow(chunk, entry)?;
        self.held = Some(next);
        Ok(true)
    }

    /// The index of the text that all bytes fed to it make, and its tables, or why they are not a text, whatever names their
    /// objects have. A block with more names than four times the bytes of a chunk keeps none. `Err` when out of memory, now
    /// or before.
    pub fn finish(self) -> Result<Result<SavedText, Refusal>, AllocError>
        ensures index { IfOk result (λ read. IfOk read (λ saved. (has_names : Bool) (settings : Settings) (chunk : ℕ) (bytes : List ℕ) → HasFed has_names settings chunk bytes self
            → IsIndexOf settings chunk bytes saved.index)) }
        ensures names { IfOk result (λ read. IfOk read (λ saved. (has_names : Bool) (settings : Settings) (chunk : ℕ) (bytes : List ℕ) → HasFed has_names settings chunk bytes self
            → HasNames has_names settings chunk bytes saved.names)) }
        // Beside the index the tables are saved so that all of them is read back.
        ensures savable { IfOk result (λ read. IfOk read (λ saved. (has_names : Bool) (settings : Settings) (chunk : ℕ) (bytes : List ℕ) → HasFed has_names settings chunk bytes self
            → HasTablesToo saved.index saved.names)) }
        ensures refused { IfOk result (λ read. IfErr read (λ refusal. (has_names : Bool) (settings : Settings) (chunk : ℕ) (bytes : List ℕ) → HasFed has_names settings chunk bytes self
            → JudgedBy settings 0 bytes (Refused refusal))) }
        ensures lost { IsLost self → IsErr result }
    {
        let Indexer {
            alloc,
            settings,
            chunk,
            held,
            part,
        } = self;
        let Some(held) = held else {
            return Err(AllocError);
        };
        let all = all_of(held, &part)?;
        let read = outcome_of(alloc, &settings, chunk, all)?;
        Ok(read)
    }
}
