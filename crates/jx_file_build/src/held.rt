// How far the reading of a text's chunks came.
ghost use Rattle.std.specs.Prelude.{◌≡◌, ◌+◌, ◌-◌, ◌<◌, ◌≤◌, ◌++◌, suc, [], ℕ, Bool, List, None, Some, true, length, take, IfOk, IfSome};
ghost use Rattle.jx_run.specs.Reader.{HasRead, IsInFront, Outcome};
ghost use Rattle.jx_run.specs.Settings.{JudgedBy};
ghost use Rattle.jx_run.specs.declared.texts.settings.Settings.{Settings};
ghost use Rattle.jx_file_index.specs.Chunks.{entry_behind};
ghost use Rattle.jx_file_build.specs.Held.{AreWhole, IsEntered};
ghost use Rattle.jx_file_build.specs.LoneChunk.{IsReadAlone};
ghost use Rattle.jx_file_build.specs.inside.NamedChunks.{AreFit};

use crate::chunk_reading::read_chunk;
use crate::lone_chunk::LoneChunk;
use crate::named_chunks::{NamedChunks, names_if_asked};
use jx_file_index::{ChunkSize, Entry};
use jx_lex::Depth;
use jx_run::{Reader, Settings, Summary, Verdict};
use std::alloc::{AllocError, Global};
use std::marker::Model;

/// How far the reading of a text's chunks came, their entries, and their names where these are asked for.
#[derive(Drop)]
pub struct Held {
    reader: Reader,
    entries: Vec<Entry>,
    names: Option<NamedChunks>,
}

/// The chunks that were read, and how many bytes they have.
#[derive(Drop)]
pub(crate) struct Added {
    pub held: Held,
    pub len: usize,
}

/// The entries and names that are kept of chunks.
#[derive(Drop)]
pub(crate) struct KeptChunks {
    pub entries: Vec<Entry>,
    pub names: Option<NamedChunks>,
}

/// Whether no names are asked for.
fn are_none(names: &Option<NamedChunks>) -> bool
    ensures { result ≡ true → names.now ≡ None }
{
    match names {
        None => true,
        Some(_) => false,
    }
}

/// Whether a chunk was read within this depth.
fn is_depth(chunk: &LoneChunk, depth: Depth) -> bool
    ensures { result ≡ true → chunk.now.run.depth ≡ depth }
{
    chunk.run().depth() == depth
}

impl Model for Held {
    ghost use Rattle.jx_file_build.specs.Held.{HeldValue, IsLawful, held_of};

    ghost Value = { HeldValue };

    ghost view = { held_of };

    ghost invariant = { IsLawful };
}

impl Held {
    /// Before the first chunk.
    pub(crate) fn new(alloc: Global, settings: &Settings, chunk: ChunkSize, has_names: bool) -> Held
        ensures { (size : ℕ) → AreWhole has_names settings.now size [] result }
    {
        Held {
            reader: Reader::new(alloc, settings, 0),
            entries: Vec::new(alloc),
            names: names_if_asked(alloc, settings, chunk, has_names),
        }
    }

    /// How many bytes were read.
    pub(crate) fn count(&self) -> usize
        ensures { result ≡ self.now.reader.start + self.now.reader.count }
    {
        self.reader.end()
    }

    /// Reads one chunk more.
    pub(crate) fn add(self, chunk: &[u8]) -> Result<Held, AllocError>
        ensures entries { IfOk result (λ next. length next.entries ≡ suc (length self.entries)) }
        ensures entered { IfOk result (λ next. (has_names : Bool) (settings : Settings) (size : ℕ) (bytes : List ℕ) → AreWhole has_names settings size bytes self → length chunk.now ≤ size
            → IsEntered has_names settings size (bytes ++ chunk.now) next) }
    {
        let Held {
            mut reader,
            mut entries,
            names,
        } = self;
        if chunk.len() > usize::MAX - reader.end() {
            return Err(AllocError);
        }
        let read = read_chunk(&mut reader, names, chunk)?;
        entries.push(read.entry)?;
        Ok(Held {
            reader,
            entries,
            names: read.names,
        })
    }

    /// The entry of a chunk that was read without the bytes before it, where it can be read next: if the state before it was
    /// found, no byte order mark may stand in it, no fault was met, and no names are asked for.
    pub(crate) fn entry_of(&self, chunk: &LoneChunk) -> Option<Entry>
        ensures entry { IfSome result (λ entry. (bytes more : List ℕ) (depth : ℕ) (before : Outcome) → HasRead bytes self.now.reader → IsReadAlone depth more chunk.now
            → self.now.reader.outcome ≡ Some before → entry ≡ entry_behind before more) }
        ensures behind { IfSome result (λ entry. IsInFront self.now.reader → ⊥) }
        ensures unnamed { IfSome result (λ entry. self.now.names ≡ None) }
        ensures depth { IfSome result (λ entry. chunk.now.run.depth ≡ self.now.reader.settings.depth) }
    {
        if !are_none(&self.names) {
            return None;
        }
        if self.reader.is_in_front() {
            return None;
        }
        if self.reader.is_done() {
            return None;
        }
        if !is_depth(chunk, self.reader.settings().depth) {
            return None;
        }
        let (state, expect) = self.reader.standing();
        let Some(sum) = chunk.sum_from(state) else {
            return None;
        };
        Some(Entry {
            state,
            expect,
            sum: sum.sum,
            begins: sum.begins,
            ends: sum.ends,
            digest: chunk.digest(),
        })
    }

    /// Reads on by a chunk that was read without the bytes before it, and has this entry.
    pub(crate) fn follow(self, chunk: &LoneChunk, entry: Entry) -> Result<Held, AllocError>
        requires unnamed { self.names ≡ None }
        requires behind { IsInFront self.reader → ⊥ }
        requires depth { chunk.now.run.depth ≡ self.reader.settings.depth }
        ensures entries { IfOk result (λ next. length next.entries ≡ suc (length self.entries)) }
        ensures entered { IfOk result (λ next. (has_names : Bool) (settings : Settings) (size : ℕ) (bytes more : List ℕ) → AreWhole has_names settings size bytes self → length more ≤ size
            → IsReadAlone settings.depth more chunk.now → ((before : Outcome) → self.reader.outcome ≡ Some before → entry ≡ entry_behind before more)
            → IsEntered has_names settings size (bytes ++ more) next) }
    {
        let Held {
            mut reader,
            mut entries,
            names,
        } = self;
        if chunk.len() > usize::MAX - reader.end() {
            return Err(AllocError);
        }
        reader.follow(chunk.run())?;
        entries.push(entry)?;
        Ok(Held {
            reader,
            entries,
            names,
        })
    }

    /// Reads all whole chunks with which the bytes begin.
    pub(crate) fn add_all(self, bytes: &[u8], size: usize) -> Result<Added, AllocError>
        requires some { 0 < size }
        ensures within { IfOk result (λ added. added.len ≤ length bytes.now) }
        ensures rest { IfOk result (λ added. length bytes.now - added.len < size) }
        ensures whole { IfOk result (λ added. (has_names : Bool) (settings : Settings) (before : List ℕ) → AreWhole has_names settings size before self
            → AreWhole has_names settings size (before ++ take added.len bytes.now) added.held) }
    {
        let mut held = self;
        let mut at = 0;
        'chunks: while bytes.len() - at >= size {
            held = held.add(&bytes[at..at + size])?;
            at += size;
        }
        Ok(Added { held, len: at })
    }

    /// The verdict on all bytes that were read, whatever names their objects have.
    pub(crate) fn verdict(&self) -> Verdict
        ensures { (has_names : Bool) (settings : Settings) (size : ℕ) (bytes : List ℕ) → IsEntered has_names settings size bytes self.now → JudgedBy settings 0 bytes result }
    {
        self.reader.verdict()
    }

    /// The entries and names that are kept of the chunks.
    pub(crate) fn into_kept(self) -> KeptChunks
        ensures entries { result.entries.items ≡ self.entries }
        ensures names { result.names ≡ self.names }
        ensures fit { AreFit result.names }
    {
        KeptChunks {
            entries: self.entries,
            names: self.names,
        }
    }
}
