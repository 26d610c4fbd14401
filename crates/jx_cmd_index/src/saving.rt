// The state of an input whose index is saved, with tables of its names where these are asked for, while it is read.
ghost use Rattle.std.specs.Prelude.{◌≡◌, ◌++◌, [], ℕ, Bool, List, true, false, IfOk, OnOk};
ghost use Rattle.jx_run.specs.declared.texts.settings.NameRule.TheVariants.{Unique};
ghost use Rattle.jx_run.specs.declared.texts.settings.Settings.{Settings};
ghost use Rattle.jx_file_index.specs.Index.{IsIndexOf};
ghost use Rattle.jx_file_build.specs.LoneChunk.{IsReadAlone};
ghost use Rattle.jx_cmd_index.specs.inside.Saving.{ComesToSaved, IsByNames, IsSavingOf, any_names};

use jx_file_build::{Indexer, LoneChunk};
use jx_file_index::{ChunkSize, Index, SavedText};
use jx_names::NamesReader;
use jx_run::{NameRule, Refusal, Settings, Verdict, unique_verdict_by_settings};
use std::alloc::{AllocError, Global};

/// The state of an input that is read.
#[derive(Drop)]
pub(crate) enum Saving {
    /// The index and tables of a text.
    Any(Indexer),
    /// The same of a text whose names have to be unique.
    Unique {
        indexer: Indexer,
        names: NamesReader,
    },
}

/// The same settings, but for the names, which may be any.
fn any_names(settings: &Settings) -> Settings
    ensures { result ≡ any_names settings.now }
{
    Settings {
        depth: settings.depth,
        mark: settings.mark,
        names: NameRule::Any,
    }
}

/// The index of a text whose names are unique, which says so.
fn with_unique_names(index: Index) -> Index
    ensures { (settings : Settings) (chunk : ℕ) (bytes : List ℕ) → settings.names ≡ Unique → IsIndexOf (any_names settings) chunk bytes index → IsIndexOf settings chunk bytes result }
{
    let Index {
        settings,
        chunk,
        size,
        entries,
        top,
    } = index;
    Index {
        settings: Settings {
            depth: settings.depth,
            mark: settings.mark,
            names: NameRule::Unique,
        },
        chunk,
        size,
        entries,
        top,
    }
}

/// The result for a text whose names have this verdict.
fn finish_by_names(
    indexer: Indexer,
    verdict: Verdict,
) -> Result<Result<SavedText, Refusal>, AllocError>
    ensures { IfOk result (λ read. (has_names : Bool) (settings : Settings) (chunk : ℕ) (bytes : List ℕ) → IsByNames has_names settings chunk bytes indexer verdict
        → ComesToSaved has_names settings chunk bytes read) }
{
    unique_verdict_by_settings();
    match verdict {
        Verdict::Refused(refusal) => Ok(Err(refusal)),
        Verdict::Accepted => {
            let read = indexer.finish()?;
            match read {
                Ok(saved) => Ok(Ok(SavedText {
                    index: with_unique_names(saved.index),
                    names: saved.names,
                })),
                Err(refusal) => Ok(Err(refusal)),
            }
        }
    }
}

impl Saving {
    /// The state before the first byte.
    pub fn new(alloc: Global, settings: &Settings, chunk: ChunkSize, has_names: bool) -> Saving
        ensures { IsSavingOf has_names settings.now chunk [] result }
    {
        match settings.names {
            NameRule::Any => Saving::Any(Indexer::new(alloc, settings, chunk, has_names)),
            NameRule::Unique => Saving::Unique {
                indexer: Indexer::new(alloc, &any_names(settings), chunk, has_names),
                names: NamesReader::new(alloc, settings),
            },
        }
    }

    /// Reads a batch after what was read. It is also out of memory where the last byte has no offset.
    pub fn feed(&mut self, batch: &[u8]) -> Result<(), AllocError>
        ensures { OnOk result ((has_names : Bool) (settings : Settings) (chunk : ℕ) (bytes : List ℕ) → IsSavingOf has_names settings chunk bytes self.old
            → IsSavingOf has_names settings chunk (bytes ++ batch.now) self.new) }
    {
        match self {
            Saving::Any(indexer) => indexer.feed(batch),
            Saving::Unique { indexer, names } => {
                if batch.len() > usize::MAX - names.end() {
                    return Err(AllocError);
                }
                names.feed(batch)?;
                indexer.feed(batch)
            }
        }
    }

    /// Takes a chunk that was read without the bytes before it, and answers whether it did.
    pub fn take(&mut self, chunk: &LoneChunk) -> Result<bool, AllocError>
        ensures taken { IfOk result (λ is. is ≡ true → (has_names : Bool) (settings : Settings) (size : ℕ) (bytes more : List ℕ) → IsSavingOf has_names settings size bytes self.old
            → IsReadAlone settings.depth more chunk.now → IsSavingOf has_names settings size (bytes ++ more) self.new) }
        ensures left { IfOk result (λ is. is ≡ false → self.new ≡ self.old) }
    {
        match self {
            Saving::Any(indexer) => indexer.take(chunk),
            Saving::Unique { .. } => Ok(false),
        }
    }

    /// The index and tables of the text that all bytes read make, or why they are not a text.
    pub fn finish(self) -> Result<Result<SavedText, Refusal>, AllocError>
        ensures { IfOk result (λ read. (has_names : Bool) (settings : Settings) (chunk : ℕ) (bytes : List ℕ) → IsSavingOf has_names settings chunk bytes self
            → ComesToSaved has_names settings chunk bytes read) }
    {
        match self {
            Saving::Any(indexer) => indexer.finish(),
            Saving::Unique { indexer, names } => {
                let verdict = names.verdict()?;
                finish_by_names(indexer, verdict)
            }
        }
    }
}
