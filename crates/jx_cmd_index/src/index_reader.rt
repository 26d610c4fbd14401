// A text whose index is made while workers read its chunks.
ghost use Rattle.std.specs.Prelude.{◌≡◌, [], Bool, List, ℕ, IfOk};
ghost use Rattle.jx_run.specs.declared.texts.settings.Settings.{Settings};
ghost use Rattle.jx_parallel.specs.declared.part_reader.PartRule.{PartRule};
ghost use Rattle.jx_cmd_index.specs.inside.IndexAt.{HasRead};
ghost use Rattle.jx_cmd_index.specs.inside.Saving.{ComesToSaved};

use crate::saving::Saving;
use jx_file_build::LoneChunk;
use jx_file_index::{ChunkSize, SavedText};
use jx_parallel::{Judged, PartReader, PartRule};
use jx_run::{Refusal, Settings};
use std::alloc::{AllocError, Global};
use std::marker::{Brand, PhantomData};

/// How a text is read, and what its index has. A call picks it, so that values of one type are of one task.
pub(crate) trait Asked {
    ghost use Rattle.std.specs.Prelude.{Bool, ℕ};
    ghost use Rattle.jx_run.specs.declared.texts.settings.Settings.{Settings};

    /// By which the text is read.
    ghost settings: { Settings };

    /// How many bytes each chunk has.
    ghost chunk: { ℕ };

    /// Whether there are tables of names.
    ghost has_names: { Bool };
}

impl Asked for Brand {
    ghost use Rattle.std.specs.Prelude.{false};
    ghost use Rattle.jx_run.specs.declared.texts.settings.FrontMark.TheVariants.{Refused};
    ghost use Rattle.jx_run.specs.declared.texts.settings.NameRule.TheVariants.{Any};

    ghost settings = { record { depth = 0; mark = Refused; names = Any } };

    ghost chunk = { 0 };

    ghost has_names = { false };
}

/// A reading of a text from its start, of which the index is made. Workers read chunks of it without the bytes before them.
#[derive(Drop)]
pub(crate) struct IndexReader<K: Asked> {
    saving: Saving,
    chunk: ChunkSize,
    count: usize,
    of: PhantomData<K>,
}

impl<K: Asked> IndexReader<K> {
    /// A reader before the first byte. Nothing is allocated.
    pub fn new(
        alloc: Global,
        rule: &PartRule,
        settings: &Settings,
        chunk: ChunkSize,
        has_names: bool,
    ) -> IndexReader<K>
        requires settings { K.settings ≡ settings.now }
        requires chunk { K.chunk ≡ chunk }
        requires names { K.has_names ≡ has_names }
        requires depth { rule.now.depth ≡ settings.now.depth }
        ensures { HasRead K.has_names K.settings K.chunk rule.now [] result.saving result.count }
    {
        IndexReader {
            saving: Saving::new(alloc, settings, chunk, has_names),
            chunk,
            count: 0,
            of: PhantomData,
        }
    }

    /// The index of the text that all bytes read make, or why they are not a text.
    pub fn finish(self) -> Result<Result<SavedText, Refusal>, AllocError>
        ensures { IfOk result (λ read. (rule : PartRule) (bytes : List ℕ) → HasRead K.has_names K.settings K.chunk rule bytes self.saving self.count
            → ComesToSaved K.has_names K.settings K.chunk bytes read) }
    {
        self.saving.finish()
    }
}

impl<K: Asked> PartReader for IndexReader<K> {
    ghost use Rattle.std.specs.Prelude.{ℕ, List};
    ghost use Rattle.jx_cmd_index.specs.inside.IndexAt.{HasRead};
    ghost use Rattle.jx_file_build.specs.LoneChunk.{IsReadAlone};

    type Rule = PartRule;

    type Part = LoneChunk;

    ghost Given = { List ℕ };

    ghost is_part = { λ rule at bytes part. IsReadAlone rule.depth bytes part };

    ghost has_read = { λ rule bytes given r. HasRead K.has_names K.settings K.chunk rule bytes r.saving r.count };

    ghost end = { λ r. r.count };

    fn judge(
        alloc: Global,
        rule: &PartRule,
        bytes: &[u8],
        _at: usize,
    ) -> Result<Option<Judged<LoneChunk>>, AllocError> {
        let read = LoneChunk::read(alloc, bytes, rule.depth)?;
        match read {
            None => Ok(None),
            Some(part) => Ok(Some(Judged {
                part,
                from: 0,
                to: bytes.len(),
            })),
        }
    }

    fn end(&self) -> usize {
        self.count
    }

    fn feed(&mut self, _rule: &PartRule, bytes: &[u8]) -> Result<(), AllocError> {
        self.saving.feed(bytes)?;
        self.count += bytes.len();
        Ok(())
    }

    fn take(&mut self, _rule: &PartRule, part: LoneChunk, len: usize) -> Result<bool, AllocError> {
        let took = self.saving.take(&part)?;
        if took {
            self.count += len;
            return Ok(true);
        }
        Ok(false)
    }

    // Parts are whole chunks, and so they begin where chunks do.
    fn starts(&self) -> usize {
        let size = self.chunk.bytes();
        match self.count % size {
            0 => self.count,
            over => self.count.saturating_add(size.saturating_sub(over)),
        }
    }
}
