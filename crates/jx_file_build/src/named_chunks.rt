// The names of a text's chunks, read one after another.
ghost use Rattle.std.specs.Prelude.{◌≡◌, [], ℕ, Bool, List, None, Some, length, IfOk};
ghost use Rattle.jx_run.specs.declared.texts.settings.Settings.{Settings};
ghost use Rattle.jx_file_index.specs.Chunks.{IsCount};
ghost use Rattle.jx_file_build.specs.TextTables.{HasNames};
ghost use Rattle.jx_file_build.specs.declared.named_chunks.NamedChunks.{NamedChunks};
ghost use Rattle.jx_file_build.specs.inside.NameBlocks.{IsKeyCount};
ghost use Rattle.jx_file_build.specs.inside.NamedChunks.{AreFit, AreNames, AreTold, FitChunks, FitTables};

use crate::blocks::Blocks;
use crate::open_kinds::OpenKinds;
use crate::standing::Standing;
use jx_file_index::{ChunkSize, NameTables};
use jx_run::{Settings, slices_are_told_in_turn};
use std::alloc::{AllocError, Global};

/// How many names a block may have for each byte of a chunk.
const SHARE: usize = 4;

/// The names of the chunks that were read, and what stands open after them.
#[derive(Drop)]
pub struct NamedChunks {
    pub alloc: Global,
    pub standing: Standing,
    pub blocks: Blocks,
    /// How many names a block may have of which any are kept.
    pub most: usize,
}

/// How many names a block may have of which any are kept.
fn most_names(chunk: ChunkSize) -> usize
    ensures few { IsKeyCount result }
{
    chunk.bytes().saturating_mul(SHARE)
}

impl NamedChunks {
    /// Before the first chunk.
    fn new(alloc: Global, settings: &Settings, chunk: ChunkSize) -> NamedChunks
        ensures told { (size : ℕ) → AreTold settings.now size [] 0 result }
        ensures begun { result.standing.begun ≡ None }
        ensures fits { FitChunks result }
    {
        slices_are_told_in_turn();
        NamedChunks {
            alloc,
            standing: Standing {
                kinds: OpenKinds::new(alloc),
                begun: None,
                name: Vec::new(alloc),
            },
            blocks: Blocks::new(alloc),
            most: most_names(chunk),
        }
    }
}

/// Before the first chunk, where names are asked for, and else none.
pub(crate) fn names_if_asked(
    alloc: Global,
    settings: &Settings,
    chunk: ChunkSize,
    has_names: bool,
) -> Option<NamedChunks>
    ensures names { (size : ℕ) → AreNames has_names settings.now size [] 0 result }
    ensures begun { (c : NamedChunks) → result ≡ Some c → c.standing.begun ≡ None }
    ensures fits { AreFit result }
{
    if has_names {
        Some(NamedChunks::new(alloc, settings, chunk))
    } else {
        None
    }
}

/// The tables of the names of all chunks, where these are asked for.
pub(crate) fn tables_of(names: Option<NamedChunks>) -> Result<Option<NameTables>, AllocError>
    ensures tables { IfOk result (λ tables. (has_names : Bool) (settings : Settings) (size : ℕ) (bytes : List ℕ) (n : ℕ) → AreNames has_names settings size bytes n names
        → IsCount size (length bytes) n → HasNames has_names settings size bytes tables) }
    ensures fits { IfOk result (λ tables. AreFit names → FitTables tables) }
{
    match names {
        None => Ok(None),
        Some(names) => {
            let tables = names.blocks.into_tables()?;
            Ok(Some(tables))
        }
    }
}
