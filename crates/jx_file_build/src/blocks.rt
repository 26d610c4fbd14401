// The names of chunks in blocks of 64, as chunk after chunk is read.
ghost use Rattle.std.specs.Prelude.{◌≡◌, ◌%◌, ◌++◌, ◌∷◌, [], ℕ, List, map, IfOk, OnOk, suc, true, false};
ghost use Rattle.std.specs.List.{AllByRecursion};
ghost use Rattle.std.specs.List.Sorted.{IsPermutation};
ghost use Rattle.jx_file_index.specs.NameHash.{name_hash};
ghost use Rattle.jx_file_index.specs.NameTables.{key_of, AreRising};
ghost use Rattle.jx_file_index.specs.SavedTexts.{FitsTable, IsWord};
ghost use Rattle.jx_file_build.specs.inside.NameBlocks.{AreBlocksOf, AreBlockTables, FitBlocks, FitsOpen, IsKeyCount};

use jx_file_index::{NameTable, NameTables};
use std::alloc::{AllocError, Global};

/// How many chunks a block has.
pub(crate) const BLOCK: usize = 64;

/// The names of a block that has fewer chunks, or is the last.
#[derive(Drop)]
pub struct OpenBlock {
    /// The keys of its names, in the order in which they stand.
    pub keys: Vec<u32>,
    /// Whether they were too many, and none is kept.
    pub is_full: bool,
}

/// Tables of blocks that have all their chunks, and the names of the block that has not.
#[derive(Drop)]
pub struct Blocks {
    pub tables: Vec<NameTable>,
    pub open: OpenBlock,
    /// How many chunks were read.
    pub chunks: usize,
}

/// Whether the last of so many chunks is the last one of a block.
fn ends_block(chunks: usize) -> bool
    ensures whole { result ≡ true → chunks % 64 ≡ 0 }
    ensures part { result ≡ false → chunks % 64 ≡ 0 → ⊥ }
{
    chunks % BLOCK == 0
}

/// The key of a name with a hash, in a chunk. It is refused, as when out of memory, where it is too large.
fn key_of(hash: u32, chunk: usize) -> Result<u32, AllocError>
    ensures value { IfOk result (λ key. key ≡ key_of hash chunk) }
    ensures word { IfOk result IsWord }
{
    let Some(times) = hash.checked_mul(64) else {
        return Err(AllocError);
    };
    let Some(key) = times.checked_add((chunk % BLOCK) as u32) else {
        return Err(AllocError);
    };
    Ok(key)
}

/// Puts the keys of names with these hashes after others.
fn add_keys(keys: &mut Vec<u32>, hashes: &[u32], chunk: usize) -> Result<(), AllocError>
    ensures keys { OnOk result (keys.new.items ≡ keys.old.items ++ map (λ hash. key_of hash chunk) hashes.now) }
    ensures words { OnOk result (AllByRecursion IsWord keys.old.items → AllByRecursion IsWord keys.new.items) }
{
    for hash in hashes {
        keys.push(key_of(*hash, chunk)?)?;
    }
    Ok(())
}

impl OpenBlock {
    /// A block of no name.
    fn new(alloc: Global) -> OpenBlock
        ensures none { result.keys.items ≡ [] }
        ensures fits { FitsOpen result }
    {
        OpenBlock {
            keys: Vec::new(alloc),
            is_full: false,
        }
    }

    /// The block with the names of one chunk more. More names than `most` are too many.
    fn add(self, hashes: &[u32], chunk: usize, most: usize) -> Result<OpenBlock, AllocError>
        ensures keys { IfOk result (λ next. next.is_full ≡ false
            → (self.is_full ≡ false) × (next.keys.items ≡ self.keys.items ++ map (λ hash. key_of hash chunk) hashes.now)) }
        ensures fits { IfOk result (λ next. IsKeyCount most → FitsOpen self → FitsOpen next) }
    {
        let OpenBlock { mut keys, is_full } = self;
        if is_full {
            return Ok(OpenBlock { keys, is_full });
        }
        add_keys(&mut keys, hashes, chunk)?;
        if keys.len() > most {
            keys.clear();
            return Ok(OpenBlock {
                keys,
                is_full: true,
            });
        }
        Ok(OpenBlock {
            keys,
            is_full: false,
        })
    }

    /// The table of its names, if all are kept.
    fn into_table(self) -> NameTable
        ensures kept { result.is_kept ≡ true → self.is_full ≡ false }
        ensures rising { AreRising result.keys.items }
        ensures same { IsPermutation self.keys.items result.keys.items }
        ensures fits { FitsOpen self → FitsTable result }
    {
        let OpenBlock { mut keys, is_full } = self;
        keys.sort_unstable();
        NameTable {
            is_kept: !is_full,
            keys,
        }
    }
}

impl Blocks {
    /// No chunk was read.
    pub(crate) fn new(alloc: Global) -> Blocks
        ensures are { AreBlocksOf [] result }
        ensures fits { FitBlocks result }
    {
        Blocks {
            tables: Vec::new(alloc),
            open: OpenBlock::new(alloc),
            chunks: 0,
        }
    }

    /// The same with one chunk more, whose names have these hashes. Of a block with more names than `most` none is kept.
    pub(crate) fn add(
        self,
        alloc: Global,
        hashes: &[u32],
        most: usize,
    ) -> Result<Blocks, AllocError>
        ensures chunks { IfOk result (λ next. next.chunks ≡ suc self.chunks) }
        ensures are { IfOk result (λ next. (names : List (List (List ℕ))) (own : List (List ℕ)) → AreBlocksOf names self → hashes.now ≡ map name_hash own
            → AreBlocksOf (names ++ own ∷ []) next) }
        ensures fits { IfOk result (λ next. IsKeyCount most → FitBlocks self → FitBlocks next) }
    {
        let Blocks {
            mut tables,
            open,
            chunks,
        } = self;
        let Some(next) = chunks.checked_add(1) else {
            return Err(AllocError);
        };
        let open = open.add(hashes, chunks, most)?;
        if ends_block(next) {
            tables.push(open.into_table())?;
            return Ok(Blocks {
                tables,
                open: OpenBlock::new(alloc),
                chunks: next,
            });
        }
        Ok(Blocks {
            tables,
            open,
            chunks: next,
        })
    }

    /// The tables of all blocks, the last one of what is left.
    pub(crate) fn into_tables(self) -> Result<NameTables, AllocError>
        ensures are { IfOk result (λ tables. (names : List (List (List ℕ))) → AreBlocksOf names self → AreBlockTables names tables) }
        ensures fits { IfOk result (λ tables. FitBlocks self → AllByRecursion FitsTable tables.tables.items) }
    {
        let Blocks {
            mut tables,
            open,
            chunks,
        } = self;
        if ends_block(chunks) {
            return Ok(NameTables { tables });
        }
        tables.push(open.into_table())?;
        Ok(NameTables { tables })
    }
}
