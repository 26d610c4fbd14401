// The saved parts of a text, from their bytes.
ghost use Rattle.std.specs.Prelude.{◌≡◌, ◌*◌, ◌≤◌, ◌++◌, ℕ, List, length, take, true, IfErr, IfOk, IsTrue};
ghost use Rattle.std.specs.Int.{w32, w64, to_le_bytes};
ghost use Rattle.std.specs.List.{AllByRecursion, flat_map};
ghost use Rattle.jx_file_index.specs.Digest.{xxh64};
ghost use Rattle.jx_file_index.specs.Saved.{HasItsLevels, IsMemory, IsSavable, SaysOf};
ghost use Rattle.jx_file_index.specs.declared.index.Index.{Index};
ghost use Rattle.jx_file_index.specs.Spelling.{spelt_index, tag};
ghost use Rattle.jx_file_index.specs.declared.name_tables.NameTables.{NameTables};
ghost use Rattle.jx_file_index.specs.declared.name_tables.NameTable.{NameTable};
ghost use Rattle.jx_file_index.specs.declared.saved_text.SavedText.{SavedText};
ghost use Rattle.jx_file_index.specs.SavedTexts.{FitsTable, IsSavableToo, IsWord, SayTables, SaysSameToo, SaysTable};
ghost use Rattle.jx_file_index.specs.TextSpelling.{names_tag, spelt_names, spelt_saved, spelt_table};

use crate::digest::digest_of;
use crate::index::Index;
use crate::index_decoding::{SavedFault, is_same};
use crate::lengths::{index_length, parts};
use crate::name_tables::{BLOCK, NameTable, NameTables};
use crate::saved_text::SavedText;
use crate::text_spelling::{NAMES_TAG, NONE_KEPT};
use std::alloc::{AllocError, Global};

/// How many bytes a key has, and a count of keys.
const KEY: usize = 4;

/// How many bytes a digest has.
const DIGEST: usize = 8;

/// The number in these bytes.
fn key_of(bytes: &[u8]) -> u32
    requires { length bytes.now ≡ 4 }
    ensures { (k : ℕ) → IsWord k → bytes.now ≡ to_le_bytes w32 k → result ≡ k }
{
    u32::from_le_bytes([bytes[0], bytes[1], bytes[2], bytes[3]])
}

/// The keys in these bytes, so many.
fn keys_of(alloc: Global, bytes: &[u8], count: usize) -> Result<Vec<u32>, AllocError>
    requires { length bytes.now ≡ 4 * count }
    ensures { IfOk result (λ keys. (ks : List ℕ) → AllByRecursion IsWord ks → bytes.now ≡ flat_map (to_le_bytes w32) ks → keys.items ≡ ks) }
{
    let mut keys = Vec::new(alloc);
    for n in 0..count {
        keys.push(key_of(&bytes[KEY * n..KEY * n + KEY]))?;
    }
    Ok(keys)
}

/// A table, and the bytes after it.
#[derive(Drop)]
struct ReadTable<'a> {
    table: NameTable,
    rest: &'a [u8],
}

/// The table with which these bytes begin.
fn table_from(alloc: Global, bytes: &[u8]) -> Result<ReadTable<'_>, SavedFault>
    ensures reads { IfOk result (λ read. (t : NameTable) (more : List ℕ) → FitsTable t → bytes.now ≡ spelt_table t ++ more → SaysTable read.table t × (read.rest.now ≡ more)) }
    ensures only { IfErr result (λ fault. (t : NameTable) (more : List ℕ) → FitsTable t → bytes.now ≡ spelt_table t ++ more → IsMemory fault) }
    ensures said { (all : List ℕ) → take 8 all ≡ tag → IfErr result (SaysOf all) }
{
    if bytes.len() < KEY {
        return Err(SavedFault::CutShort);
    }
    let count = key_of(&bytes[0..KEY]);
    let behind = &bytes[KEY..bytes.len()];
    if count == NONE_KEPT {
        return Ok(ReadTable {
            table: NameTable {
                is_kept: false,
                keys: Vec::new(alloc),
            },
            rest: behind,
        });
    }
    let len = count as usize * KEY;
    if behind.len() < len {
        return Err(SavedFault::CutShort);
    }
    let keys = keys_of(alloc, &behind[0..len], count as usize)?;
    Ok(ReadTable {
        table: NameTable {
            is_kept: true,
            keys,
        },
        rest: &behind[len..behind.len()],
    })
}

/// Tables, and the bytes after them.
#[derive(Drop)]
struct ReadTables<'a> {
    tables: Vec<NameTable>,
    rest: &'a [u8],
}

/// The tables with which these bytes begin, so many.
fn tables_from(alloc: Global, bytes: &[u8], count: usize) -> Result<ReadTables<'_>, SavedFault>
    ensures reads { IfOk result (λ read. (ts : List NameTable) (more : List ℕ) → AllByRecursion FitsTable ts → length ts ≡ count → bytes.now ≡ flat_map spelt_table ts ++ more
        → SayTables read.tables.items ts × (read.rest.now ≡ more)) }
    ensures only { IfErr result (λ fault. (ts : List NameTable) (more : List ℕ) → AllByRecursion FitsTable ts → length ts ≡ count → bytes.now ≡ flat_map spelt_table ts ++ more → IsMemory fault) }
    ensures said { (all : List ℕ) → take 8 all ≡ tag → IfErr result (SaysOf all) }
{
    let mut tables = Vec::new(alloc);
    let mut rest = bytes;
    for _ in 0..count {
        let read = table_from(alloc, rest)?;
        tables.push(read.table)?;
        rest = read.rest;
    }
    Ok(ReadTables { tables, rest })
}

/// Whether the bytes begin as tables of this version do.
fn is_tagged(bytes: &[u8]) -> bool
    ensures tagged { (rest : List ℕ) → bytes.now ≡ names_tag ++ rest → IsTrue result }
    ensures long { IsTrue result → 8 ≤ length bytes.now }
{
    if bytes.len() < NAMES_TAG.len() {
        return false;
    }
    &bytes[0..NAMES_TAG.len()] == NAMES_TAG.as_slice()
}

/// How many of these bytes are those of an index: all, where no tables begin after those of the index.
fn index_end(bytes: &[u8]) -> usize
    ensures within { result ≤ length bytes.now }
    ensures front { take 8 (take result bytes.now) ≡ take 8 bytes.now }
    ensures alone { (i : Index) → IsSavable i → bytes.now ≡ spelt_index i → result ≡ length bytes.now }
    ensures index { (i : Index) (rest : List ℕ) → IsSavable i → bytes.now ≡ spelt_index i ++ (names_tag ++ rest) → result ≡ length (spelt_index i) }
{
    let len = index_length(bytes);
    if is_tagged(&bytes[len..bytes.len()]) {
        len
    } else {
        bytes.len()
    }
}

/// Whether bytes are the digest of others.
fn is_sealed(front: &[u8], seal: &[u8]) -> bool
    ensures { seal.now ≡ to_le_bytes w64 (xxh64 front.now) → IsTrue result }
{
    let digest = digest_of(front).to_le_bytes();
    is_same(seal, digest.as_slice())
}

/// The tables after an index that has so many bytes, so many tables.
fn names_behind(
    alloc: Global,
    bytes: &[u8],
    len: usize,
    count: usize,
) -> Result<NameTables, SavedFault>
    requires within { len ≤ length bytes.now }
    ensures reads { IfOk result (λ names. (i : Index) (t : NameTables) → length (spelt_index i) ≡ len → AllByRecursion FitsTable t.tables.items → length t.tables.items ≡ count → bytes.now ≡ spelt_names i t
        → SayTables names.tables.items t.tables.items) }
    ensures only { IfErr result (λ fault. (i : Index) (t : NameTables) → length (spelt_index i) ≡ len → AllByRecursion FitsTable t.tables.items → length t.tables.items ≡ count → bytes.now ≡ spelt_names i t
        → IsMemory fault) }
    ensures said { take 8 bytes.now ≡ tag → IfErr result (SaysOf bytes.now) }
{
    let rest = &bytes[len..bytes.len()];
    if !is_tagged(rest) {
        return Err(SavedFault::Longer);
    }
    let read = tables_from(alloc, &rest[NAMES_TAG.len()..rest.len()], count)?;
    if read.rest.len() < DIGEST {
        return Err(SavedFault::CutShort);
    }
    if read.rest.len() > DIGEST {
        return Err(SavedFault::Longer);
    }
    if is_sealed(&bytes[0..bytes.len() - DIGEST], read.rest) {
        return Ok(NameTables {
            tables: read.tables,
        });
    }
    Err(SavedFault::Damaged)
}

/// The saved text that was read, if its bytes are these.
fn spelt_so(alloc: Global, read: SavedText, bytes: &[u8]) -> Result<SavedText, SavedFault>
    ensures found { IfOk result (λ s. spelt_saved s ≡ bytes.now) }
    ensures same { IfOk result (λ s. s ≡ read) }
    ensures only { IfErr result (λ f. spelt_saved read ≡ bytes.now → IsMemory f) }
    ensures said { take 8 bytes.now ≡ tag → IfErr result (SaysOf bytes.now) }
{
    let spelt = read.encode(alloc)?;
    if is_same(spelt.as_slice(), bytes) {
        Ok(read)
    } else {
        Err(SavedFault::Malformed)
    }
}

impl SavedText {
    /// The saved text whose bytes these are, all of them. Nothing is reserved by a number that they name.
    pub fn decode(alloc: Global, bytes: &[u8]) -> Result<SavedText, SavedFault>
        // Nothing else is read.
        ensures found { IfOk result (λ saved. spelt_saved saved ≡ bytes.now) }
        ensures levels { IfOk result (λ saved. HasItsLevels saved.index) }
        // Written tables are read, unless memory runs out.
        ensures reads { IfOk result (λ saved. (s : SavedText) → IsSavableToo s → bytes.now ≡ spelt_saved s → SaysSameToo saved s) }
        ensures only { IfErr result (λ fault. (s : SavedText) → IsSavableToo s → bytes.now ≡ spelt_saved s → IsMemory fault) }
        // The fault, as far as the first eight bytes show it.
        ensures fault { IfErr result (SaysOf bytes.now) }
    {
        let len = index_end(bytes);
        let index = Index::decode(alloc, &bytes[0..len])?;
        if len == bytes.len() {
            return Ok(SavedText { index, names: None });
        }
        let count = parts(parts(index.size, index.chunk.bytes()), BLOCK);
        let names = names_behind(alloc, bytes, len, count)?;
        let read = SavedText {
            index,
            names: Some(names),
        };
        spelt_so(alloc, read, bytes)
    }
}
