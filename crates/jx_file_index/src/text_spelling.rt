// The bytes of what is saved of a text.
ghost use Rattle.std.specs.Prelude.{◌≡◌, ◌++◌, IfOk, OnOk};
ghost use Rattle.std.specs.List.{flat_map};
ghost use Rattle.std.specs.Int.{w32, to_le_bytes};
ghost use Rattle.jx_file_index.specs.TextSpelling.{key_count, spelt_names, spelt_saved, spelt_table};

use crate::index::Index;
use crate::index_spelling::sealed;
use crate::name_tables::{NameTable, NameTables};
use crate::saved_text::SavedText;
use std::alloc::{AllocError, Global};

/// The first bytes of tables, which say that they are some, of version 1.
pub(crate) const NAMES_TAG: [u8; 8] = [0x89, 0x6A, 0x78, 0x6E, 0x61, 0x6D, 0x0A, 0x01];

/// The number in place of a count where a table keeps none.
pub(crate) const NONE_KEPT: u32 = u32::MAX;

/// How many keys a table has. More than are counted in four bytes are refused, as when out of memory.
fn key_count(table: &NameTable) -> Result<u32, AllocError>
    ensures { IfOk result (λ count. count ≡ key_count table.now.is_kept table.now.keys.items) }
{
    if !table.is_kept {
        return Ok(NONE_KEPT);
    }
    let count = table.keys.len();
    if count >= NONE_KEPT as usize {
        return Err(AllocError);
    }
    Ok(count as u32)
}

/// Puts keys after these bytes.
fn put_keys(keys: &[u32], out: &mut Vec<u8>) -> Result<(), AllocError>
    ensures { OnOk result (out.new.items ≡ out.old.items ++ flat_map (to_le_bytes w32) keys.now) }
{
    for key in keys {
        out.extend_from_slice(&key.to_le_bytes())?;
    }
    Ok(())
}

/// Puts a table after these bytes.
fn put_table(table: &NameTable, out: &mut Vec<u8>) -> Result<(), AllocError>
    ensures { OnOk result (out.new.items ≡ out.old.items ++ spelt_table table.now) }
{
    let count = key_count(table)?;
    out.extend_from_slice(&count.to_le_bytes())?;
    put_keys(&table.keys, out)?;
    Ok(())
}

/// Puts tables after these bytes.
fn put_tables(tables: &[NameTable], out: &mut Vec<u8>) -> Result<(), AllocError>
    ensures { OnOk result (out.new.items ≡ out.old.items ++ flat_map spelt_table tables.now) }
{
    for table in tables {
        put_table(table, out)?;
    }
    Ok(())
}

/// The bytes of an index, and after them those of tables.
fn spelt_names(alloc: Global, index: &Index, names: &NameTables) -> Result<Vec<u8>, AllocError>
    ensures { IfOk result (λ bytes. bytes.items ≡ spelt_names index.now names.now) }
{
    let mut bytes = index.encode(alloc)?;
    bytes.extend_from_slice(&NAMES_TAG)?;
    put_tables(&names.tables, &mut bytes)?;
    sealed(bytes)
}

impl SavedText {
    /// The encoding of the saved text. Fails only when out of memory.
    pub fn encode(&self, alloc: Global) -> Result<Vec<u8>, AllocError>
        ensures { IfOk result (λ bytes. bytes.items ≡ spelt_saved self.now) }
    {
        match &self.names {
            None => self.index.encode(alloc),
            Some(names) => spelt_names(alloc, &self.index, names),
        }
    }
}
