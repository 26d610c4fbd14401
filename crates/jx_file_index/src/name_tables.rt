// Tables of the names of a text, one for each block of 64 chunks.
ghost use Rattle.std.specs.Prelude.{◌≡◌, ◌<◌, ◌^◌, false};
ghost use Rattle.jx_file_index.specs.NameTables.{key_of, HasNot, IsWithout};

/// How many chunks a block has.
pub(crate) const BLOCK: usize = 64;

/// How many hashes names may have: 2 ^ 26.
pub(crate) const HASHES: u32 = 67_108_864;

/// The names of a block of 64 chunks.
#[derive(Debug, Drop)]
pub struct NameTable {
    /// Whether it has all of them; else it has none.
    pub is_kept: bool,
    /// For each name 64 times its hash, and the place of its chunk in the block. They rise.
    pub keys: Vec<u32>,
}

/// The names of a text.
#[derive(Debug, Drop)]
pub struct NameTables {
    /// A table for each block of 64 chunks, the last one for what is left.
    pub tables: Vec<NameTable>,
}

/// The key of a name with a hash, in a chunk.
pub(crate) fn key_of(hash: u32, chunk: usize) -> u32
    requires { hash < 2 ^ 26 }
    ensures { result ≡ key_of hash chunk }
{
    hash * 64 + (chunk % BLOCK) as u32
}

/// Whether a key is among those that rise.
fn has_key(keys: &[u32], key: u32) -> bool
    ensures { result ≡ false → IsWithout keys.now key }
{
    keys.binary_search(&key).is_ok()
}

impl NameTables {
    /// Whether a chunk may have a name with this hash.
    pub fn may_have(&self, chunk: usize, hash: u32) -> bool
        ensures { result ≡ false → HasNot self.now chunk hash }
    {
        if hash >= HASHES {
            return true;
        }
        let key = key_of(hash, chunk);
        let Some(table) = self.tables.get(chunk / BLOCK) else {
            return true;
        };
        if !table.is_kept {
            return true;
        }
        has_key(&table.keys, key)
    }
}
