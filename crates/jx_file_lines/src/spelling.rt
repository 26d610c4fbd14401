// The bytes of an index of lines.
ghost use Rattle.std.specs.Prelude.{◌≡◌, ◌++◌, IfOk, OnOk};
ghost use Rattle.std.specs.List.{flat_map};
ghost use Rattle.jx_file_lines.specs.Spelling.{spelt_entry, spelt_front, spelt_lines};

use crate::line_index::{LineEntry, LineIndex};
use jx_file_index::digest_of;
use std::alloc::{AllocError, Global};

/// The first bytes of an index of lines of version 1.
pub(crate) const TAG: [u8; 8] = [0x89, 0x6A, 0x78, 0x6C, 0x69, 0x6E, 0x0A, 0x01];

/// Puts an entry after these bytes.
fn put_entry(entry: &LineEntry, out: &mut Vec<u8>) -> Result<(), AllocError>
    ensures { OnOk result (out.new.items ≡ out.old.items ++ spelt_entry entry.now) }
{
    out.extend_from_slice(&(entry.feeds as u64).to_le_bytes())?;
    out.extend_from_slice(&entry.digest.to_le_bytes())?;
    Ok(())
}

/// Puts entries after these bytes.
fn put_entries(entries: &[LineEntry], out: &mut Vec<u8>) -> Result<(), AllocError>
    ensures { OnOk result (out.new.items ≡ out.old.items ++ flat_map spelt_entry entries.now) }
{
    for entry in entries {
        put_entry(entry, out)?;
    }
    Ok(())
}

/// The bytes that the digest is of.
fn front_of(alloc: Global, index: &LineIndex) -> Result<Vec<u8>, AllocError>
    ensures { IfOk result (λ bytes. bytes.items ≡ spelt_front index.now) }
{
    let mut bytes = Vec::new(alloc);
    bytes.extend_from_slice(&TAG)?;
    bytes.extend_from_slice(&(index.size as u64).to_le_bytes())?;
    bytes.extend_from_slice(&(index.chunk.bytes() as u32).to_le_bytes())?;
    bytes.extend_from_slice(&0u32.to_le_bytes())?;
    put_entries(&index.entries, &mut bytes)?;
    Ok(bytes)
}

impl LineIndex {
    /// The encoding of the index. It fails only when out of memory.
    pub fn encode(&self, alloc: Global) -> Result<Vec<u8>, AllocError>
        ensures { IfOk result (λ bytes. bytes.items ≡ spelt_lines self.now) }
    {
        let mut bytes = front_of(alloc, self)?;
        let digest = digest_of(&bytes);
        bytes.extend_from_slice(&digest.to_le_bytes())?;
        Ok(bytes)
    }
}
