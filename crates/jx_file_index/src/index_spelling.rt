// The bytes of an index.
ghost use Rattle.std.specs.Prelude.{◌≡◌, ◌++◌, IfOk, OnOk};
ghost use Rattle.std.specs.List.{flat_map};
ghost use Rattle.std.specs.Int.{w64, to_le_bytes};
ghost use Rattle.jx_file_index.specs.Digest.{xxh64};
ghost use Rattle.jx_file_index.specs.Spelling.{expect_number, flags, front_flags, spelt_choices, spelt_entry, spelt_front, spelt_index};

use crate::digest::digest_of;
use crate::entry::Entry;
use crate::index::Index;
use jx_reduce::Expect;
use jx_run::{FrontMark, NameRule, Settings};
use std::alloc::{AllocError, Global};

/// The first bytes of an index of version 1.
pub(crate) const TAG: [u8; 8] = [0x89, 0x6A, 0x78, 0x69, 0x64, 0x78, 0x0A, 0x01];

fn flags(begins: bool, ends: bool) -> u8
    ensures { result ≡ flags begins ends }
{
    match (begins, ends) {
        (false, false) => 0,
        (true, false) => 1,
        (false, true) => 2,
        (true, true) => 3,
    }
}

fn front_flags(settings: &Settings) -> u32
    ensures { result ≡ front_flags settings.now.mark settings.now.names }
{
    match (settings.mark, settings.names) {
        (FrontMark::Refused, NameRule::Any) => 0,
        (FrontMark::Ignored, NameRule::Any) => 1,
        (FrontMark::Refused, NameRule::Unique) => 2,
        (FrontMark::Ignored, NameRule::Unique) => 3,
    }
}

fn expect_number(expect: Expect) -> u8
    ensures { result ≡ expect_number expect }
{
    match expect {
        Expect::Value => 0,
        Expect::ArrayFirst => 1,
        Expect::ObjectFirst => 2,
        Expect::Name => 3,
        Expect::Colon => 4,
        Expect::After => 5,
    }
}

/// The choices of an entry that one byte each encodes.
fn choices(entry: &Entry) -> [u8; 4]
    ensures { result ≡ spelt_choices entry.now }
{
    let state = entry.state.number() as u8;
    let expect = expect_number(entry.expect);
    [state, expect, flags(entry.begins, entry.ends), 0]
}

/// Puts an entry after these bytes.
pub(crate) fn put_entry(entry: &Entry, out: &mut Vec<u8>) -> Result<(), AllocError>
    ensures { OnOk result (out.new.items ≡ out.old.items ++ spelt_entry entry.now) }
{
    out.extend_from_slice(&entry.sum.closed.to_le_bytes())?;
    out.extend_from_slice(&entry.sum.opened.to_le_bytes())?;
    out.extend_from_slice(&choices(entry))?;
    out.extend_from_slice(&entry.sum.commas.to_le_bytes())?;
    out.extend_from_slice(&entry.digest.to_le_bytes())?;
    Ok(())
}

/// Puts entries after these bytes.
pub(crate) fn put_entries(entries: &[Entry], out: &mut Vec<u8>) -> Result<(), AllocError>
    ensures { OnOk result (out.new.items ≡ out.old.items ++ flat_map spelt_entry entries.now) }
{
    for entry in entries {
        put_entry(entry, out)?;
    }
    Ok(())
}

/// The bytes of the head that its digest is of.
fn front_of(alloc: Global, index: &Index) -> Result<Vec<u8>, AllocError>
    ensures { IfOk result (λ bytes. bytes.items ≡ spelt_front index.now) }
{
    let mut bytes = Vec::new(alloc);
    bytes.extend_from_slice(&TAG)?;
    bytes.extend_from_slice(&(index.size as u64).to_le_bytes())?;
    bytes.extend_from_slice(&(index.chunk.bytes() as u32).to_le_bytes())?;
    bytes.extend_from_slice(&index.settings.depth.containers().to_le_bytes())?;
    bytes.extend_from_slice(&front_flags(&index.settings).to_le_bytes())?;
    bytes.extend_from_slice(&0u32.to_le_bytes())?;
    put_entry(&index.top, &mut bytes)?;
    Ok(bytes)
}

/// These bytes, and their digest after them.
pub(crate) fn sealed(front: Vec<u8>) -> Result<Vec<u8>, AllocError>
    ensures { IfOk result (λ bytes. bytes.items ≡ front.items ++ to_le_bytes w64 (xxh64 front.items)) }
{
    let mut bytes = front;
    let digest = digest_of(&bytes);
    bytes.extend_from_slice(&digest.to_le_bytes())?;
    Ok(bytes)
}

impl Index {
    /// The encoding of the index. It fails only when out of memory.
    pub fn encode(&self, alloc: Global) -> Result<Vec<u8>, AllocError>
        ensures { IfOk result (λ bytes. bytes.items ≡ spelt_index self.now) }
    {
        let mut bytes = sealed(front_of(alloc, self)?)?;
        put_entries(&self.entries, &mut bytes)?;
        Ok(bytes)
    }
}
