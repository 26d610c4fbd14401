// An index of lines from its bytes.
ghost use Rattle.std.specs.Prelude.{◌≡◌, ◌≢◌, ◌+◌, ◌*◌, ◌-◌, ◌<◌, ◌≤◌, ◌++◌, ℕ, List, length, take, IfErr, IfOk, IsTrue};
ghost use Rattle.std.specs.Int.{w64, to_le_bytes};
ghost use Rattle.std.specs.List.{AllByRecursion, flat_map};
ghost use Rattle.jx_file_index.specs.Chunks.{IsCount};
ghost use Rattle.jx_file_index.specs.Digest.{half_at, word_at};
ghost use Rattle.jx_file_index.specs.declared.index_decoding.SavedFault.TheVariants.{Memory};
ghost use Rattle.jx_file_lines.specs.declared.line_index.LineEntry.{LineEntry};
ghost use Rattle.jx_file_lines.specs.declared.line_index.LineIndex.{LineIndex};
ghost use Rattle.jx_file_lines.specs.Saved.{FitsEntry, IsSavable, SaysOf, SaysSame};
ghost use Rattle.jx_file_lines.specs.Spelling.{lines_tag, spelt_entry, spelt_front, spelt_lines};

use crate::line_index::{LineEntry, LineIndex};
use crate::spelling::TAG;
use jx_file_index::{ChunkSize, SavedFault, digest_of};
use std::alloc::{AllocError, Global};

/// How many bytes are before the entries, of an entry, and behind all.
const HEAD: usize = 24;

const ENTRY: usize = 16;

const SEAL: usize = 8;

/// Eight bytes, low byte first.
fn word_at(bytes: &[u8], at: usize) -> u64
    requires { at + 8 ≤ length bytes.now }
    ensures { result ≡ word_at bytes.now at }
{
    u64::from_le_bytes([
        bytes[at],
        bytes[at + 1],
        bytes[at + 2],
        bytes[at + 3],
        bytes[at + 4],
        bytes[at + 5],
        bytes[at + 6],
        bytes[at + 7],
    ])
}

/// Four bytes, low byte first.
fn half_at(bytes: &[u8], at: usize) -> u64
    requires { at + 4 ≤ length bytes.now }
    ensures { result ≡ half_at bytes.now at }
{
    u32::from_le_bytes([bytes[at], bytes[at + 1], bytes[at + 2], bytes[at + 3]]) as u64
}

/// How many chunks a text has.
fn chunks_of(size: usize, chunk: usize) -> usize
    requires { 64 ≤ chunk }
    ensures { IsCount chunk size result }
{
    if size % chunk == 0 {
        size / chunk
    } else {
        size / chunk + 1
    }
}

/// The size of the text of an index that begins so, and how many bytes each chunk has.
fn sizes_of(bytes: &[u8]) -> (usize, usize)
    requires { 24 ≤ length bytes.now }
    ensures { (i : LineIndex) (rest : List ℕ) → IsSavable i → bytes.now ≡ spelt_front i ++ rest → (result.0 ≡ i.size) × (result.1 ≡ i.chunk) }
{
    (word_at(bytes, 8) as usize, half_at(bytes, 16) as usize)
}

/// The entry that these bytes encode.
fn entry_of(bytes: &[u8]) -> LineEntry
    requires { length bytes.now ≡ 16 }
    ensures { (e : LineEntry) → FitsEntry e → bytes.now ≡ spelt_entry e → result ≡ e }
{
    LineEntry {
        feeds: word_at(bytes, 0) as usize,
        digest: word_at(bytes, 8),
    }
}

/// The entries that these bytes encode, if they encode so many.
fn entries_of(alloc: Global, bytes: &[u8], count: usize) -> Result<Vec<LineEntry>, AllocError>
    requires { length bytes.now ≡ 16 * count }
    ensures { IfOk result (λ entries. (es : List LineEntry) → AllByRecursion FitsEntry es → bytes.now ≡ flat_map spelt_entry es → entries.items ≡ es) }
{
    let mut entries = Vec::new(alloc);
    for n in 0..count {
        entries.push(entry_of(&bytes[ENTRY * n..ENTRY * n + ENTRY]))?;
    }
    Ok(entries)
}

/// The first bytes, so many, or all where they are fewer.
fn first(bytes: &[u8], count: usize) -> &[u8]
    ensures { result.now ≡ take count bytes.now }
{
    if bytes.len() <= count {
        return bytes;
    }
    &bytes[0..count]
}

/// Whether the bytes begin as an index of lines of this version does.
fn tagged(bytes: &[u8]) -> Result<(), SavedFault>
    ensures tag { IfOk result (λ _. take 8 bytes.now ≡ lines_tag) }
    ensures fault { IfErr result (SaysOf bytes.now) }
    ensures only { IfErr result (λ _. take 8 bytes.now ≢ lines_tag) }
{
    if first(bytes, 8) == TAG.as_slice() {
        return Ok(());
    }
    if first(bytes, 7) == &TAG[0..7] {
        return Err(SavedFault::OtherVersion);
    }
    Err(SavedFault::NotAnIndex)
}

/// The entries of an index of so many chunks, behind the head and before the checksum.
fn entries_in(alloc: Global, bytes: &[u8], count: usize) -> Result<Vec<LineEntry>, SavedFault>
    requires { 32 ≤ length bytes.now }
    ensures reads { IfOk result (λ entries. (i : LineIndex) → IsSavable i → count ≡ length i.entries.items → bytes.now ≡ spelt_lines i → entries.items ≡ i.entries.items) }
    ensures only { IfErr result (λ fault. (i : LineIndex) → IsSavable i → count ≡ length i.entries.items → bytes.now ≡ spelt_lines i → fault ≡ Memory) }
    ensures said { take 8 bytes.now ≡ lines_tag → IfErr result (SaysOf bytes.now) }
{
    let inner = &bytes[HEAD..bytes.len() - SEAL];
    if inner.len() / ENTRY < count {
        return Err(SavedFault::CutShort);
    }
    if inner.len() > ENTRY * count {
        return Err(SavedFault::Longer);
    }
    Ok(entries_of(alloc, inner, count)?)
}

/// The index that these bytes encode, if they encode one, read from its fields.
fn index_in(alloc: Global, bytes: &[u8]) -> Result<LineIndex, SavedFault>
    ensures reads { IfOk result (λ index. (i : LineIndex) → IsSavable i → bytes.now ≡ spelt_lines i → SaysSame index i) }
    ensures only { IfErr result (λ fault. (i : LineIndex) → IsSavable i → bytes.now ≡ spelt_lines i → fault ≡ Memory) }
    ensures said { take 8 bytes.now ≡ lines_tag → IfErr result (SaysOf bytes.now) }
    ensures long { IfOk result (λ _. 32 ≤ length bytes.now) }
{
    if bytes.len() < HEAD + SEAL {
        return Err(SavedFault::CutShort);
    }
    let (size, bytes_of_chunk) = sizes_of(bytes);
    match ChunkSize::new(bytes_of_chunk) {
        None => Err(SavedFault::Malformed),
        Some(chunk) => {
            let entries = entries_in(alloc, bytes, chunks_of(size, chunk.bytes()))?;
            Ok(LineIndex {
                chunk,
                size,
                entries,
            })
        }
    }
}

/// Why bytes are not those of the index that their fields encode.
fn fault_of(bytes: &[u8]) -> SavedFault
    requires { 8 ≤ length bytes.now }
    ensures { take 8 bytes.now ≡ lines_tag → SaysOf bytes.now result }
{
    let sealed = bytes.len() - SEAL;
    if digest_of(&bytes[0..sealed]) == word_at(bytes, sealed) {
        SavedFault::Malformed
    } else {
        SavedFault::Damaged
    }
}

/// Whether both are the same bytes.
fn is_same(one: &[u8], other: &[u8]) -> bool
    ensures same { IsTrue result → one.now ≡ other.now }
    ensures told { one.now ≡ other.now → IsTrue result }
{
    one == other
}

impl LineIndex {
    /// The index whose bytes these are, all of them. Nothing is reserved by a number that they name.
    pub fn decode(alloc: Global, bytes: &[u8]) -> Result<LineIndex, SavedFault>
        // Nothing else is read.
        ensures found { IfOk result (λ index. spelt_lines index ≡ bytes.now) }
        // An index that is written so is read, unless memory runs out.
        ensures reads { IfOk result (λ index. (i : LineIndex) → IsSavable i → bytes.now ≡ spelt_lines i → SaysSame index i) }
        ensures only { IfErr result (λ fault. (i : LineIndex) → IsSavable i → bytes.now ≡ spelt_lines i → fault ≡ Memory) }
        // The fault follows from the first eight bytes, as far as they decide.
        ensures fault { IfErr result (SaysOf bytes.now) }
    {
        tagged(bytes)?;
        let index = index_in(alloc, bytes)?;
        let spelt = index.encode(alloc)?;
        if is_same(&spelt, bytes) {
            Ok(index)
        } else {
            Err(fault_of(bytes))
        }
    }
}
