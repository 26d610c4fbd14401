//! An index from its bytes.
ghost use Rattle.std.specs.Prelude.{◌≡◌, ◌≢◌, ◌+◌, ◌*◌, ◌<◌, ◌≤◌, ◌++◌, ◌∷◌, [], ℕ, List, Bool, length, slice_index, take, IfErr, IfNone, IfOk, IfSome, IsTrue};
ghost use Rattle.std.specs.Int.{w16, w64, from_le_bytes, to_le_bytes};
ghost use Rattle.std.specs.List.{AllByRecursion, flat_map};
ghost use Rattle.jx_lex.specs.declared.alphabet.state.LexState.{LexState};
ghost use Rattle.jx_lex.specs.Ordinal.{ordinal};
ghost use Rattle.jx_reduce.specs.declared.table.expect.Expect.{Expect};
ghost use Rattle.jx_run.specs.declared.texts.settings.FrontMark.{FrontMark};
ghost use Rattle.jx_run.specs.declared.texts.settings.NameRule.{NameRule};
ghost use Rattle.jx_file_index.specs.declared.entry.Entry.{Entry};
ghost use Rattle.jx_file_index.specs.declared.index.Index.{Index};
ghost use Rattle.jx_file_index.specs.Chunks.{IsCount};
ghost use Rattle.jx_file_index.specs.Digest.{xxh64};
ghost use Rattle.jx_file_index.specs.inside.Decoded.{IsHead, IsHeadOf};
ghost use Rattle.jx_file_index.specs.Index.{AreLevels};
ghost use Rattle.jx_file_index.specs.Saved.{FitsEntry, HasItsEntries, HasItsLevels, IsMemory, IsSavable, SaysOf, SaysSame};
ghost use Rattle.jx_file_index.specs.Spelling.{expect_number, flags, front_flags, spelt_entry, spelt_front, spelt_index, tag};
ghost use Rattle.jx_file_index.specs.declared.index_decoding.SavedFault.TheVariants.{Memory};

use crate::chunk_size::ChunkSize;
use crate::digest::{digest_of, half_at, word_at};
use crate::entry::Entry;
use crate::index::Index;
use crate::index_spelling::TAG;
use crate::lengths::{ENTRY, HEAD, kept_of, parts};
use crate::levels::levels_of;
use crate::sum::Sum;
use jx_lex::{Depth, LexState};
use jx_reduce::Expect;
use jx_run::{FrontMark, NameRule, Settings};
use std::alloc::{AllocError, AllocFailed, Global};
use thiserror::Error;

/// Why bytes are not read as an index: the first fault from left to right.
#[derive(Debug, Drop, Error)]
pub enum SavedFault {
    /// Out of memory, or entries have counts too large to be joined; nothing else is said of the bytes.
    #[error("out of memory")]
    Memory,
    /// They do not begin as an index does.
    #[error("not a saved index")]
    NotAnIndex,
    /// They are of another version of the format.
    #[error("another version")]
    OtherVersion,
    /// They end too early.
    #[error("cut short")]
    CutShort,
    /// The digest of the head, or of a block of entries, is that of other bytes; or a level is not that of the one below.
    #[error("damaged")]
    Damaged,
    /// No index has this field.
    #[error("malformed")]
    Malformed,
    /// They go on after the last entry.
    #[error("more bytes than an index has")]
    Longer,
}

impl From<AllocError> for SavedFault {
    ghost from_gives = { λ _ e. e ≡ Memory };

    fn from(_e: AllocError) -> SavedFault {
        SavedFault::Memory
    }
}

impl<T: Drop> From<AllocFailed<T>> for SavedFault {
    ghost from_gives = { λ _ e. e ≡ Memory };

    fn from(_e: AllocFailed<T>) -> SavedFault {
        SavedFault::Memory
    }
}

/// How many bytes of the head its digest is of.
const FRONT: usize = 56;

/// The contents of the head.
#[derive(Clone, Copy)]
struct Head {
    settings: Settings,
    chunk: ChunkSize,
    size: usize,
    top: Entry,
}

/// The state at a place, or that between tokens.
fn state_of(place: u8) -> LexState
    ensures { (s : LexState) → place ≡ ordinal s → result ≡ s }
{
    let all = LexState::all();
    if (place as usize) < all.len() {
        all[place as usize]
    } else {
        LexState::Gap
    }
}

/// The expectation at this place of the list, or a value.
fn expect_of(place: u8) -> Expect
    ensures { (e : Expect) → place ≡ expect_number e → result ≡ e }
{
    match place {
        1 => Expect::ArrayFirst,
        2 => Expect::ObjectFirst,
        3 => Expect::Name,
        4 => Expect::Colon,
        5 => Expect::After,
        _ => Expect::Value,
    }
}

/// Whether a token start begins, and whether an end shows.
fn flags_of(number: u8) -> (bool, bool)
    ensures { (begins ends : Bool) → number ≡ flags begins ends → (result.0 ≡ begins) × (result.1 ≡ ends) }
{
    match number {
        1 => (true, false),
        2 => (false, true),
        3 => (true, true),
        _ => (false, false),
    }
}

/// Whether a byte order mark is ignored, and which names objects may have.
fn rules_of(number: u64) -> (FrontMark, NameRule)
    ensures { (mark : FrontMark) (names : NameRule) → number ≡ front_flags mark names → (result.0 ≡ mark) × (result.1 ≡ names) }
{
    match number {
        1 => (FrontMark::Ignored, NameRule::Any),
        2 => (FrontMark::Refused, NameRule::Unique),
        3 => (FrontMark::Ignored, NameRule::Unique),
        _ => (FrontMark::Refused, NameRule::Any),
    }
}

/// Two bytes, low byte first.
fn pair_at(bytes: &[u8], at: usize) -> u16
    requires { at + 2 ≤ length bytes.now }
    ensures { result ≡ from_le_bytes w16 (slice_index bytes.now at ∷ slice_index bytes.now (at + 1) ∷ []) }
{
    u16::from_le_bytes([bytes[at], bytes[at + 1]])
}

/// The entry that these bytes encode, if they encode one.
fn entry_of(bytes: &[u8]) -> Entry
    requires { length bytes.now ≡ 24 }
    ensures { (e : Entry) → FitsEntry e → bytes.now ≡ spelt_entry e → result ≡ e }
{
    let (begins, ends) = flags_of(bytes[6]);
    Entry {
        state: state_of(bytes[4]),
        expect: expect_of(bytes[5]),
        sum: Sum {
            closed: pair_at(bytes, 0),
            opened: pair_at(bytes, 2),
            commas: word_at(bytes, 8),
        },
        begins,
        ends,
        digest: word_at(bytes, 16),
    }
}

/// The entries that these bytes encode, if they encode so many.
fn entries_of(alloc: Global, bytes: &[u8], count: usize) -> Result<Vec<Entry>, AllocError>
    requires { length bytes.now ≡ 24 * count }
    ensures count { IfOk result (λ entries. length entries.items ≡ count) }
    ensures reads { IfOk result (λ entries. (es : List Entry) → AllByRecursion FitsEntry es → bytes.now ≡ flat_map spelt_entry es → entries.items ≡ es) }
{
    let mut entries = Vec::new(alloc);
    for n in 0..count {
        entries.push(entry_of(&bytes[ENTRY * n..ENTRY * n + ENTRY]))?;
    }
    Ok(entries)
}

/// The first bytes, so many or all.
#[tactic(auto, using(crate::proofs::Decodings::all_taken))]
fn first(bytes: &[u8], count: usize) -> &[u8]
    ensures { result.now ≡ take count bytes.now }
{
    if bytes.len() <= count {
        return bytes;
    }
    &bytes[0..count]
}

/// Whether the bytes begin as an index of this version does.
fn tagged(bytes: &[u8]) -> Result<(), SavedFault>
    ensures tag { IfOk result (λ _. take 8 bytes.now ≡ tag) }
    ensures fault { IfErr result (SaysOf bytes.now) }
    ensures only { IfErr result (λ _. take 8 bytes.now ≢ tag) }
{
    if first(bytes, 8) == TAG.as_slice() {
        return Ok(());
    }
    if first(bytes, 7) == &TAG[0..7] {
        return Err(SavedFault::OtherVersion);
    }
    Err(SavedFault::NotAnIndex)
}

/// Whether the digest of the head is that of the bytes before it.
fn is_sealed(bytes: &[u8]) -> bool
    requires { 64 ≤ length bytes.now }
    ensures { (i : Index) (rest : List ℕ) → bytes.now ≡ (spelt_front i ++ to_le_bytes w64 (xxh64 (spelt_front i))) ++ rest → IsTrue result }
{
    digest_of(&bytes[0..FRONT]) == word_at(bytes, FRONT)
}

/// The contents of a head, if it is one.
fn head_of(bytes: &[u8]) -> Option<Head>
    requires { 64 ≤ length bytes.now }
    ensures some { IfSome result (λ h. 0 < h.size) }
    ensures reads { (i : Index) (rest : List ℕ) → IsSavable i → bytes.now ≡ spelt_front i ++ rest → IsHeadOf i result }
{
    let size = word_at(bytes, 8) as usize;
    if size == 0 {
        return None;
    }
    let chunk = ChunkSize::new(half_at(bytes, 16) as usize)?;
    let depth = Depth::new(half_at(bytes, 20).min(65_536) as u32)?;
    let (mark, names) = rules_of(half_at(bytes, 24));
    Some(Head {
        settings: Settings { depth, mark, names },
        chunk,
        size,
        top: entry_of(&bytes[32..FRONT]),
    })
}

/// The contents of the head of an index.
fn head_from(bytes: &[u8]) -> Result<Head, SavedFault>
    ensures long { IfOk result (λ _. 64 ≤ length bytes.now) }
    ensures some { IfOk result (λ h. 0 < h.size) }
    ensures tag { IfOk result (λ _. take 8 bytes.now ≡ tag) }
    ensures reads { IfOk result (λ h. (i : Index) → IsSavable i → bytes.now ≡ spelt_index i → IsHead i h) }
    ensures fault { IfErr result (SaysOf bytes.now) }
    ensures only { IfErr result (λ _. (i : Index) → IsSavable i → bytes.now ≢ spelt_index i) }
{
    tagged(bytes)?;
    if bytes.len() < HEAD {
        return Err(SavedFault::CutShort);
    }
    if !is_sealed(bytes) {
        return Err(SavedFault::Damaged);
    }
    match head_of(bytes) {
        Some(head) => Ok(head),
        None => Err(SavedFault::Malformed),
    }
}

/// The entries after a head of an index that keeps so many.
fn entries_behind(alloc: Global, rest: &[u8], kept: usize) -> Result<Vec<Entry>, SavedFault>
    ensures count { IfOk result (λ entries. length entries.items ≡ kept) }
    ensures reads { IfOk result (λ entries. (es : List Entry) → AllByRecursion FitsEntry es → rest.now ≡ flat_map spelt_entry es → entries.items ≡ es) }
    ensures only { IfErr result (λ fault. length rest.now ≡ 24 * kept → IsMemory fault) }
    ensures said { (bytes : List ℕ) → take 8 bytes ≡ tag → IfErr result (SaysOf bytes) }
{
    if rest.len() / ENTRY < kept {
        return Err(SavedFault::CutShort);
    }
    if rest.len() > ENTRY * kept {
        return Err(SavedFault::Longer);
    }
    Ok(entries_of(alloc, rest, kept)?)
}

/// The index with this head whose entries follow it.
fn index_behind(alloc: Global, bytes: &[u8], head: Head) -> Result<Index, SavedFault>
    requires long { 64 ≤ length bytes.now }
    requires some { 0 < head.size }
    ensures has { IfOk result HasItsEntries }
    ensures reads { IfOk result (λ index. (i : Index) → IsSavable i → IsHead i head → bytes.now ≡ spelt_index i → SaysSame index i) }
    ensures only { IfErr result (λ fault. (i : Index) → IsSavable i → IsHead i head → bytes.now ≡ spelt_index i → IsMemory fault) }
    ensures said { take 8 bytes.now ≡ tag → IfErr result (SaysOf bytes.now) }
{
    let count = parts(head.size, head.chunk.bytes());
    let kept = kept_of(count);
    let entries = entries_behind(alloc, &bytes[HEAD..bytes.len()], kept)?;
    Ok(Index {
        settings: head.settings,
        chunk: head.chunk,
        size: head.size,
        entries,
        top: head.top,
    })
}

/// Whether both are the same bytes.
pub(crate) fn is_same(one: &[u8], other: &[u8]) -> bool
    ensures same { IsTrue result → one.now ≡ other.now }
    ensures told { one.now ≡ other.now → IsTrue result }
{
    one == other
}

/// The index, if its bytes are these; else a fault is given.
fn spelt_so(
    alloc: Global,
    index: Index,
    bytes: &[u8],
    fault: SavedFault,
) -> Result<Index, SavedFault>
    ensures found { IfOk result (λ i. spelt_index i ≡ bytes.now) }
    ensures same { IfOk result (λ i. i ≡ index) }
    ensures only { IfErr result (λ f. spelt_index index ≡ bytes.now → IsMemory f) }
    ensures said { SaysOf bytes.now fault → IfErr result (SaysOf bytes.now) }
{
    let spelt = index.encode(alloc)?;
    if is_same(spelt.as_slice(), bytes) {
        Ok(index)
    } else {
        Err(fault)
    }
}

/// The entries of the lowest level.
fn lowest_of(alloc: Global, index: &Index) -> Result<Vec<Entry>, AllocError>
    requires { HasItsEntries index.now }
    ensures counted { IfOk result (λ lowest. IsCount index.now.chunk index.now.size (length lowest.items)) }
    ensures lowest { IfOk result (λ lowest. (es : List Entry) → IsCount index.now.chunk index.now.size (length es) → AreLevels es index.now.entries.items index.now.top → lowest.items ≡ es) }
{
    let count = parts(index.size, index.chunk.bytes());
    let mut lowest = Vec::new(alloc);
    let kept = index.entries.len();
    if kept < count {
        lowest.push(index.top)?;
        return Ok(lowest);
    }
    lowest.extend_from_slice(&index.entries.as_slice()[0..count])?;
    Ok(lowest)
}

/// The index that says what another says of the lowest level, with the levels above made of that.
fn joined_again(alloc: Global, read: &Index) -> Result<Option<Index>, AllocError>
    requires { HasItsEntries read.now }
    ensures levels { IfOk result (λ made. IfSome made HasItsLevels) }
    ensures reads { IfOk result (λ made. IfSome made (λ index. (i : Index) → HasItsLevels i → SaysSame read.now i → SaysSame index i)) }
    ensures some { IfOk result (λ made. IfNone made ((i : Index) → HasItsLevels i → SaysSame read.now i → ⊥)) }
{
    let lowest = lowest_of(alloc, read)?;
    let kept = levels_of(alloc, lowest)?;
    match kept {
        None => Ok(None),
        Some(levels) => Ok(Some(Index {
            settings: read.settings,
            chunk: read.chunk,
            size: read.size,
            entries: levels.entries,
            top: levels.top,
        })),
    }
}

impl Index {
    /// The index whose bytes these are, all of them. Nothing is reserved by a number that they name.
    pub fn decode(alloc: Global, bytes: &[u8]) -> Result<Index, SavedFault>
        // Nothing else is read.
        ensures found { IfOk result (λ index. spelt_index index ≡ bytes.now) }
        ensures levels { IfOk result HasItsLevels }
        // An index that is written so is read, unless memory runs out.
        ensures reads { IfOk result (λ index. (i : Index) → IsSavable i → bytes.now ≡ spelt_index i → SaysSame index i) }
        ensures only { IfErr result (λ fault. (i : Index) → IsSavable i → bytes.now ≡ spelt_index i → IsMemory fault) }
        // The fault follows from the first eight bytes, as far as they decide.
        ensures fault { IfErr result (SaysOf bytes.now) }
    {
        let head = head_from(bytes)?;
        let said = index_behind(alloc, bytes, head)?;
        let read = spelt_so(alloc, said, bytes, SavedFault::Malformed)?;
        let made = joined_again(alloc, &read)?;
        match made {
            None => Err(SavedFault::Damaged),
            Some(made) => {
                let index = spelt_so(alloc, made, bytes, SavedFault::Damaged)?;
                Ok(index)
            }
        }
    }
}
