// Reads the index and the tables that are saved of a text.
ghost use Rattle.std.specs.Prelude.{◌≡◌, ◌≢◌, ◌+◌, ◌<◌, ◌≤◌, ◌↔◌, true, false, Some, length, IfOk, IfErr, IsErrOf};
ghost use Rattle.std.specs.Io.KnownBytes.{Consumes, IsAtEnd};
ghost use Rattle.jx_ends.specs.Ends.{ReadsToEnd};
ghost use Rattle.jx_file_index.specs.declared.saved_text.SavedText.{SavedText};
ghost use Rattle.jx_file_index.specs.SavedTexts.{IsSavableToo, SaysSameToo};
ghost use Rattle.jx_file_index.specs.TextSpelling.{spelt_saved};
ghost use Rattle.jx_cmd_index.specs.inside.Faults.{IsOfSaved};

use crate::look_fault::{LookFault, saved_fault};
use jx_ends::{ReportFault, Source, fill_buffer};
use jx_file_index::{Index, SavedFault, SavedText, digest_of};
use std::alloc::Global;

/// How many bytes the head of an index has, and how many of them its digest is of.
const HEAD: usize = 64;

const SEALED: usize = 56;

/// Where the head reports the size of the text.
const SIZE_AT: usize = 8;

/// How many bytes an entry has, and a key of a table, or the count of its keys.
const ENTRY: usize = 24;

const KEY: usize = 4;

/// How many bytes are before the tables of names and after them.
const TABLES: usize = 16;

/// How many bytes a chunk has at least.
const LEAST_CHUNK: usize = 64;

/// How many bytes follow the head at most, for a text of so many bytes, and one more.
fn most_behind(size: usize) -> usize {
    // For each chunk two entries and a count of keys; what else tables have, and one byte more.
    let all = (2 * ENTRY + KEY) * (size / LEAST_CHUNK + 1) + TABLES + 1;
    // A member has five bytes or more, and a key four.
    all.saturating_add(size)
}

/// Eight bytes, low byte first.
fn word_at(bytes: &[u8], at: usize) -> usize
    requires { at + 8 ≤ length bytes.now }
{
    u64::from_le_bytes([
        bytes[at],
        bytes[at + 1],
        bytes[at + 2],
        bytes[at + 3],
        bytes[at + 4],
        bytes[at + 5],
        bytes[at + 6],
        bytes[at + 7],
    ]) as usize
}

/// The size of the text by a head, if its digest is that of its bytes.
fn size_told(head: &[u8]) -> Option<usize> {
    if head.len() < HEAD || digest_of(&head[0..SEALED]) != word_at(head, SEALED) as u64 {
        return None;
    }
    Some(word_at(head, SIZE_AT))
}

/// Reads up to so many bytes of an index.
fn fill_saved<S: Source>(alloc: Global, saved: &mut S, limit: usize) -> Result<Vec<u8>, LookFault>
    requires unfailed { S.has_failed saved.old ≡ false }
    ensures ok { IfOk result (λ bytes. Consumes (S.remaining saved.old) (S.remaining saved.new) bytes.items) }
    ensures end { IfOk result (λ bytes. length bytes.items < limit → IsAtEnd (S.remaining saved.new)) }
    ensures read { IsErrOf result LookFault.SavedRead ↔ (S.has_failed saved.new ≡ true) }
    ensures going { IfOk result (λ _. S.has_failed saved.new ≡ false) }
    ensures fault { IfErr result (λ fault. fault ≢ LookFault.SavedRead → fault ≡ LookFault.Memory) }
{
    let mut bytes = Vec::new(alloc);
    match fill_buffer(saved, &mut bytes, limit) {
        Ok(filled) => {
            bytes.truncate(filled);
            Ok(bytes)
        }
        Err(ReportFault::Read) => Err(LookFault::SavedRead),
        Err(ReportFault::Memory | ReportFault::Write | ReportFault::Pieces) => {
            Err(LookFault::Memory)
        }
    }
}

/// Whether bytes may be the first ones of the index of a text of so many bytes. That bytes are not an index, or one of
/// another version, shows before their size does.
fn check_head(alloc: Global, head: &[u8], size: usize) -> Result<(), LookFault>
    ensures long { IfOk result (λ _. 64 ≤ length head.now) }
    ensures fault { IfErr result (IsOfSaved size) }
    ensures unfailed { IfErr result (λ fault. fault ≢ LookFault.SavedRead) }
{
    match Index::decode(alloc, head) {
        Err(SavedFault::NotAnIndex) => return Err(LookFault::Saved(SavedFault::NotAnIndex)),
        Err(SavedFault::OtherVersion) => return Err(LookFault::Saved(SavedFault::OtherVersion)),
        _ => (),
    }
    if head.len() < HEAD {
        return Err(LookFault::Saved(SavedFault::CutShort));
    }
    match size_told(head) {
        Some(indexed) if indexed != size => Err(LookFault::OtherSize { size, indexed }),
        _ => Ok(()),
    }
}

/// The index and tables of a text of so many bytes, from these bytes.
fn saved_of(alloc: Global, bytes: &[u8], size: usize) -> Result<SavedText, LookFault>
    ensures found { IfOk result (λ read. spelt_saved read ≡ bytes.now) }
    ensures size { IfOk result (λ read. read.index.size ≡ size) }
    ensures reads { IfOk result (λ read. (s : SavedText) → IsSavableToo s → bytes.now ≡ spelt_saved s → SaysSameToo read s) }
    ensures fault { IfErr result (IsOfSaved size) }
    ensures unfailed { IfErr result (λ fault. fault ≢ LookFault.SavedRead) }
{
    match SavedText::decode(alloc, bytes) {
        Err(fault) => Err(saved_fault(fault)),
        Ok(read) => {
            if read.index.size != size {
                let indexed = read.index.size;
                return Err(LookFault::OtherSize { size, indexed });
            }
            Ok(read)
        }
    }
}

/// Reads an index to its end, which is that of a text of so many bytes, and the tables of names after it, if there are
/// any. No more is read than these have, and a byte after them.
pub(crate) fn read_saved<S: Source>(
    alloc: Global,
    saved: &mut S,
    size: usize,
) -> Result<SavedText, LookFault>
    requires unfailed { S.has_failed saved.old ≡ false }
    ensures ok { IfOk result (λ read. ReadsToEnd (S.remaining saved.old) (S.remaining saved.new) (spelt_saved read)) }
    ensures size { IfOk result (λ read. read.index.size ≡ size) }
    ensures reads { IfOk result (λ read. (s : SavedText) → IsSavableToo s → S.remaining saved.old ≡ Some (spelt_saved s) → SaysSameToo read s) }
    ensures fault { IfErr result (IsOfSaved size) }
    ensures read { IsErrOf result LookFault.SavedRead ↔ (S.has_failed saved.new ≡ true) }
{
    let mut bytes = fill_saved(alloc, saved, HEAD)?;
    check_head(alloc, &bytes, size)?;
    let most = most_behind(size);
    let rest = fill_saved(alloc, saved, most)?;
    bytes.extend_from_slice(&rest)?;
    let read = saved_of(alloc, &bytes, size)?;
    if rest.len() < most {
        Ok(read)
    } else {
        Err(LookFault::Saved(SavedFault::Longer))
    }
}
