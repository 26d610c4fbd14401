// How many bytes an index has, by its head.
ghost use Rattle.std.specs.Prelude.{◌≡◌, ◌+◌, ◌*◌, ◌<◌, ◌≤◌, ◌^◌, ◌++◌, ℕ, List, length, take, Some, IfSome};
ghost use Rattle.jx_file_index.specs.declared.index.Index.{Index};
ghost use Rattle.jx_file_index.specs.Chunks.{IsCount};
ghost use Rattle.jx_file_index.specs.Saved.{AreKept, IsSavable};
ghost use Rattle.jx_file_index.specs.Spelling.{spelt_front, spelt_index};

use crate::digest::{half_at, word_at};
use crate::levels::BLOCK;

/// How many bytes the head has.
pub(crate) const HEAD: usize = 64;

/// How many bytes an entry has.
pub(crate) const ENTRY: usize = 24;

/// How many chunks a text has, or blocks a level.
pub(crate) fn parts(size: usize, part: usize) -> usize
    requires { 64 ≤ part }
    ensures counted { IsCount part size result }
    ensures few { result ≤ 2 ^ 58 }
    ensures some { 0 < size → 0 < result }
{
    if size % part == 0 {
        size / part
    } else {
        size / part + 1
    }
}

/// How many entries are kept of so many chunks.
pub(crate) fn kept_of(chunks: usize) -> usize
    requires some { 0 < chunks }
    requires few { chunks ≤ 2 ^ 58 }
    ensures kept { AreKept chunks result }
    ensures few { result ≤ 2 ^ 59 }
{
    let mut kept = 0;
    let mut level = chunks;
    'levels: while level > 1 {
        kept += level;
        level = parts(level, BLOCK);
    }
    kept
}

/// The size of the text of an index with this head, and how many bytes each chunk has.
fn sizes_of(bytes: &[u8]) -> (usize, usize)
    requires { 64 ≤ length bytes.now }
    ensures { (i : Index) (rest : List ℕ) → IsSavable i → bytes.now ≡ spelt_front i ++ rest → (result.0 ≡ i.size) × (result.1 ≡ i.chunk) }
{
    (word_at(bytes, 8) as usize, half_at(bytes, 16) as usize)
}

/// How many bytes an index with this head has, or none where it is the head of none.
fn length_by(bytes: &[u8]) -> Option<usize>
    requires { 64 ≤ length bytes.now }
    ensures known { (i : Index) (rest : List ℕ) → IsSavable i → bytes.now ≡ spelt_front i ++ rest → result ≡ Some (64 + 24 * length i.entries.items) }
    ensures least { IfSome result (λ n. 64 ≤ n) }
{
    let (size, chunk) = sizes_of(bytes);
    if size == 0 || chunk < 64 {
        return None;
    }
    Some(HEAD + ENTRY * kept_of(parts(size, chunk)))
}

/// How many of these bytes are those of an index, by its head: all, where they are fewer, or begin with no head.
pub(crate) fn index_length(bytes: &[u8]) -> usize
    ensures within { result ≤ length bytes.now }
    ensures front { take 8 (take result bytes.now) ≡ take 8 bytes.now }
    ensures index { (i : Index) (rest : List ℕ) → IsSavable i → bytes.now ≡ spelt_index i ++ rest → result ≡ length (spelt_index i) }
{
    if bytes.len() < HEAD {
        return bytes.len();
    }
    let Some(len) = length_by(bytes) else {
        return bytes.len();
    };
    if len < bytes.len() {
        return len;
    }
    bytes.len()
}
