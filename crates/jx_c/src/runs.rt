// Partial results of a text: run files in buffers of the caller's.
ghost use Rattle.std.specs.Prelude.{◌≡◌, ◌⊎◌, ◌+◌, ◌<◌, ◌≤◌, ◌^◌, ◌++◌, ◌↔◌, ℕ, List, Option, length, drop, unwrap_or, IfErr, IfOk, IsTrue, MatchResult};
ghost use Rattle.jx_portion.specs.Portion.{end_of, start_of, IsPortion, IsRecord, IsSaidBy, PortionValue};
ghost use Rattle.jx_portion.specs.Reading.{IsSealed};
ghost use Rattle.jx_c.specs.Runs.{from_in, status_of, AreNeighbours, IsJoinStatus, IsTooLong, IsVerdictFrom, IsVerdictStatus, IsWritten};

use crate::shapes::status::{
    DEPTH_TOO_GREAT, NO_MEMORY, NO_ROOM, NOT_A_RUN, NOT_NEIGHBOURS, OK, OTHER_DEPTH, TOO_MANY_BYTES,
};
use crate::shapes::verdict::{JxVerdict, shown};
use jx_lex::Depth;
use jx_portion::{DecodeFault, Mismatch, Portion, decode};
use std::alloc::{AllocError, Global};

/// In place of an offset: nobody told where the part stands.
const NO_FROM: u64 = 18446744073709551615;

/// The offset of a part in the text, if it was given.
fn from_in(from: u64) -> Option<usize>
    ensures { result ≡ from_in from }
{
    if from == NO_FROM {
        None
    } else {
        Some(from as usize)
    }
}

/// Puts bytes into the buffer, if that has room for them, and their number into `size`.
pub(crate) fn put(bytes: &[u8], run: &mut [u8], size: &mut usize) -> u32
    ensures size { size.new ≡ length bytes.now }
    ensures put { result ≡ OK → (length bytes.now ≤ length run.old) × (run.new ≡ bytes.now ++ drop (length bytes.now) run.old) }
    ensures room { result ≡ NO_ROOM → length run.old < length bytes.now }
    ensures status { (result ≡ OK) ⊎ (result ≡ NO_ROOM) }
    ensures unchanged { (result ≡ OK → ⊥) → run.new ≡ run.old }
{
    *size = bytes.len();
    if run.len() < bytes.len() {
        return NO_ROOM;
    }
    run[..bytes.len()].copy_from_slice(bytes);
    OK
}

/// Makes the run file of a part.
fn record_of(
    alloc: Global,
    part: &[u8],
    from: Option<usize>,
    depth: Depth,
) -> Result<Vec<u8>, AllocError>
    requires fits { unwrap_or from 0 + length part.now < 2 ^ 64 }
    ensures { IfOk result (λ run. IsRecord part.now from depth run.items) }
{
    let portion = Portion::of(alloc, part, from, depth)?;
    portion.encode(alloc)
}

/// Reads a part of a text, which may be cut at any byte, and puts its record into the buffer.
#[unsafe(no_mangle)]
pub extern "C" fn jx_run_of(
    alloc: Global,
    part: &[u8],
    from: u64,
    depth: u32,
    run: &mut [u8],
    size: &mut usize,
) -> u32
    ensures written { result ≡ OK → IsWritten part.now (from_in from) depth run.old run.new size.new }
    ensures room { result ≡ NO_ROOM → IsTooLong part.now (from_in from) depth run.old size.new }
    ensures depth { 65535 < depth → result ≡ DEPTH_TOO_GREAT }
    ensures many { depth ≤ 65535 → 2 ^ 64 ≤ unwrap_or (from_in from) 0 + length part.now → result ≡ TOO_MANY_BYTES }
    ensures status { depth ≤ 65535 → unwrap_or (from_in from) 0 + length part.now < 2 ^ 64 → (result ≡ OK) ⊎ ((result ≡ NO_ROOM) ⊎ (result ≡ NO_MEMORY)) }
    ensures unchanged_run { (result ≡ OK → ⊥) → run.new ≡ run.old }
    ensures unchanged_size { (result ≡ OK → ⊥) → (result ≡ NO_ROOM → ⊥) → size.new ≡ size.old }
{
    let Some(depth) = Depth::new(depth) else {
        return DEPTH_TOO_GREAT;
    };
    let from = from_in(from);
    if from.unwrap_or(0).checked_add(part.len()).is_none() {
        return TOO_MANY_BYTES;
    }
    match record_of(alloc, part, from, depth) {
        Ok(record) => put(&record, run, size),
        Err(AllocError) => NO_MEMORY,
    }
}

/// The run of a record, or the status where there is none.
fn read(alloc: Global, run: &[u8]) -> Result<Portion, u32>
    ensures reads { (bytes : List ℕ) (from : Option ℕ) (depth : ℕ) → IsRecord bytes from depth run.now → MatchResult result (IsPortion bytes from depth) (λ status. status ≡ NO_MEMORY) }
    ensures status { IfErr result (λ status. (status ≡ NO_MEMORY) ⊎ (status ≡ NOT_A_RUN)) }
    ensures found { IfOk result (IsSaidBy run.now) }
    ensures sealed { IfErr result (λ status. status ≡ NO_MEMORY → IsSealed run.now) }
    ensures none { IfErr result (λ status. status ≡ NOT_A_RUN → (p : PortionValue) → IsSaidBy run.now p → ⊥) }
{
    match decode(alloc, run) {
        Ok(portion) => Ok(portion),
        Err(DecodeFault::Memory) => Err(NO_MEMORY),
        Err(DecodeFault::Fault(_)) => Err(NOT_A_RUN),
    }
}

/// The status where runs can't be joined.
fn status_of(mismatch: Mismatch) -> u32
    ensures { result ≡ status_of mismatch }
{
    match mismatch {
        Mismatch::Depths => OTHER_DEPTH,
        Mismatch::Froms | Mismatch::Place => NOT_NEIGHBOURS,
        Mismatch::TooLong => TOO_MANY_BYTES,
    }
}

/// The record of the bytes of both runs, or the status where there is none.
fn joined(alloc: Global, left: &[u8], right: &[u8]) -> Result<Vec<u8>, u32>
    ensures of { IfOk result (λ run. (xs ys : List ℕ) (from other : Option ℕ) (depth : ℕ) → IsRecord xs from depth left.now → IsRecord ys other depth right.now → IsRecord (xs ++ ys) from depth run.items) }
    ensures status { IfErr result (λ status. (status ≡ OK → ⊥) × (status ≡ NO_ROOM → ⊥)) }
    ensures runs { IfOk result (λ _. AreNeighbours left.now right.now) }
    ensures why { IfErr result (IsJoinStatus left.now right.now) }
{
    let left = read(alloc, left)?;
    let right = read(alloc, right)?;
    if let Err(mismatch) = left.meets(&right) {
        return Err(status_of(mismatch));
    }
    let Ok(portion) = left.join(right) else {
        return Err(NO_MEMORY);
    };
    match portion.encode(alloc) {
        Ok(run) => Ok(run),
        Err(AllocError) => Err(NO_MEMORY),
    }
}

/// Puts the run file of the bytes of both runs into the buffer: those of the right, which has to begin where the left ends,
/// follow those of the left.
#[unsafe(no_mangle)]
pub extern "C" fn jx_run_join(
    alloc: Global,
    left: &[u8],
    right: &[u8],
    run: &mut [u8],
    size: &mut usize,
) -> u32
    ensures written { (xs ys : List ℕ) (from other : Option ℕ) (depth : ℕ) → IsRecord xs from depth left.now → IsRecord ys other depth right.now → result ≡ OK → IsWritten (xs ++ ys) from depth run.old run.new size.new }
    ensures room { (xs ys : List ℕ) (from other : Option ℕ) (depth : ℕ) → IsRecord xs from depth left.now → IsRecord ys other depth right.now → result ≡ NO_ROOM → IsTooLong (xs ++ ys) from depth run.old size.new }
    ensures status { IsJoinStatus left.now right.now result }
    ensures unchanged_run { (result ≡ OK → ⊥) → run.new ≡ run.old }
    ensures unchanged_size { (result ≡ OK → ⊥) → (result ≡ NO_ROOM → ⊥) → size.new ≡ size.old }
{
    match joined(alloc, left, right) {
        Ok(record) => put(&record, run, size),
        Err(status) => status,
    }
}

/// Whether the run is of the bytes of the text from `start` up to `end`.
fn covers(portion: &Portion, start: usize, end: usize) -> bool
    ensures { IsTrue result ↔ (start ≡ start_of portion.now) × (end ≡ end_of portion.now) }
{
    portion.start() == start && portion.end() == end
}

/// The verdict on the bytes of a run as a whole text. They have to be those of the text from `start` up to `end`.
#[unsafe(no_mangle)]
pub extern "C" fn jx_run_verdict(
    alloc: Global,
    run: &[u8],
    start: usize,
    end: usize,
    verdict: &mut JxVerdict,
) -> u32
    ensures judged { (bytes : List ℕ) (from : Option ℕ) (depth : ℕ) → IsRecord bytes from depth run.now → result ≡ OK → IsVerdictFrom (unwrap_or from 0) bytes depth verdict.new }
    ensures covered { (bytes : List ℕ) (from : Option ℕ) (depth : ℕ) → IsRecord bytes from depth run.now → result ≡ OK → (start ≡ unwrap_or from 0) × (end ≡ unwrap_or from 0 + length bytes) }
    ensures told { (bytes : List ℕ) (from : Option ℕ) (depth : ℕ) → IsRecord bytes from depth run.now → start ≡ unwrap_or from 0 → end ≡ unwrap_or from 0 + length bytes → (result ≡ OK) ⊎ (result ≡ NO_MEMORY) }
    ensures status { IsVerdictStatus run.now start end result }
    ensures unchanged { (result ≡ OK → ⊥) → verdict.new ≡ verdict.old }
{
    let portion = match read(alloc, run) {
        Ok(portion) => portion,
        Err(status) => return status,
    };
    if !covers(&portion, start, end) {
        return NOT_NEIGHBOURS;
    }
    *verdict = shown(portion.verdict());
    OK
}
