ghost use Rattle.std.specs.Prelude.{◌≡◌, ◌<◌, ◌≤◌, ℕ, List, [], Some, false, IfErr, IfOk, OnOk, length, vec_len};
ghost use Rattle.std.specs.Thread.{IsSend, IsSync};
ghost use Rattle.jx_parallel.specs.Faults.{IfRead, ReadFailsBy};
ghost use Rattle.jx_parallel.specs.Offsets.{EndsBefore};
ghost use Rattle.jx_parallel.specs.Parts.{GoesOn, HasReadAll};

use crate::check_fault::CheckFault;
use crate::judging::{Parts, judge_some};
use crate::part_reader::PartReader;
use crate::pieces::Pieces;
use crate::placed::Placed;
use crate::ruled::Ruled;
use crate::shared_at::SharedAt;
use crate::taking::{read_there, read_to, take_parts};
use jx_crew::Workers;
use jx_fork::call_each;
use std::alloc::{AllocError, Global};
use std::marker::Brand;
use std::sync::{Mutex, Wait};
use std::thread::Threads;

/// How many chunks each worker has in the first round, in the mean. A round has twice as many as the one before.
const FIRST: usize = 4;

/// How many chunks a round has at most. Their parts are kept at once.
const MOST: usize = 256;

/// How many bytes are read at most to see whether a text goes on.
const FEW: usize = 4096;

/// A number for each worker.
fn numbers(alloc: Global, workers: Workers) -> Result<Vec<u8>, AllocError> {
    let mut numbers = Vec::new(alloc);
    for number in 0..workers.count() {
        numbers.push(number)?;
    }
    Ok(numbers)
}

/// The parts that workers judge between two offsets.
fn judged_between<
    F: SharedAt + Sync,
    L: PartReader + Send,
    K: Ruled<L::Rule> + Send + Sync,
    R: Threads + Wait + Sync,
>(
    rt: &R,
    alloc: Global,
    file: &F,
    workers: Workers,
    piece: usize,
    rule: &L::Rule,
    from: usize,
    end: usize,
) -> Result<Vec<Placed<L, K>>, AllocError>
    requires text { K.text ≡ F.content file.now }
    requires rule { K.rule ≡ Some rule.now }
{
    let pieces = Pieces::new(from, piece);
    let parts: Parts<L, K> = Mutex::new(Vec::<Placed<L, K>>::new(alloc));
    let jobs = numbers(alloc, workers)?;
    call_each(
        rt,
        alloc,
        jobs,
        &|_number: u8| -> bool
            requires { (K.text ≡ F.content file.now) × (K.rule ≡ Some rule.now) }
        { judge_some::<F, L, K, R>(rt, alloc, file, rule, &parts, &pieces, end) },
    )?;
    Ok(parts.into_inner())
}

/// Reads a round as `read_round` does, of the text that `K` names.
fn read_round_of<
    F: SharedAt + Sync,
    L: PartReader + Send,
    K: Ruled<L::Rule> + Send + Sync,
    R: Threads + Wait + Sync,
>(
    rt: &R,
    alloc: Global,
    file: &F,
    workers: Workers,
    buffer: &mut [u8],
    count: usize,
    rule: &L::Rule,
    reader: &mut L,
) -> Result<(), CheckFault<F::Fault>>
    requires text { K.text ≡ F.content file.now }
    requires rule { K.rule ≡ Some rule.now }
    ensures length { length buffer.new ≡ length buffer.old }
    ensures read { OnOk result (GoesOn (F.content file.now) (L.has_read rule.now) reader.old reader.new) }
    ensures stopped { IfErr result (IfRead (GoesOn (F.content file.now) (L.has_read rule.now) reader.old reader.new)) }
    ensures fault { IfErr result (ReadFailsBy (F.may_fail file.now)) }
{
    let piece = buffer.len();
    let start = reader.starts();
    read_to(rt, file, rule, buffer, start, reader)?;
    let from = reader.end();
    let end = from.saturating_add(piece.saturating_mul(count));
    let parts = judged_between::<F, L, K, R>(rt, alloc, file, workers, piece, rule, from, end)?;
    take_parts::<F, L, K, R>(rt, file, rule, buffer, parts, reader)?;
    read_to(rt, file, rule, buffer, end, reader)?;
    Ok(())
}

/// Lets a reader go on in a text by parts that workers judge, and returns whether more bytes follow.
///
/// Each worker reads chunks of as many bytes as the buffer has, at least 1, each at its offset, into a buffer of its own. It judges
/// what it can of each without the bytes before and after. There are so many chunks. When the workers have ended, the reader
/// takes their parts in order, and reads the bytes between. A read that gives no byte ends the text. A reader that is full ends
/// the round, and what was judged behind is judged again. The first chunk begins where the reader says that parts may.
///
/// Memory is kept for a buffer for each worker, and for the parts. If an allocation or a read of a worker fails, the calling
/// thread reads what is left.
pub fn read_round<F: SharedAt + Sync, L: PartReader + Send, R: Threads + Wait + Sync>(
    rt: &R,
    alloc: Global,
    file: &F,
    workers: Workers,
    buffer: &mut [u8],
    count: usize,
    rule: &L::Rule,
    reader: &mut L,
) -> Result<bool, CheckFault<F::Fault>>
    requires room { 0 < length buffer.old }
    ensures length { length buffer.new ≡ length buffer.old }
    // For every number of workers and chunks, size of chunks and order of steps, it has read the bytes that come next; after a
    // read fault those before it.
    ensures read { OnOk result (GoesOn (F.content file.now) (L.has_read rule.now) reader.old reader.new) }
    ensures stopped { IfErr result (IfRead (GoesOn (F.content file.now) (L.has_read rule.now) reader.old reader.new)) }
    ensures end { IfOk result (λ more. more ≡ false → EndsBefore (F.content file.now) (L.end reader.new)) }
    ensures fault { IfErr result (ReadFailsBy (F.may_fail file.now)) }
{
    read_round_of::<F, L, Brand, R>(rt, alloc, file, workers, buffer, count, rule, reader)?;
    let few = buffer.len().min(FEW);
    let more = read_there(file, rule, &mut buffer[..few], reader)?;
    Ok(more > 0)
}

/// Lets a reader read a text to its end, by rounds of parts that workers judge.
///
/// The first round has four chunks for each worker, of so many bytes each, at least 1. Each round has twice as many chunks as the
/// one before, at most 256.
pub fn read_by_parts<F: SharedAt + Sync, L: PartReader + Send, R: Threads + Wait + Sync>(
    rt: &R,
    alloc: Global,
    file: &F,
    workers: Workers,
    piece: usize,
    rule: &L::Rule,
    reader: &mut L,
) -> Result<(), CheckFault<F::Fault>>
    requires piece { 1 ≤ piece }
    // For every number of workers, size of chunks and order of steps, it has read the content, if it had read nothing.
    ensures read { OnOk result ((given : L.Given) → L.has_read rule.now [] given reader.old → HasReadAll (F.content file.now) (λ xs. L.has_read rule.now xs given) reader.new) }
    ensures fault { IfErr result (ReadFailsBy (F.may_fail file.now)) }
{
    let mut buffer = Vec::new(alloc);
    buffer.resize(piece, 0u8)?;
    let mut count = FIRST.saturating_mul(workers.count() as usize);
    for _ in rt.forever() {
        let slice = buffer.as_mut_slice();
        let more = read_round(rt, alloc, file, workers, slice, count, rule, reader)?;
        if !more {
            let _end = reader.end();
            return Ok(());
        }
        count = count.saturating_mul(2).min(MOST);
    }
    unreachable!()
}
