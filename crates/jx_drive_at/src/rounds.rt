// Rounds in which workers read bytes at offsets.
ghost use Rattle.std.specs.Prelude.{◌≡◌, ◌≤◌, false, IfErr, IfOk, OnOk};
ghost use Rattle.std.specs.Thread.{IsSend, IsSync};
ghost use Rattle.jx_parallel.specs.Faults.{IfRead, ReadFailsBy};
ghost use Rattle.jx_parallel.specs.Offsets.{EndsBefore};
ghost use Rattle.jx_parallel.specs.Parts.{GoesOn};

use jx_crew::Workers;
use jx_parallel::{CheckFault, PartReader, SharedAt, read_round};
use std::alloc::{AllocError, Global};
use std::marker::Model;
use std::sync::Wait;
use std::thread::Threads;

/// How many chunks each worker has in the first round, in the mean. A round has twice as many as the one before.
const FIRST: usize = 4;

/// How many chunks a round has at most. What was made of them is kept at once.
const MOST: usize = 64;

/// The number of chunks of the next round.
fn next_count(count: usize, is_full: bool) -> usize
    requires { count ≤ 64 }
    ensures { result ≤ 64 }
{
    if is_full {
        count / 2 + 1
    } else {
        count.saturating_mul(2).min(MOST)
    }
}

/// The rounds in which workers read bytes at offsets: how many workers, and how many chunks of which size the next round has.
#[derive(Drop)]
pub(crate) struct Rounds<'a, R> {
    rt: &'a R,
    alloc: Global,
    workers: Workers,
    buffer: Vec<u8>,
    count: usize,
}

impl<'a, R> Model for Rounds<'a, R> {
    ghost use Rattle.std.specs.Prelude.{◌<◌, ◌≤◌, ℕ, vec_len};

    // The size of a chunk.
    ghost Value = { ℕ };

    ghost view = { λ r. vec_len r.buffer };

    ghost invariant = { λ r. (0 < vec_len r.buffer) × (r.count ≤ 64) };
}

impl<'a, R: Threads + Wait + Sync> Rounds<'a, R> {
    /// Before the first round, by chunks of so many bytes. The first round has four chunks for each worker, and each other twice as
    /// many as the one before, at most 64; fewer after one that the reader ended since it was full.
    pub fn new(
        rt: &'a R,
        alloc: Global,
        workers: Workers,
        step: usize,
    ) -> Result<Rounds<'a, R>, AllocError>
        requires step { 1 ≤ step }
        ensures { IfOk result (λ rounds. rounds ≡ step) }
    {
        let mut buffer = Vec::new(alloc);
        buffer.resize(step, 0u8)?;
        let count = FIRST.saturating_mul(workers.count() as usize).min(MOST);
        Ok(Rounds {
            rt,
            alloc,
            workers,
            buffer,
            count,
        })
    }

    /// Lets a reader go on by the next round, and answers whether more bytes follow.
    pub fn read<F: SharedAt + Sync, L: PartReader + Send>(
        &mut self,
        file: &F,
        rule: &L::Rule,
        reader: &mut L,
    ) -> Result<bool, CheckFault<F::Fault>>
        ensures step { self.new ≡ self.old }
        // It has read the bytes that come next; after a read fault those before it.
        ensures read { OnOk result (GoesOn (F.content file.now) (L.has_read rule.now) reader.old reader.new) }
        ensures stopped { IfErr result (IfRead (GoesOn (F.content file.now) (L.has_read rule.now) reader.old reader.new)) }
        ensures end { IfOk result (λ more. more ≡ false → EndsBefore (F.content file.now) (L.end reader.new)) }
        ensures fault { IfErr result (ReadFailsBy (F.may_fail file.now)) }
    {
        let buffer = self.buffer.as_mut_slice();
        let more = read_round(
            self.rt,
            self.alloc,
            file,
            self.workers,
            buffer,
            self.count,
            rule,
            reader,
        )?;
        self.count = next_count(self.count, reader.is_full());
        Ok(more)
    }
}
