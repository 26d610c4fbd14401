// A batch of a text, which several workers read after what was read of it.
ghost use Rattle.std.specs.Prelude.{◌≡◌, ◌+◌, ◌<◌, ◌≤◌, ◌^◌, ◌++◌, ℕ, List, length, IfOk, IsErr, OnErr, OnOk};
ghost use Rattle.jx_book.specs.Gathered.{IsRest};
ghost use Rattle.jx_run.specs.Reader.{HasFailed, HasRead};

use crate::batches::asking::read_pieces;
use crate::batches::front::Front;
use jx_book::{Held, Round, read_beside};
use jx_claim::Cutting;
use jx_crew::{Crew, Gate, PieceNo, Workers};
use jx_run::{OutcomeRun, Reader};
use std::alloc::AllocError;
use std::mem;
use std::sync::Wait;
use std::thread::Threads;

/// In how many units the front of a batch is measured.
const SHARES: usize = 256;

/// The step by which the front of a batch grows or shrinks, at first and at the least, in these units.
const FIRST_STEP: usize = 32;

const LEAST_STEP: usize = 4;

/// How many bytes several workers share, at the least.
const LEAST_SHARED: usize = 1024 * 1024;

/// How much of a batch one worker reads from where the text stands, while the others make runs of the chunks after it.
/// The cost of a run depends on the text. So the front grows where chunks were left when it was read, and shrinks where
/// none were.
#[derive(Clone, Copy, Debug)]
pub struct Balance {
    shares: usize,
    step: usize,
    left_pieces: bool,
}

impl Balance {
    /// The balance where nothing is known of the text: a run is taken to cost half as much again as a reading from where the text stands.
    pub fn new(workers: Workers) -> Balance {
        Balance {
            shares: 3 * SHARES / (2 * workers.count() as usize + 1),
            step: FIRST_STEP,
            left_pieces: true,
        }
    }

    /// How many bytes the front of a batch has.
    fn front(&self, len: usize) -> usize
        ensures { result ≤ len }
    {
        let whole = (len / SHARES).saturating_mul(self.shares);
        let rest = (len % SHARES).saturating_mul(self.shares) / SHARES;
        whole.saturating_add(rest).min(len)
    }

    /// Takes in whether chunks were left when the front was read.
    fn learn(&mut self, left_pieces: bool) {
        if left_pieces != self.left_pieces {
            self.step = (self.step / 2).max(LEAST_STEP);
            self.left_pieces = left_pieces;
        }
        self.shares = if left_pieces {
            self.shares
                .saturating_add(self.step)
                .min(SHARES - LEAST_STEP)
        } else {
            self.shares.saturating_sub(self.step).max(LEAST_STEP)
        };
    }
}

/// Goes on by the run of the workers, or by the bytes where there is none, or where a byte order mark may still are
/// before them.
fn go_on(
    reader: &mut Reader,
    bytes: &[u8],
    run: &Result<Held<'_, OutcomeRun>, AllocError>,
) -> Result<(), AllocError>
    requires fits { reader.old.start + reader.old.count + length bytes.now < 2 ^ 64 }
    requires run { IfOk run.now (λ h. IsRest bytes.now reader.old.settings.depth 0 h) }
    ensures settings { reader.new.settings ≡ reader.old.settings }
    ensures start { reader.new.start ≡ reader.old.start }
    ensures reads { OnOk result ((before : List ℕ) → HasRead before reader.old → HasRead (before ++ bytes.now) reader.new) }
    ensures count { OnOk result (reader.new.count ≡ reader.old.count + length bytes.now) }
    ensures err { OnErr result (HasFailed reader.new) }
    ensures failed { HasFailed reader.old → IsErr result }
{
    match run {
        Ok(run) if !reader.is_in_front() => reader.follow(run.run()),
        _ => reader.feed(bytes),
    }
}

/// Reads a batch by several workers: the first one the front, from where the reader stands, and all of them the chunks
/// after it.
fn read_shared<R: Threads + Wait + Sync, G: Gate + Sync>(
    crew: &Crew<'_, R, G>,
    reader: Reader,
    balance: &mut Balance,
    batch: &[u8],
    piece: usize,
) -> (Reader, Result<(), AllocError>)
    requires piece { 1 ≤ piece }
    requires fits { reader.start + reader.count + length batch.now < 2 ^ 64 }
    ensures settings { result.0.settings ≡ reader.settings }
    ensures start { result.0.start ≡ reader.start }
    ensures reads { OnOk result.1 ((before : List ℕ) → HasRead before reader → HasRead (before ++ batch.now) result.0) }
    ensures count { OnOk result.1 (result.0.count ≡ reader.count + length batch.now) }
    ensures err { OnErr result.1 (HasFailed result.0) }
    ensures failed { HasFailed reader → IsErr result.1 }
{
    let mut reader = reader;
    let (bytes, rest) = batch.split_at(balance.front(batch.len()));
    let Ok(cutting) = Cutting::every(rest.len(), piece) else {
        let read = reader.feed(batch);
        return (reader, read);
    };
    let depth = reader.settings().depth;
    let front = Front::new(reader, bytes, PieceNo(cutting.count()), crew.gate);
    let Round { errand, run, put } = read_beside::<OutcomeRun, Front<'_, '_, G>, R, G>(
        crew, rest, &cutting, depth, front,
    );
    balance.learn(put > 0);
    match errand.into_reader() {
        Ok(mut reader) => {
            let read = go_on(&mut reader, rest, &run);
            (reader, read)
        }
        Err(reader) => (reader, Err(AllocError)),
    }
}

/// Whether so few bytes are read by the calling thread alone. To start workers takes longer, unless somebody is asked as they
/// go on.
pub fn is_short<G: Gate>(len: usize, gate: &G) -> bool {
    len < LEAST_SHARED && !gate.is_asked()
}

/// Reads a batch of a text, which follows the bytes that the reader has read, by the crew. Chunks have so many bytes. A
/// batch of one chunk is read on the calling thread, and asks no gate. One worker reads chunk by chunk, and asks the
/// gate as each begins, until it says stop.
///
/// Of several workers, the first reads the front of the batch from where the reader stands. All others, and the first
/// one once it has read the front, take the chunks after that, make a run of each and put it into an accumulator; the
/// reader then follows what the accumulator has in the end. The gate is asked after each step, as by `work`, and before
/// and after the front, whose number is that of no chunk but the one after the last. The calling thread reads what a
/// worker was not let read, or had no memory for. After a fault no byte is looked at. Fails only when out of memory,
/// and from then on every batch is.
pub fn read_batch<R: Threads + Wait + Sync, G: Gate + Sync>(
    crew: &Crew<'_, R, G>,
    reader: &mut Reader,
    balance: &mut Balance,
    batch: &[u8],
    piece: usize,
) -> Result<(), AllocError>
    requires piece { 1 ≤ piece }
    requires fits { reader.old.start + reader.old.count + length batch.now < 2 ^ 64 }
    ensures settings { reader.new.settings ≡ reader.old.settings }
    ensures start { reader.new.start ≡ reader.old.start }
    // For every number of workers and every gate, the reader goes on with the bytes of the batch.
    ensures reads { OnOk result ((bytes : List ℕ) → HasRead bytes reader.old → HasRead (bytes ++ batch.now) reader.new) }
    ensures count { OnOk result (reader.new.count ≡ reader.old.count + length batch.now) }
    ensures err { OnErr result (HasFailed reader.new) }
    ensures failed { HasFailed reader.old → IsErr result }
{
    if crew.workers.count() == 1 {
        let Ok(cutting) = Cutting::every(batch.len(), piece) else {
            return reader.feed(batch);
        };
        return read_pieces(reader, batch, &cutting, crew.gate);
    }
    if batch.len() <= piece || is_short(batch.len(), crew.gate) || reader.is_done() {
        return reader.feed(batch);
    }
    // Stands for the reader while the first worker has it.
    let none = Reader::new(crew.alloc, &reader.settings(), 0);
    let taken = mem::replace(reader, none);
    let (back, read) = read_shared(crew, taken, balance, batch, piece);
    *reader = back;
    read
}
