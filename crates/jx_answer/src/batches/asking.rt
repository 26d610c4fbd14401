// One thread that reads a text by chunks.
ghost use Rattle.std.specs.Prelude.{◌≡◌, ◌+◌, ◌<◌, ◌^◌, ◌++◌, ℕ, List, length, IsErr, OnErr, OnOk};
ghost use Rattle.jx_run.specs.Reader.{HasFailed, HasRead};

use jx_claim::Cutting;
use jx_crew::{Event, Gate, Go, PieceNo};
use jx_run::{Pace, Reader};
use std::alloc::AllocError;

/// Reads the chunks of a division in order, as one worker, and asks a gate as each is begun, until it says stop. The
/// rest is then read without a question. Where there is one chunk, or none, it asks nothing.
pub(crate) struct Asking<'g, G> {
    cutting: &'g Cutting,
    gate: &'g G,
    /// The chunk that is begun next; as many as there are where no question is left.
    next: u32,
}

// A gate that is lent need not be one that may be freed.
impl<'g, G> Drop for Asking<'g, G> {
    fn drop(self) {
        let Asking {
            cutting: _,
            gate: _,
            next: _,
        } = self;
    }
}

impl<'g, G: Gate> Asking<'g, G> {
    pub(crate) fn new(cutting: &'g Cutting, gate: &'g G) -> Asking<'g, G> {
        let count = cutting.count();
        let next = if count > 1 { 0 } else { count };
        Asking {
            cutting,
            gate,
            next,
        }
    }
}

impl<'g, G: Gate> Pace for Asking<'g, G> {
    fn next_stop(&mut self, _at: usize, end: usize) -> usize {
        if self.next >= self.cutting.count() {
            return end;
        }
        let piece = PieceNo(self.next);
        if self.gate.pass(Event::Drew { worker: 0, piece }) == Go::Stop {
            self.next = self.cutting.count();
            return end;
        }
        self.next += 1;
        self.cutting.piece(piece).end
    }
}

/// Lets a reader go on with a text, as one worker on this thread, and asks the gate as each chunk of the division
/// begins, until it says stop. A division of at most one chunk asks no gate.
pub fn read_pieces<G: Gate>(
    reader: &mut Reader,
    text: &[u8],
    cutting: &Cutting,
    gate: &G,
) -> Result<(), AllocError>
    requires fits { reader.old.start + reader.old.count + length text.now < 2 ^ 64 }
    ensures settings { reader.new.settings ≡ reader.old.settings }
    ensures start { reader.new.start ≡ reader.old.start }
    ensures reads { OnOk result ((bytes : List ℕ) → HasRead bytes reader.old → HasRead (bytes ++ text.now) reader.new) }
    ensures count { OnOk result (reader.new.count ≡ reader.old.count + length text.now) }
    ensures err { OnErr result (HasFailed reader.new) }
    ensures failed { HasFailed reader.old → IsErr result }
{
    let mut asking = Asking::new(cutting, gate);
    let mut done = 0;
    loop {
        let stop = asking.next_stop(done, text.len());
        if stop <= done || stop >= text.len() {
            return reader.feed(&text[done..text.len()]);
        }
        reader.feed(&text[done..stop])?;
        done = stop;
    }
}
