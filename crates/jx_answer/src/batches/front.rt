// The front of a batch, which the first worker reads before it takes a chunk.
ghost use Rattle.std.specs.Prelude.{◌≡◌, ◌+◌, ◌<◌, ◌^◌, length, IfErr, IfOk};
ghost use Rattle.jx_run.specs.Reader.{ReaderValue};
ghost use Rattle.jx_answer.specs.inside.Fronts.{GivesUp, GoesOn, Leaves};

use jx_book::{Cause, Errand};
use jx_crew::{Event, Gate, Go, PieceNo};
use jx_run::Reader;
use std::alloc::AllocError;

/// The result of reading the front of a batch.
#[derive(Clone, Copy, Debug)]
enum FrontState {
    /// It was not read, as the gate said stop before.
    Unread,
    /// It was read.
    Done,
    /// There was no memory to read it.
    Refused,
}

/// The front of a batch, and the reader of what is before it. The gate is asked before it is read, and afterwards.
pub(crate) struct Front<'b, 'g, G> {
    reader: Reader,
    bytes: &'b [u8],
    piece: PieceNo,
    gate: &'g G,
    state: FrontState,
}

// A gate that is lent need not be one that may be freed.
impl<'b, 'g, G> Drop for Front<'b, 'g, G> {
    fn drop(self) {
        let Front {
            reader: _,
            bytes: _,
            piece: _,
            gate: _,
            state: _,
        } = self;
    }
}

impl<'b, 'g, G> Front<'b, 'g, G> {
    /// A front of these bytes, which have the number of a chunk for the gate, and are not read yet.
    pub fn new(reader: Reader, bytes: &'b [u8], piece: PieceNo, gate: &'g G) -> Front<'b, 'g, G>
        ensures reader { result.reader ≡ reader }
        ensures bytes { result.bytes.now ≡ bytes.entry.now }
    {
        Front {
            reader,
            bytes,
            piece,
            gate,
            state: FrontState::Unread,
        }
    }

    /// The reader after the front, which is read here where no worker was let read it; the one that failed, when out of
    /// memory.
    pub fn into_reader(self) -> Result<Reader, Reader>
        requires fits { self.state ≡ FrontState.Unread → self.reader.start + self.reader.count + length self.bytes.now < 2 ^ 64 }
        ensures ok { IfOk result (λ reader. (old : ReaderValue) → Leaves self.entry.bytes.now old self.entry.state self.entry.reader → GoesOn self.entry.bytes.now old reader) }
        ensures err { IfErr result (λ reader. (old : ReaderValue) → Leaves self.entry.bytes.now old self.entry.state self.entry.reader → GivesUp old reader) }
    {
        let Front {
            mut reader,
            bytes,
            piece: _,
            gate: _,
            state,
        } = self;
        match state {
            FrontState::Done => Ok(reader),
            FrontState::Refused => Err(reader),
            FrontState::Unread => match reader.feed(bytes) {
                Ok(()) => Ok(reader),
                Err(AllocError) => Err(reader),
            },
        }
    }
}

impl<'b, 'g, G: Gate> Errand for Front<'b, 'g, G> {
    ghost use Rattle.std.specs.Prelude.{◌≡◌, ◌+◌, ◌<◌, ◌^◌, length};
    ghost use Rattle.jx_answer.specs.inside.Fronts.{EndsAt, Leaves};

    ghost needs = { λ f. f.reader.start + f.reader.count + length f.bytes.now < 2 ^ 64 };

    ghost leaves = { λ f g. (g.bytes.now ≡ f.bytes.now) × Leaves f.bytes.now f.reader g.state g.reader };

    ghost ends = { λ f ended. EndsAt f.state ended };

    fn run(&mut self) -> Result<(), Cause> {
        let worker = 0;
        let piece = self.piece;
        self.state = FrontState::Unread;
        if self.gate.pass(Event::Drew { worker, piece }) == Go::Stop {
            return Err(Cause::Gate);
        }
        if self.reader.feed(self.bytes).is_err() {
            self.state = FrontState::Refused;
            return Err(Cause::Memory);
        }
        self.state = FrontState::Done;
        match self.gate.pass(Event::Stored { worker }) {
            Go::On => Ok(()),
            Go::Stop => Err(Cause::Gate),
        }
    }
}
