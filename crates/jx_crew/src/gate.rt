ghost use Rattle.std.specs.Prelude.{◌≡◌, false};

use crate::piece_no::PieceNo;

/// A step of a worker. `worker` is its worker handle's number.
#[derive(Clone, Copy, Debug)]
pub enum Event {
    /// It drew a chunk.
    Drew { worker: usize, piece: PieceNo },
    /// The run in its hand stands in the accumulator now.
    Stored { worker: usize },
    /// It took a neighbour of the run in its hand out of the accumulator.
    Took { worker: usize },
}

/// Whether a worker goes on.
#[derive(Clone, Copy, Debug, PartialEq, Eq)]
pub enum Go {
    On,
    Stop,
}

/// Who is asked after each step of a worker.
pub trait Gate {
    fn pass(&self, event: Event) -> Go;

    /// Whether anybody is asked. Where nobody is, short inputs need no worker.
    fn is_asked(&self) -> bool {
        true
    }
}

/// The gate that lets every worker go on.
#[derive(Clone, Copy, Debug)]
pub struct OpenGate;

impl Gate for OpenGate {
    fn pass(&self, _event: Event) -> Go
        ensures { result ≡ Go.On }
    {
        Go::On
    }

    fn is_asked(&self) -> bool
        ensures { result ≡ false }
    {
        false
    }
}
