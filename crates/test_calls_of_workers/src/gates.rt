// Gates that stop workers.
use jx_crew::{Event, Gate, Go};
use test_words::{Line, LineFault, number_of};

/// The step at which workers are stopped.
#[derive(Clone, Copy)]
pub enum StopOn {
    Nothing,
    Everything,
    /// The chunk of this number was taken.
    Drew(usize),
    Stored,
    Took,
    /// The worker of this handle took a chunk.
    Worker(usize),
}

impl Gate for StopOn {
    fn pass(&self, event: Event) -> Go {
        let stops = match (*self, event) {
            (StopOn::Everything, _) => true,
            (StopOn::Drew(number), Event::Drew { piece, .. }) => piece.0 as usize == number,
            (StopOn::Worker(number), Event::Drew { worker, .. }) => worker == number,
            (StopOn::Stored, Event::Stored { .. }) => true,
            (StopOn::Took, Event::Took { .. }) => true,
            _ => false,
        };
        if stops { Go::Stop } else { Go::On }
    }
}

/// `open`, `shut`, `stored`, `took`, `drew:PIECE` or `worker:SEAT`.
pub fn next_gate(line: &mut Line<'_>) -> StopOn {
    let read = gate_of(line.word());
    line.read_or(read, StopOn::Nothing)
}

fn gate_of(word: &str) -> Result<StopOn, LineFault> {
    match (word, word.split_once(":")) {
        ("open", _) => Ok(StopOn::Nothing),
        ("shut", _) => Ok(StopOn::Everything),
        ("stored", _) => Ok(StopOn::Stored),
        ("took", _) => Ok(StopOn::Took),
        (_, Some(("drew", number))) => Ok(StopOn::Drew(number_of(number)?)),
        (_, Some(("worker", number))) => Ok(StopOn::Worker(number_of(number)?)),
        _ => Err(LineFault::NoSuchCall),
    }
}
