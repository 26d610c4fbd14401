// Values that are asked for, whose bytes are written.
ghost use Rattle.std.specs.Prelude.{◌≡◌};

use crate::command::push_lines;
use jx_crew::Workers;
use jx_run::Settings;
use std::alloc::{AllocError, Global};

/// Values of an input whose bytes are written, one line for each.
#[derive(Debug, Drop)]
pub struct ValuesTask {
    /// The pointers to these values (RFC 6901, section 3). One is here as it was given, also where it is not a pointer.
    pub pointers: Vec<String>,
    /// How the input is read, as in a `Command`.
    pub settings: Settings,
    /// How many threads read.
    pub workers: Workers,
    /// How many bytes each chunk of a worker has, at least 1; the last chunk may have fewer.
    pub piece: usize,
}

impl ValuesTask {
    /// Adds a pointer for each line of a text after those that are asked for already, as `Command::add_pointers` does.
    pub fn add_pointers(&mut self, alloc: Global, lines: &str) -> Result<(), AllocError>
        ensures kept { self.new ≡ record self.old { pointers = self.new.pointers } }
    {
        push_lines(alloc, &mut self.pointers, lines)
    }
}
