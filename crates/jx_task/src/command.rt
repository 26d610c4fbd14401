// Work that is to be done with an input.
ghost use Rattle.std.specs.Prelude.{◌≡◌};

use crate::task::Task;
use jx_crew::Workers;
use jx_run::Settings;
use std::alloc::{AllocError, Global};

/// Work that is to be done with an input.
#[derive(Debug, Drop)]
pub struct Command {
    pub task: Task,
    /// How deep a text may be: RFC 8259, section 9, lets a parser set such a limit. Also whether a byte order mark may stand
    /// in front of one (section 8.1), and whether an object may have several members of one name (section 4).
    pub settings: Settings,
    /// How many threads read.
    pub workers: Workers,
    /// How many bytes each chunk of a worker has, at least 1; the last chunk may have fewer.
    pub piece: usize,
    /// Whether nothing is to be written, so that the exit alone is the answer.
    pub quiet: bool,
}

impl Command {
    /// Adds a pointer for each line of a text after those that are asked for already; to a task that asks for none it
    /// adds nothing. A line feed ends a line, and the last line may do without. Nothing else is cut off a line.
    pub fn add_pointers(&mut self, alloc: Global, lines: &str) -> Result<(), AllocError>
        ensures piece { self.new.piece ≡ self.old.piece }
        ensures kept { self.new ≡ record self.old { task = self.new.task } }
    {
        match &mut self.task {
            Task::At(pointers) => push_lines(alloc, pointers, lines),
            Task::Check | Task::Index | Task::Seq => Ok(()),
        }
    }
}

/// Adds a string for each line of a text.
pub(crate) fn push_lines(
    alloc: Global,
    pointers: &mut Vec<String>,
    lines: &str,
) -> Result<(), AllocError> {
    for line in lines.split_terminator('\n') {
        pointers.push(String::from_str(alloc, line)?)?;
    }
    Ok(())
}
