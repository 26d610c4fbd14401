ghost use Rattle.std.specs.Prelude.{Result, IsOk};
ghost use Rattle.jx_book.specs.declared.workers.worker.Cause.{Cause};

use crate::workers::worker::Cause;

/// An extra task of the first worker before it takes a chunk, as to read the front of the text by means of its own.
pub trait Errand: Drop {
    /// The requirement of the task.
    ghost needs: { Self → Type 0 };

    /// The task after it was run, by what it was before.
    ghost leaves: { Self → Self → Type 0 };

    /// The result that the task may have, by the task after it was run.
    ghost ends: { Self → Result (Unit {0}) Cause → Type 0 };

    /// Runs it. Where it gives a cause, its worker takes no chunk and stops for that cause.
    fn run(&mut self) -> Result<(), Cause>
        requires { needs self.old }
        ensures leaves { leaves self.old self.new }
        ensures ends { ends self.new result };
}

/// Nothing to do.
#[derive(Drop)]
pub(crate) struct NoErrand;

impl Errand for NoErrand {
    ghost needs = { λ _. Unit {0} };

    ghost leaves = { λ _ _. Unit {0} };

    ghost ends = { λ _ ended. IsOk ended };

    fn run(&mut self) -> Result<(), Cause> {
        Ok(())
    }
}
