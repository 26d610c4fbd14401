ghost use Rattle.std.specs.Prelude.{◌≡◌};
ghost use Rattle.jx_files.specs.Status.{greatest, status_of};

use jx_ends::Exit;

/// The result of reports on several inputs.
#[derive(Clone, Copy, Debug, PartialEq, Eq)]
pub enum Status {
    /// Each was answered, and its exit was good.
    Good,
    /// Each was answered, and the exit of one was bad.
    Bad,
    /// One was not answered.
    Fault,
}

impl Status {
    /// The status of one report.
    pub fn of_exit(exit: Exit) -> Status
        ensures { result ≡ status_of exit }
    {
        match exit {
            Exit::Good => Status::Good,
            Exit::Bad => Status::Bad,
        }
    }

    /// The greater one of two: a fault, else bad, else good.
    pub fn greatest(self, other: Status) -> Status
        ensures { result ≡ greatest self other }
    {
        match (self, other) {
            (Status::Fault, _) | (_, Status::Fault) => Status::Fault,
            (Status::Bad, _) | (_, Status::Bad) => Status::Bad,
            _ => Status::Good,
        }
    }
}
