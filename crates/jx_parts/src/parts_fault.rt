// Why work on the parts of a text gives no answer.
ghost use Rattle.std.specs.Prelude.{◌≡◌, ◌≢◌};
ghost use Rattle.jx_ends.specs.declared.report_fault.ReportFault.TheVariants.{Read, Write};
ghost use Rattle.jx_parts.specs.Refusals.{refusal_of};
ghost use Rattle.jx_parts.specs.inside.Reading.{fault_of_run};

use jx_ends::ReportFault;
use jx_portion::{DecodeFault, RunFault};
use std::alloc::AllocError;
use thiserror::Error;

/// Why work on the parts of a text gives no answer. Nothing was written, unless writing failed.
#[derive(Clone, Copy, Debug, PartialEq, Eq, Error)]
pub enum PartsFault {
    /// Reading or writing failed, it is out of memory, or a number of bytes or of runs is greater than a word.
    #[error("{0}")]
    Report(ReportFault),
    /// The stream of runs is empty.
    #[error("no runs")]
    NoRuns,
    /// A run is not taken. Runs are counted from 0.
    #[error("run {number}: {why}")]
    Run {
        number: usize,
        why: RunRefusal,
    },
    /// The runs are those of the bytes from `start` up to `end`, and not of the text from `from` to `to`.
    #[error("the runs cover {start}..{end} and not {from}..{to}")]
    Elsewhere {
        start: usize,
        end: usize,
        from: usize,
        to: usize,
    },
}

impl From<ReportFault> for PartsFault {
    ghost use Rattle.std.specs.Prelude.{◌≡◌};
    ghost use Rattle.jx_parts.specs.declared.parts_fault.PartsFault.TheVariants.{Report};

    ghost from_gives = { λ fault parts. parts ≡ Report fault };

    fn from(fault: ReportFault) -> PartsFault {
        PartsFault::Report(fault)
    }
}

impl From<AllocError> for PartsFault {
    ghost use Rattle.std.specs.Prelude.{◌≡◌};
    ghost use Rattle.jx_parts.specs.declared.parts_fault.PartsFault.TheVariants.{Report};
    ghost use Rattle.jx_ends.specs.declared.report_fault.ReportFault.TheVariants.{Memory};

    ghost from_gives = { λ _ parts. parts ≡ Report Memory };

    fn from(_: AllocError) -> PartsFault {
        PartsFault::Report(ReportFault::Memory)
    }
}

/// Why a run is not taken.
#[derive(Clone, Copy, Debug, PartialEq, Eq, Error)]
pub enum RunRefusal {
    /// It does not begin as a run does.
    #[error("not a run")]
    NotARun,
    /// Its format is another version.
    #[error("of another version")]
    OtherVersion,
    /// The stream ends within it.
    #[error("cut short")]
    CutShort,
    /// Its digest is not that of its bytes.
    #[error("damaged")]
    Damaged,
    /// Its bytes encode no run.
    #[error("not well formed")]
    Malformed,
    /// It was made with another depth.
    #[error("read with depth {depth}")]
    OtherDepth { depth: u32 },
    /// Its part begins at another offset than the one where those before it end.
    #[error("begins at {at}, where {due} was due")]
    Misplaced { at: usize, due: usize },
    /// Its part was read without an offset, and others with one.
    #[error("has no --from, as others have")]
    NoFrom,
}

/// Why a run file is not taken, by what its reader says.
fn refusal_of(fault: RunFault) -> RunRefusal
    ensures { result ≡ refusal_of fault }
{
    match fault {
        RunFault::NotARun => RunRefusal::NotARun,
        RunFault::OtherVersion => RunRefusal::OtherVersion,
        RunFault::CutShort => RunRefusal::CutShort,
        RunFault::Damaged => RunRefusal::Damaged,
        RunFault::Malformed(_) => RunRefusal::Malformed,
    }
}

/// The fault of the run file with this number, by what its reader says.
pub(crate) fn fault_of_run(fault: DecodeFault, number: usize) -> PartsFault
    ensures is { result ≡ fault_of_run fault number }
    ensures unread { result ≢ PartsFault.Report Read }
    ensures unwritten { result ≢ PartsFault.Report Write }
{
    match fault {
        DecodeFault::Memory => PartsFault::Report(ReportFault::Memory),
        DecodeFault::Fault(fault) => {
            let why = refusal_of(fault);
            PartsFault::Run { number, why }
        }
    }
}
