//! Why bytes are no run file.
ghost use Rattle.std.specs.Prelude.{◌≡◌};
ghost use Rattle.jx_portion.specs.declared.fault.DecodeFault.TheVariants.{Memory};

use std::alloc::{AllocError, AllocFailed};
use thiserror::Error;

/// The field of a run file that a fault is about.
#[derive(Clone, Copy, Debug, PartialEq, Eq)]
pub enum Field {
    /// The depth is above 65,535.
    Depth,
    /// No run file of this depth has this size.
    Size,
    /// A flag is neither 0 nor 1.
    Flag,
    /// No lexical state has this number.
    State,
    /// No kind of token starts has this number.
    Mark,
    /// No kind of containers has this number.
    Container,
    /// No expectation has this number.
    Entry,
    /// Bytes follow the last field.
    Rest,
    /// No run has these parts: too many structures, or fields of which each is well formed.
    Parts,
}

/// The fault of the bytes of a run file: the first one from left to right.
#[derive(Clone, Copy, Debug, PartialEq, Eq)]
pub enum RunFault {
    /// They don't begin as run files do.
    NotARun,
    /// They are of another version of the format.
    OtherVersion,
    /// They end too early.
    CutShort,
    /// Their digest is that of other bytes.
    Damaged,
    /// No run file has this field.
    Malformed(Field),
}

/// Why a run file could not be read.
#[derive(Debug, Drop, Error)]
pub enum DecodeFault {
    #[error("out of memory")]
    Memory,
    #[error("not a record of a run")]
    Fault(RunFault),
}

impl From<AllocError> for DecodeFault {
    ghost from_gives = { λ _ e. e ≡ Memory };

    fn from(_e: AllocError) -> DecodeFault {
        DecodeFault::Memory
    }
}

impl<T: Drop> From<AllocFailed<T>> for DecodeFault {
    ghost from_gives = { λ _ e. e ≡ Memory };

    fn from(_e: AllocFailed<T>) -> DecodeFault {
        DecodeFault::Memory
    }
}
