ghost use Rattle.std.specs.Prelude.{◌≡◌};
ghost use Rattle.jx_wire.specs.declared.request_fault.RequestFault.TheVariants.{Memory};

use jx_run::Refusal;
use std::alloc::AllocError;
use thiserror::Error;

/// Why a message is no request that can be answered.
#[derive(Debug, Drop, Error)]
pub enum RequestFault {
    /// It is no JSON text, or repeats a name, or is too deep.
    #[error("no JSON text")]
    NoText(Refusal),
    /// It has no method, or an id of a wrong kind, or is of another protocol. This is its id, if it can be read.
    #[error("no request")]
    NoRequest { id: Option<Vec<u8>> },
    /// Its parameters are missing, or of a wrong kind. It has this id, or is a notification.
    #[error("wrong parameters")]
    WrongParameters { id: Option<Vec<u8>> },
    /// An allocation failed.
    #[error("out of memory")]
    Memory,
}

impl From<AllocError> for RequestFault {
    ghost from_gives = { λ _ fault. fault ≡ Memory };

    fn from(_: AllocError) -> RequestFault {
        RequestFault::Memory
    }
}
