ghost use Rattle.std.specs.Prelude.{◌≡◌};
ghost use Rattle.jx_answer.specs.declared.fault.Fault.TheVariants.{Memory};

use std::alloc::AllocError;
use thiserror::Error;

/// Why there is no answer.
#[derive(Clone, Copy, Debug, PartialEq, Eq, Error)]
pub enum Fault {
    /// An allocation failed.
    #[error("out of memory")]
    Memory,
}

impl From<AllocError> for Fault {
    ghost from_gives = { λ _ fault. fault ≡ Memory };

    fn from(_: AllocError) -> Fault {
        Fault::Memory
    }
}
