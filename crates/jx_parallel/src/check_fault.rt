ghost use Rattle.std.specs.Prelude.{◌≡◌};

use std::alloc::AllocError;

/// Why there is no verdict on a text.
#[derive(Debug, Drop)]
pub enum CheckFault<E> {
    /// An allocation failed.
    Memory,
    /// A read failed, for this reason. Nothing in front of what it was to read decides the verdict.
    Read(E),
}

impl<E> From<AllocError> for CheckFault<E> {
    ghost use Rattle.jx_parallel.specs.declared.check_fault.CheckFault.TheVariants.{Memory};

    ghost from_gives = { λ _ fault. fault ≡ Memory };

    fn from(_: AllocError) -> CheckFault<E> {
        CheckFault::Memory
    }
}
