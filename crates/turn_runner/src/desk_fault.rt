//! Why a turn isn't taken.
ghost use Rattle.std.specs.Prelude.{◌≡◌};
ghost use Rattle.turn_runner.specs.declared.desk_fault.DeskFault.TheVariants.{OutOfMemory};

use std::alloc::AllocError;
use thiserror::Error;

/// Why a turn isn't taken.
#[derive(Clone, Copy, Debug, Drop, PartialEq, Eq, Error)]
pub enum DeskFault {
    /// The journal has no room for it.
    #[error("the journal is full")]
    JournalFull,
    /// There was no memory.
    #[error("out of memory")]
    OutOfMemory,
}

impl From<AllocError> for DeskFault {
    ghost from_gives = { λ _ e. e ≡ OutOfMemory };

    fn from(_: AllocError) -> DeskFault {
        DeskFault::OutOfMemory
    }
}
