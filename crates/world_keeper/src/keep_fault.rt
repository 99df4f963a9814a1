//! Why a keeper refuses.
ghost use Rattle.std.specs.Prelude.{◌≡◌};
ghost use Rattle.world_keeper.specs.declared.keep_fault.KeepFault.TheVariants.{OutOfMemory};

use std::alloc::{AllocError, AllocFailed};
use thiserror::Error;

/// Why a keeper refuses.
#[derive(Clone, Copy, Debug, PartialEq, Eq, Error)]
pub enum KeepFault {
    /// The keeper failed. Its count of faults rose, or stands at its last value.
    #[error("the keeper failed")]
    Failed,
    /// There was no memory.
    #[error("out of memory")]
    OutOfMemory,
}

impl From<AllocError> for KeepFault {
    ghost from_gives = { λ _ e. e ≡ OutOfMemory };

    fn from(_: AllocError) -> KeepFault {
        KeepFault::OutOfMemory
    }
}

impl<T: Drop> From<AllocFailed<T>> for KeepFault {
    ghost from_gives = { λ _ e. e ≡ OutOfMemory };

    fn from(_: AllocFailed<T>) -> KeepFault {
        KeepFault::OutOfMemory
    }
}
