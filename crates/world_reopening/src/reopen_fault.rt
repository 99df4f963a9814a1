//! Why a kept world isn't opened again.
ghost use Rattle.std.specs.Prelude.{◌≡◌};
ghost use Rattle.world_reopening.specs.declared.reopen_fault.ReopenFault.TheVariants.{OutOfMemory};

use std::alloc::{AllocError, AllocFailed};
use thiserror::Error;

/// Why a kept world isn't opened again.
#[derive(Clone, Copy, Debug, PartialEq, Eq, Error)]
pub enum ReopenFault {
    /// A kept text has no reading. The configurations by PID are rows 0 and on, and then the bundles in order.
    #[error("the kept row {row} has no reading")]
    BadKept {
        /// The number of the first such row.
        row: u64,
    },
    /// There was no memory.
    #[error("out of memory")]
    OutOfMemory,
}

impl From<AllocError> for ReopenFault {
    ghost from_gives = { λ _ e. e ≡ OutOfMemory };

    fn from(_: AllocError) -> ReopenFault {
        ReopenFault::OutOfMemory
    }
}

impl<T: Drop> From<AllocFailed<T>> for ReopenFault {
    ghost from_gives = { λ _ e. e ≡ OutOfMemory };

    fn from(_: AllocFailed<T>) -> ReopenFault {
        ReopenFault::OutOfMemory
    }
}
