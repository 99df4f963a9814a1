//! Why descriptions have no levels.
ghost use Rattle.std.specs.Prelude.{◌≡◌};
ghost use Rattle.level_order.specs.declared.fault.LevelFault.TheVariants.{OutOfMemory};

use prop_map::{List, Str};
use std::alloc::{AllocError, AllocFailed};
use thiserror::Error;

/// Why descriptions have no levels.
#[derive(Debug, PartialEq, Eq, Drop, Error)]
pub enum LevelFault {
    /// Some descriptions lie on a cycle.
    #[error("some components consume each other in a circle")]
    Cycle {
        /// The names of a cycle's descriptions, each of which consumes the next one: it begins at the first description
        /// that lies on a cycle, is a shortest cycle through it, of several the one whose list of places is the least,
        /// and names its first again at its end.
        path: List<Str>,
    },
    /// There was no memory.
    #[error("out of memory")]
    OutOfMemory,
}

impl From<AllocError> for LevelFault {
    ghost from_gives = { λ _ e. e ≡ OutOfMemory };

    fn from(_: AllocError) -> Self {
        LevelFault::OutOfMemory
    }
}

impl<T: Drop> From<AllocFailed<T>> for LevelFault {
    ghost from_gives = { λ _ e. e ≡ OutOfMemory };

    fn from(_: AllocFailed<T>) -> Self {
        LevelFault::OutOfMemory
    }
}
