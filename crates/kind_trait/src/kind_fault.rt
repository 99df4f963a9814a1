//! Why component code didn't do what it was told.
ghost use Rattle.kind_trait.specs.declared.kind_fault.KindFault.TheVariants.{OutOfMemory};
ghost use Rattle.std.specs.Prelude.{◌≡◌};

use std::alloc::{AllocError, AllocFailed};
use thiserror::Error;

/// Why component code didn't do what it was told.
#[derive(Clone, Copy, Debug, Drop, PartialEq, Eq, Error)]
pub enum KindFault {
    /// It refuses.
    #[error("the component refuses")]
    Refused,
    /// It found no memory.
    #[error("out of memory")]
    OutOfMemory,
}

impl From<AllocError> for KindFault {
    ghost from_gives = { λ _ e. e ≡ OutOfMemory };

    fn from(_: AllocError) -> KindFault {
        KindFault::OutOfMemory
    }
}

impl<T: Drop> From<AllocFailed<T>> for KindFault {
    ghost from_gives = { λ _ e. e ≡ OutOfMemory };

    fn from(_: AllocFailed<T>) -> KindFault {
        KindFault::OutOfMemory
    }
}
