//! Why a service is no context.
ghost use Rattle.std.specs.Prelude.{◌≡◌};
ghost use Rattle.wb_context.specs.declared.context_fault.ContextFault.TheVariants.{OutOfMemory};

use std::alloc::{AllocError, AllocFailed};
use thiserror::Error;

/// Why a service is no context.
#[derive(Clone, Copy, Debug, Drop, PartialEq, Eq, Error)]
pub enum ContextFault {
    /// Its name is no text, or none of one or more letters, digits, `.`, `_` and `-`.
    #[error("no name of a context")]
    BadContextName,
    /// Its path is no text, or neither `/` nor a `/` and segments between slashes of which none is empty.
    #[error("no path of a context")]
    BadContextPath,
    /// There was no memory.
    #[error("out of memory")]
    OutOfMemory,
}

impl From<AllocError> for ContextFault {
    ghost from_gives = { λ _ e. e ≡ OutOfMemory };

    fn from(_: AllocError) -> ContextFault {
        ContextFault::OutOfMemory
    }
}

impl<T: Drop> From<AllocFailed<T>> for ContextFault {
    ghost from_gives = { λ _ e. e ≡ OutOfMemory };

    fn from(_: AllocFailed<T>) -> ContextFault {
        ContextFault::OutOfMemory
    }
}
