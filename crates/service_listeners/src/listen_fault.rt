//! Why a call on listeners is refused.
ghost use Rattle.std.specs.Prelude.{◌≡◌};
ghost use Rattle.service_listeners.specs.declared.listen_fault.ListenFault.TheVariants.{OutOfMemory};

use std::alloc::AllocError;
use thiserror::Error;

/// Why a call on listeners is refused. What it was to change is as it was.
#[derive(Clone, Copy, Debug, PartialEq, Eq, Error)]
pub enum ListenFault {
    /// There are 64 listeners.
    #[error("no room for a listener")]
    ListenersFull,
    /// No listener has this number, or it was removed.
    #[error("no listener {listener}")]
    NoListener {
        /// The number that was given.
        listener: u64,
    },
    /// There was no memory, or no number, for the call.
    #[error("out of memory")]
    OutOfMemory,
}

impl From<AllocError> for ListenFault {
    ghost from_gives = { λ _ e. e ≡ OutOfMemory };

    fn from(_: AllocError) -> ListenFault {
        ListenFault::OutOfMemory
    }
}
