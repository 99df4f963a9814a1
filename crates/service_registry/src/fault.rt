//! Why a service can't be registered, changed or unregistered.
ghost use Rattle.service_registry.specs.declared.fault.RegistryFault.TheVariants.{OutOfMemory};
ghost use Rattle.std.specs.Prelude.{◌≡◌};

use std::alloc::{AllocError, AllocFailed};
use thiserror::Error;

/// Why a service can't be registered, changed or unregistered.
#[derive(Debug, Drop, PartialEq, Eq, Error)]
pub enum RegistryFault {
    /// No service of this number is registered.
    #[error("service {service} isn't registered")]
    NoService {
        /// The number.
        service: u64,
    },
    /// It is another bundle's service.
    #[error("the service is bundle {owner}'s")]
    NotOwner {
        /// The bundle that registered it.
        owner: u64,
    },
    /// There was no memory. That no number is left counts as such.
    #[error("out of memory")]
    OutOfMemory,
}

impl From<AllocError> for RegistryFault {
    ghost from_gives = { λ _ e. e ≡ OutOfMemory };

    fn from(_: AllocError) -> RegistryFault {
        RegistryFault::OutOfMemory
    }
}

impl<T: Drop> From<AllocFailed<T>> for RegistryFault {
    ghost from_gives = { λ _ e. e ≡ OutOfMemory };

    fn from(_: AllocFailed<T>) -> RegistryFault {
        RegistryFault::OutOfMemory
    }
}
