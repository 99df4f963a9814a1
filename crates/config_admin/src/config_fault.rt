//! Why a configuration is refused.
ghost use Rattle.std.specs.Prelude.{◌≡◌};
ghost use Rattle.config_admin.specs.declared.config_fault.ConfigFault.TheVariants.{OutOfMemory};

use std::alloc::AllocError;
use thiserror::Error;

/// Why a configuration is refused. The configurations are then as they were.
#[derive(Clone, Copy, Debug, PartialEq, Eq, Error)]
pub enum ConfigFault {
    /// The PID, the factory's PID or the name isn't one or more of letters, digits, `.`, `_` and `-`.
    #[error("no PID")]
    BadPid,
    /// The PID is a factory's that has configurations, or the factory's PID has a configuration of its own.
    #[error("a PID and a factory of the same name")]
    FactoryClash,
    /// The PID has no configuration.
    #[error("no configuration")]
    NoConfiguration,
    /// There are 1,024 configurations.
    #[error("no room for a configuration")]
    ConfigurationsFull,
    /// There was no memory.
    #[error("out of memory")]
    OutOfMemory,
}

impl From<AllocError> for ConfigFault {
    ghost from_gives = { λ _ e. e ≡ OutOfMemory };

    fn from(_: AllocError) -> ConfigFault {
        ConfigFault::OutOfMemory
    }
}
