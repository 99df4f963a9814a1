//! Why a text is no version.
ghost use Rattle.std.specs.Prelude.{◌≡◌};
ghost use Rattle.osgi_version.specs.declared.fault.VersionFault.TheVariants.{OutOfMemory};

use std::alloc::AllocError;
use thiserror::Error;

/// Why a text gave no version, or no range of versions.
#[derive(Clone, Copy, Debug, PartialEq, Eq, Error)]
pub enum VersionFault {
    /// The text is none. `at` is the length in bytes of its longest prefix that some version, or range, continues.
    #[error("no version, from byte {at}")]
    BadVersion {
        /// From 0 to the length of the text.
        at: usize,
    },
    /// There was no memory for the answer.
    #[error("out of memory")]
    OutOfMemory,
}

impl From<AllocError> for VersionFault {
    ghost from_gives = { λ _ e. e ≡ OutOfMemory };

    fn from(_: AllocError) -> VersionFault {
        VersionFault::OutOfMemory
    }
}
