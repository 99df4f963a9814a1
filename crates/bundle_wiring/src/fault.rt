//! Why a manifest gives no needs and offers.
ghost use Rattle.bundle_wiring.specs.declared.fault.WireFault.TheVariants.{OutOfMemory};
ghost use Rattle.std.specs.Prelude.{◌≡◌};

use prop_map::Str;
use std::alloc::{AllocError, AllocFailed};
use thiserror::Error;

/// Why a manifest gives no needs and offers. Of several faults it is the first: the headers are read in the order
/// Import-Package, Require-Capability, Export-Package, Provide-Capability, each from its first clause on.
#[derive(Debug, Drop, PartialEq, Eq, Error)]
pub enum WireFault {
    /// A header is no list of clauses.
    #[error("no list of clauses, from byte {at}")]
    BadClause {
        /// The length in bytes of the longest beginning of the header's value that some list of clauses has too.
        at: usize,
    },
    /// The attribute `version` of an import is no range, or that of an offer no version.
    #[error("no version, from byte {at}")]
    BadVersion {
        /// The length in bytes of the longest beginning of the attribute that some range, or version, has too.
        at: usize,
    },
    /// The directive `filter` of a required capability is no filter, or has more than 64 levels.
    #[error("no filter, from byte {at}")]
    BadFilter {
        /// The length in bytes of the longest beginning of the directive that some filter has too, or the place of the
        /// bracket that is one too deep.
        at: usize,
    },
    /// A package is imported twice.
    #[error("{package} is imported twice")]
    DuplicateImport {
        /// The package.
        package: Str,
    },
    /// There was no memory for the answer.
    #[error("out of memory")]
    OutOfMemory,
}

impl From<AllocError> for WireFault {
    ghost from_gives = { λ _ e. e ≡ OutOfMemory };

    fn from(_: AllocError) -> WireFault {
        WireFault::OutOfMemory
    }
}

impl<T: Drop> From<AllocFailed<T>> for WireFault {
    ghost from_gives = { λ _ e. e ≡ OutOfMemory };

    fn from(_: AllocFailed<T>) -> WireFault {
        WireFault::OutOfMemory
    }
}
