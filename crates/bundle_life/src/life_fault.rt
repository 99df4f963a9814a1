//! Why a step of a bundle is refused.
ghost use Rattle.std.specs.Prelude.{◌≡◌};
ghost use Rattle.bundle_life.specs.declared.life_fault.LifeFault.TheVariants.{OutOfMemory};

use std::alloc::AllocError;
use thiserror::Error;

/// Why a step of a bundle is refused. What it was to change is as it was.
#[derive(Clone, Copy, Debug, PartialEq, Eq, Error)]
pub enum LifeFault {
    /// No bundle with this number is installed. The platform counts as none.
    #[error("no bundle {bundle}")]
    NoBundle {
        /// The number that was given.
        bundle: u64,
    },
    /// The bundle is ACTIVE.
    #[error("a bundle in state {state}")]
    WrongState {
        /// The number of its state.
        state: u32,
    },
    /// The bundle is STOPPING.
    #[error("a bundle that is stopping")]
    StillStopping,
    /// Another bundle has this symbolic name and version.
    #[error("the name and version of bundle {bundle}")]
    SameName {
        /// The first such bundle.
        bundle: u64,
    },
    /// 128 bundles are installed.
    #[error("no room for a bundle")]
    BundlesFull,
    /// There was no memory, or no number, for the step.
    #[error("out of memory")]
    OutOfMemory,
}

impl From<AllocError> for LifeFault {
    ghost from_gives = { λ _ e. e ≡ OutOfMemory };

    fn from(_: AllocError) -> LifeFault {
        LifeFault::OutOfMemory
    }
}
