//! Bundles, their states and their events (OSGi Core 8, chapter 4, "Bundle State" and "Events").
ghost use Rattle.bundle_life.specs.Lives.{state_number};
ghost use Rattle.std.specs.Prelude.{◌≡◌};

use osgi_version::Version;
use prop_map::{Copies, OutOfMemory, Str};
use std::alloc::Global;

/// How far a bundle is. STARTING takes no time of its own here, and what was uninstalled has no row.
#[derive(Clone, Copy, Debug, PartialEq, Eq)]
pub enum BundleState {
    /// INSTALLED.
    Installed,
    /// RESOLVED.
    Resolved,
    /// STOPPING.
    Stopping,
    /// ACTIVE.
    Active,
}

impl BundleState {
    /// The number of the state: INSTALLED 2, RESOLVED 4, STOPPING 16, ACTIVE 32.
    pub fn number(self) -> u32
        ensures { result ≡ state_number self }
    {
        match self {
            BundleState::Installed => 2,
            BundleState::Resolved => 4,
            BundleState::Stopping => 16,
            BundleState::Active => 32,
        }
    }
}

/// An installed bundle.
#[derive(Debug, PartialEq, Eq, Drop)]
pub struct BundleLife {
    /// Its number, from 1 on. 0 is the platform, which has no row.
    pub number: u64,
    /// Where it was installed from. An update keeps it.
    pub location: Str,
    /// Its symbolic name.
    pub name: Str,
    /// Its version.
    pub version: Version,
    /// How far it is.
    pub state: BundleState,
}

impl Copies for BundleLife {
    fn copy(&self, alloc: Global) -> Result<BundleLife, OutOfMemory> {
        Ok(BundleLife {
            number: self.number,
            location: self.location.copy(alloc)?,
            name: self.name.copy(alloc)?,
            version: self.version.copy(alloc)?,
            state: self.state,
        })
    }
}

/// An event of a bundle.
#[derive(Clone, Copy, Debug, PartialEq, Eq)]
pub struct BundleEvent {
    /// INSTALLED 1, STARTED 2, STOPPED 4, UPDATED 8, UNINSTALLED 16, RESOLVED 32, UNRESOLVED 64, STARTING 128, STOPPING 256.
    pub value: u32,
    /// The bundle's number.
    pub bundle: u64,
}
