//! What readers tell.
use callback_orders::{Callback, Outcome};
use osgi_version::Version;
use prop_map::Str;

/// A bundle in a listing.
#[derive(Debug, PartialEq, Eq, Drop)]
pub struct BundleLine {
    /// Its number.
    pub bundle: u64,
    /// The number of its state: 2 INSTALLED, 4 RESOLVED, 16 STOPPING, 32 ACTIVE.
    pub state: u32,
    /// Its symbolic name.
    pub name: Str,
    /// Its version.
    pub version: Version,
}

/// A component configuration in a listing.
#[derive(Debug, PartialEq, Eq, Drop)]
pub struct ComponentLine {
    /// Its number.
    pub configuration: u64,
    /// The name of its description.
    pub name: Str,
    /// Its state: 1 unsatisfied for want of a configuration, 2 unsatisfied for a reference, 4 satisfied, 8 active, 16 failed.
    pub state: u8,
}

/// A service that an instance holds.
#[derive(Debug, PartialEq, Eq, Drop)]
pub struct HeldLine {
    /// The instance's number.
    pub instance: u64,
    /// The name of the reference.
    pub reference: Str,
    /// The service's number.
    pub service: u64,
}

/// A turn of the journal.
#[derive(Debug, PartialEq, Eq, Drop)]
pub struct TurnLine {
    /// Its number, from 1 on.
    pub turn: u64,
    /// What the instance was told.
    pub callback: Callback,
    /// The instance's number.
    pub instance: u64,
    /// The name of its component's description.
    pub name: Str,
    /// How it ended, `None` as long as it hasn't.
    pub outcome: Option<Outcome>,
}
