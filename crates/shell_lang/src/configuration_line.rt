//! The lines of configurations.
use prop_map::{List, Str};

/// A configuration in a listing.
#[derive(Debug, PartialEq, Eq, Drop)]
pub struct ConfigurationLine {
    /// Its PID.
    pub pid: Str,
    /// The PID of its factory, if it has one.
    pub factory: Option<Str>,
    /// The numbers of the component configurations for which it counts, in order.
    pub numbers: List<u64>,
}
