//! The lines of component configurations with what they wait for.
use prop_map::{List, Str};

/// A component configuration in a listing, with what it waits for.
#[derive(Debug, PartialEq, Eq, Drop)]
pub struct ListedLine {
    /// Its number.
    pub number: u64,
    /// The number of its bundle.
    pub bundle: u64,
    /// Its state: 1 unsatisfied for want of a configuration, 2 unsatisfied for a reference, 4 satisfied, 8 active, 16 failed.
    pub state: u8,
    /// The name of its description.
    pub name: Str,
    /// The interfaces of its service.
    pub interfaces: List<Str>,
    /// The names of the references below their minimum, in order.
    pub waits: List<Str>,
}
