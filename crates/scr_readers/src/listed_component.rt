//! A component configuration in a listing.
use prop_map::{List, Str};

/// A component configuration in a listing, with what it waits for.
#[derive(Debug, PartialEq, Eq, Drop)]
pub struct ListedComponent {
    /// Its number.
    pub number: u64,
    /// The number of its bundle.
    pub bundle: u64,
    /// Its state: 1 unsatisfied for want of a configuration, 2 unsatisfied for a reference, 4 satisfied, 8 active, 16 failed.
    pub state: u8,
    /// The name of its description.
    pub name: Str,
    /// The interfaces of its service. Without any it has no service.
    pub interfaces: List<Str>,
    /// The names of the references that have fewer targets than their minimum, in the order of its description, that of the
    /// implicit one on the satisfying condition last.
    pub waits: List<Str>,
}
