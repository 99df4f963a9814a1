//! Which bundles resolve together.

use prop_map::List;

/// A wire from a need of a bundle to an offer that meets it.
#[derive(Clone, Copy, Debug, PartialEq, Eq)]
pub struct Wire {
    /// The number of the bundle that has the need.
    pub from: u64,
    /// The need's place among those of its bundle, from 0.
    pub need: usize,
    /// The number of the bundle that makes the offer, 0 for the platform.
    pub to: u64,
    /// The offer's place among those of its bundle, from 0.
    pub offer: usize,
}

/// The bundles that resolve together, and their wires.
#[derive(Debug, Drop, PartialEq, Eq)]
pub struct Resolved {
    /// The numbers, in the order of the bundles that were asked about.
    pub bundles: List<u64>,
    /// By bundle, in the same order, and by the need's place.
    pub wires: List<Wire>,
}
