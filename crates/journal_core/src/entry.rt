//! Entries of the journal.

use prop_map::List;

/// What names an instance's gate: its slot, and how often the slot was opened.
#[derive(Clone, Copy, Debug, PartialEq, Eq, Drop)]
pub struct GateKey {
    /// The place among the gates.
    pub slot: u32,
    /// How often the slot was opened so far, from 1 on.
    pub generation: u64,
}

/// A component configuration that opens.
#[derive(Debug, PartialEq, Eq, Drop)]
pub struct Opened {
    /// The number of the component configuration.
    pub configuration: u64,
    /// The number of the service that it registers, 0 where it has no interfaces.
    pub service: u64,
}

/// A step and its consequences.
#[derive(Debug, PartialEq, Eq, Drop)]
pub struct Entry<S> {
    /// What happened.
    pub step: S,
    /// The component configurations that close, by level, then by number.
    pub closed: List<u64>,
    /// The component configurations that open, by level, then by number.
    pub opened: List<Opened>,
    /// The bundles that have stopped.
    pub stopped: List<u64>,
}
