//! The lines of listeners.

/// A listener in a listing.
#[derive(Clone, Copy, Debug, PartialEq, Eq)]
pub struct ListenerLine {
    /// Its number.
    pub listener: u64,
    /// The number of the bundle that listens.
    pub bundle: u64,
    /// How many events it was told.
    pub told: u64,
}
