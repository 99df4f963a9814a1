//! Turns that end.
use journal_core::GateKey;
use prop_map::List;

/// What the end of a turn does to gates.
#[derive(Debug, PartialEq, Eq, Drop)]
pub struct Ended {
    /// The gates of the instances that are active and began to end, by instance.
    pub shut: List<GateKey>,
    /// The gate of the instance whose Activate is done, if it is: it is reopened before any is shut.
    pub reopened: Option<GateKey>,
}
