//! Listeners, and what each was told.
use ldap_filter::Filter;
use prop_map::List;

/// An event of a service.
#[derive(Clone, Copy, Debug, PartialEq, Eq)]
pub struct ServiceEvent {
    /// REGISTERED 1, MODIFIED 2, UNREGISTERING 4, MODIFIED_ENDMATCH 8.
    pub value: u32,
    /// The service's number.
    pub service: u64,
}

/// A listener, and what it was told.
#[derive(Debug, Drop)]
pub struct Listener {
    /// Its number, from 1 on.
    pub number: u64,
    /// The bundle that listens.
    pub bundle: u64,
    /// Which services it is told of.
    pub filter: Filter,
    /// What it was told so far.
    pub events: List<ServiceEvent>,
}
