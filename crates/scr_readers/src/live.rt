//! Whom a call reaches.
use journal_core::GateKey;
use turn_work::Site;

/// An instance that can be called.
#[derive(Debug, PartialEq, Eq, Drop)]
pub struct Live {
    /// The key of its gate.
    pub key: GateKey,
    /// Its number.
    pub instance: u64,
    /// What its component code is told.
    pub site: Site,
}

/// An instance that can be called, by its number and its gate alone.
#[derive(Clone, Copy, Debug, PartialEq, Eq, Drop)]
pub struct LiveAt {
    /// The key of its gate.
    pub key: GateKey,
    /// Its number.
    pub instance: u64,
}

/// Whom a call by a get reaches.
#[derive(Debug, PartialEq, Eq, Drop)]
pub enum Outer {
    /// Nobody: the get stands no more.
    Gone,
    /// Nobody: a command registered the service, or the platform did, and there is no object behind it.
    NoObject,
    /// Nobody yet: the instance of the service isn't active.
    Pending,
    /// The instance of the service.
    Live(Live),
}

/// The same without what component code is told.
#[derive(Clone, Copy, Debug, PartialEq, Eq, Drop)]
pub enum OuterAt {
    /// Nobody: the get stands no more.
    Gone,
    /// Nobody: there is no object behind the service.
    NoObject,
    /// Nobody yet: the instance of the service isn't active.
    Pending,
    /// The instance of the service.
    Live(LiveAt),
}

/// Whom a nested call reaches.
#[derive(Debug, PartialEq, Eq, Drop)]
pub enum Inward {
    /// Nobody: no service is held for the reference.
    NoService,
    /// Nobody: there is no object behind the best service that is held.
    NoObject {
        /// The service's number.
        service: u64,
    },
    /// Nobody: the instance of the best service that is held is ending.
    Gone {
        /// The service's number.
        service: u64,
    },
    /// The instance of the best service that is held.
    Live {
        /// The service's number.
        service: u64,
        /// The instance.
        live: Live,
    },
}

/// The same without what component code is told.
#[derive(Clone, Copy, Debug, PartialEq, Eq, Drop)]
pub enum InwardAt {
    /// Nobody: no service is held for the reference.
    NoService,
    /// Nobody: there is no object behind the best service that is held.
    NoObject {
        /// The service's number.
        service: u64,
    },
    /// Nobody: the instance of the best service that is held is ending.
    Gone {
        /// The service's number.
        service: u64,
    },
    /// The instance of the best service that is held.
    Live {
        /// The service's number.
        service: u64,
        /// The instance.
        live: LiveAt,
    },
}
