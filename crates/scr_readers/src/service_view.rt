//! What is told of a service (OSGi Core 8, chapter 5, "Service Registry").
use prop_map::{List, Str};
use service_registry::ServiceRow;

/// A service.
#[derive(Debug, PartialEq, Eq, Drop)]
pub struct ServiceView {
    /// The service itself, as it is registered.
    pub row: ServiceRow,
    /// The number of the component configuration whose service it is: a direct one has none.
    pub provider: Option<u64>,
    /// The bundles that use it, by number.
    pub uses: List<ServiceUse>,
    /// What holds it: by instance, then in the order of the references.
    pub holders: List<ServiceHolder>,
}

/// A bundle that uses a service (OSGi Core 8, chapter 5, "Getting Services").
#[derive(Debug, PartialEq, Eq, Drop)]
pub struct ServiceUse {
    /// The number of the bundle.
    pub bundle: u64,
    /// How many gets it has.
    pub count: u32,
}

/// A reference for which an instance holds a service (OSGi Compendium 8, chapter 112, "Bound Services").
#[derive(Debug, PartialEq, Eq, Drop)]
pub struct ServiceHolder {
    /// The number of the component configuration, 0 for the whiteboard's.
    pub configuration: u64,
    /// The number of the instance, 0 for the whiteboard's.
    pub instance: u64,
    /// The name of the reference.
    pub reference: Str,
}
