//! The lines of what is told of a service.
use prop_map::Str;
use service_registry::ServiceRow;

/// A line of what is told of a service.
#[derive(Debug, PartialEq, Eq, Drop)]
pub enum ServiceFact {
    /// The service itself.
    Row(ServiceRow),
    /// The number of the component configuration whose service it is.
    Component(u64),
    /// No component is behind it.
    Direct,
    /// Its properties, as JSON without blanks.
    Properties(Str),
    /// A bundle uses it.
    Uses {
        /// The number of the bundle.
        bundle: u64,
        /// How often.
        count: u32,
    },
    /// An instance holds it for a reference.
    Held {
        /// The number of the component configuration.
        configuration: u64,
        /// The number of the instance.
        instance: u64,
        /// The name of the reference.
        reference: Str,
    },
}
