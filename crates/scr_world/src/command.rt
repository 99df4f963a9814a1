//! What a platform is asked to do.
use bundle_doc::BundleDoc;
use ldap_filter::Filter;
use prop_map::{List, Properties, Str};

/// The limits of a platform.
#[derive(Clone, Copy, Debug, PartialEq, Eq, Drop)]
pub struct Limits {
    /// How many entries the journal may have.
    pub journal: u64,
    /// How many turns one settling may run.
    pub turns: u64,
}

/// What a platform is asked to do.
#[derive(Debug, Drop)]
pub enum Command {
    /// Install a bundle from a document.
    Install {
        /// The document.
        doc: BundleDoc,
    },
    /// Give a bundle another document.
    Update {
        /// The bundle's number.
        bundle: u64,
        /// The document.
        doc: BundleDoc,
    },
    /// Start a bundle.
    Start {
        /// The bundle's number.
        bundle: u64,
    },
    /// Stop a bundle.
    Stop {
        /// The bundle's number.
        bundle: u64,
    },
    /// Uninstall a bundle.
    Uninstall {
        /// The bundle's number.
        bundle: u64,
    },
    /// Enable a component.
    Enable {
        /// The bundle's number.
        bundle: u64,
        /// The name of its description.
        name: Str,
    },
    /// Disable a component.
    Disable {
        /// The bundle's number.
        bundle: u64,
        /// The name of its description.
        name: Str,
    },
    /// Register a service for a bundle.
    Register {
        /// The bundle's number.
        bundle: u64,
        /// The interfaces.
        interfaces: List<Str>,
        /// The properties.
        properties: Properties,
    },
    /// Unregister a service that a command registered.
    Unregister {
        /// The number of the bundle that registered it.
        bundle: u64,
        /// The service's number.
        service: u64,
    },
    /// Set the properties of a service that a command registered.
    SetProperties {
        /// The number of the bundle that registered it.
        bundle: u64,
        /// The service's number.
        service: u64,
        /// The properties.
        properties: Properties,
    },
    /// Get a service for a bundle.
    Get {
        /// The bundle's number.
        bundle: u64,
        /// The service's number.
        service: u64,
    },
    /// Release a service that was got so.
    Unget {
        /// The bundle's number.
        bundle: u64,
        /// The service's number.
        service: u64,
    },
    /// Listen to the events of services.
    Listen {
        /// The number of the bundle that listens.
        bundle: u64,
        /// Which services it is told of.
        filter: Filter,
    },
    /// Listen no more.
    Unlisten {
        /// The listener's number.
        listener: u64,
    },
    /// Set the configuration of a PID.
    Configure {
        /// The PID.
        pid: Str,
        /// The properties.
        properties: Properties,
    },
    /// Set a configuration of a factory.
    ConfigureFactory {
        /// The PID of the factory.
        factory: Str,
        /// The name of the configuration.
        name: Str,
        /// The properties.
        properties: Properties,
    },
    /// Delete a configuration.
    Unconfigure {
        /// Its PID.
        pid: Str,
    },
}
