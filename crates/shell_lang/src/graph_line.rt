//! The lines of a graph.
use prop_map::Str;
use service_registry::Interfaces;

/// What stands for a service in a graph.
#[derive(Clone, Copy, Debug, PartialEq, Eq, Drop)]
pub enum GraphNode {
    /// The component configuration of this number, whose service it is.
    Component(u64),
    /// The service of this number itself.
    Service(u64),
}

/// A line of a graph of bundles, services and component configurations.
#[derive(Debug, PartialEq, Eq, Drop)]
pub enum GraphLine {
    /// The first line.
    Opening,
    /// A bundle.
    Bundle {
        /// Its number.
        bundle: u64,
        /// Where it was installed from.
        location: Str,
        /// The number of its state: 2 INSTALLED, 4 RESOLVED, 16 STOPPING, 32 ACTIVE.
        state: u32,
    },
    /// A service without a component behind it.
    Service {
        /// Its number.
        service: u64,
        /// Its interfaces.
        interfaces: Interfaces,
    },
    /// A component configuration.
    Component {
        /// Its number.
        configuration: u64,
        /// The name of its description.
        name: Str,
        /// Its state: 1 unsatisfied for want of a configuration, 2 unsatisfied for a reference, 4 satisfied, 8 active, 16 failed.
        state: u8,
    },
    /// A component configuration is of a bundle.
    OfBundle {
        /// The number of the bundle.
        bundle: u64,
        /// The number of the component configuration.
        configuration: u64,
    },
    /// A living instance of a component configuration holds a service.
    Holds {
        /// The number of the component configuration.
        configuration: u64,
        /// What stands for the service.
        node: GraphNode,
        /// The name of the reference for which it is held.
        reference: Str,
    },
    /// A reference of a component configuration has fewer targets than its minimum.
    Lacks {
        /// The number of the component configuration.
        configuration: u64,
        /// The interface that the reference asks for.
        interface: Str,
        /// The name of the reference.
        reference: Str,
    },
    /// The last line.
    Closing,
}
