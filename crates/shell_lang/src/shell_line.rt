//! What a line asks.
use crate::LineHelp;
use http::Method;
use ldap_filter::Filter;
use prop_map::{List, Str};
use scr_world::Command;

/// What a line asks.
#[derive(Debug, Drop)]
pub enum ShellLine {
    /// Nothing: it is empty or a comment. It has no reply.
    Silent,
    /// To end the run. It has no reply.
    Quit,
    /// What is told of lines of the shell.
    Help(List<LineHelp>),
    /// A command.
    Command(Command),
    /// The bundles and their states.
    Bundles,
    /// The services.
    Services,
    /// The component configurations and their states.
    Components,
    /// What is told of a component configuration.
    Report {
        /// Its number.
        configuration: u64,
    },
    /// What the instances of a component configuration hold.
    Held {
        /// Its number.
        configuration: u64,
    },
    /// The component configurations, their states, and what they wait for.
    ListComponents,
    /// The bundles, the services without a component and the component configurations as a graph.
    Graph,
    /// All that is told of a component configuration.
    Details {
        /// Its number.
        configuration: u64,
    },
    /// What is told of a service.
    AboutService {
        /// Its number.
        service: u64,
    },
    /// The descriptions of a bundle, and the component configurations of each.
    Descriptions {
        /// The bundle's number.
        bundle: u64,
    },
    /// The services that a filter matches.
    Find {
        /// The filter.
        filter: Filter,
    },
    /// What a listener was told behind the first so many events.
    Events {
        /// The listener's number.
        listener: u64,
        /// How many.
        after: u64,
    },
    /// What happened to bundles behind the first so many events.
    BundleEvents {
        /// How many.
        after: u64,
    },
    /// The turns with a number above this one.
    Trace {
        /// The number.
        after: u64,
    },
    /// Which bundles resolve together, and to whom each is wired.
    Wiring,
    /// To whom a bundle is wired, and what it offers.
    BundleWiring {
        /// The bundle's number.
        bundle: u64,
    },
    /// Which patterns of servlets are in effect, and what isn't and why.
    Routes,
    /// The configurations, and for which component configurations each counts.
    Configurations,
    /// The properties of a configuration.
    Configuration {
        /// Its PID.
        pid: Str,
    },
    /// The listeners.
    Listeners,
    /// How many entries the journal has, how many more are reserved, and how many it may have.
    Journal,
    /// To run the turns that are due, until none is.
    Settle,
    /// To begin the first due turn.
    Begin,
    /// To end a turn that is under way.
    Finish {
        /// Its number.
        turn: u64,
    },
    /// To call a service for a bundle.
    Call {
        /// The bundle's number.
        bundle: u64,
        /// The service's number.
        service: u64,
        /// The request.
        request: Str,
    },
    /// To ask by HTTP.
    Http {
        /// The method.
        method: Method,
        /// The target as it was given.
        target: Str,
        /// The body.
        body: List<u8>,
    },
}
