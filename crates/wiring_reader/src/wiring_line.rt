//! What is told of wiring, line by line (our own).

use bundle_wiring::WireFault;
use osgi_version::Version;
use prop_map::Str;

/// A line of the wiring of all bundles.
#[derive(Debug, PartialEq, Eq, Drop)]
pub enum WiringLine {
    /// A bundle resolves.
    Resolved {
        /// Its number.
        bundle: u64,
    },
    /// A bundle doesn't resolve.
    Unresolved {
        /// Its number.
        bundle: u64,
        /// The name of its first need that isn't optional and has no candidate among the bundles that resolve and the
        /// platform.
        need: Str,
    },
    /// A bundle takes no part, as one of the four headers of its manifest isn't read.
    Faulty {
        /// Its number.
        bundle: u64,
    },
    /// A wire.
    Wire {
        /// The number of the bundle that has the need.
        bundle: u64,
        /// The need's name: a package, or the namespace of a capability.
        need: Str,
        /// The number of the bundle that makes the offer, 0 for the platform.
        to: u64,
    },
}

/// A line of the wiring of one bundle.
#[derive(Debug, PartialEq, Eq, Drop)]
pub enum NeedLine {
    /// A need is wired, or would be if the bundle resolved.
    Wire {
        /// The need's name.
        need: Str,
        /// The number of the bundle that makes the offer, 0 for the platform.
        to: u64,
    },
    /// A need that isn't optional has no candidate.
    Missing {
        /// The need's name.
        need: Str,
    },
    /// An optional need has no candidate.
    Optional {
        /// The need's name.
        need: Str,
    },
    /// The bundle offers a package or a capability.
    Offers {
        /// The package, or the namespace of the capability.
        name: Str,
        /// By default 0.0.0.
        version: Version,
    },
    /// The manifest isn't read.
    Fault {
        /// The first fault.
        fault: WireFault,
    },
}
