//! What is kept of a platform.

use prop_map::{List, Str};

/// A bundle as it is kept.
#[derive(Debug, PartialEq, Eq, Drop)]
pub struct KeptBundle {
    /// Its location.
    pub location: Str,
    /// Its document, a JSON text.
    pub document: Str,
    /// Whether it is marked as started.
    pub started: bool,
}

/// A configuration as it is kept.
#[derive(Debug, PartialEq, Eq, Drop)]
pub struct KeptConfiguration {
    /// Its PID; of a factory's configuration that of the factory, `~` and its name.
    pub pid: Str,
    /// The PID of its factory, if it has one.
    pub factory: Option<Str>,
    /// Its properties, a JSON text.
    pub properties: Str,
}

/// What is kept of a platform.
#[derive(Debug, PartialEq, Eq, Drop)]
pub struct Kept {
    /// The bundles, in the order in which they were last installed.
    pub bundles: List<KeptBundle>,
    /// The configurations, by PID in byte order.
    pub configurations: List<KeptConfiguration>,
}
