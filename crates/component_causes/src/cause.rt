//! Direct causes.

use prop_map::{Cardinality, Str};

/// What keeps a component configuration from being satisfied, by itself.
#[derive(Debug, PartialEq, Eq, Drop)]
pub enum Cause {
    /// One of its PIDs has no configuration that counts, where its policy is `require` (OSGi Compendium 8, chapter 112,
    /// "Configuration Policy").
    Pid {
        /// The PID.
        pid: Str,
        /// A factory of this PID has configurations, which don't count for it.
        factory: bool,
    },
    /// One of its references has fewer target services than its minimum.
    Reference(ReferenceCause),
}

/// A reference below its minimum (OSGi Compendium 8, chapter 112, "Minimum Cardinality Property", `UnsatisfiedReferenceDTO`).
#[derive(Debug, PartialEq, Eq, Drop)]
pub struct ReferenceCause {
    /// Its name.
    pub name: Str,
    /// The interface of its services.
    pub interface_name: Str,
    /// How many services it needs and takes.
    pub cardinality: Cardinality,
    /// How many target services it has.
    pub targets: u64,
    /// How many services with its interface are registered.
    pub registered: u64,
    /// How many target services it needs at least, as the properties of its component configuration have it.
    pub minimum: u64,
    /// How many component configurations that aren't open would provide a target service.
    pub could: u64,
    /// Its target in effect.
    pub target: TargetInEffect,
}

/// The target of a reference, as the properties of its component configuration have it (OSGi Compendium 8, chapter 112,
/// "Target Property").
#[derive(Debug, PartialEq, Eq, Drop)]
pub enum TargetInEffect {
    /// It has none.
    Unset,
    /// A filter.
    Filter {
        /// The filter as it is written.
        text: Str,
    },
    /// A text that is no filter, so that it has no target services.
    NoFilter {
        /// The text.
        text: Str,
    },
    /// A value that is no text, so that it has no target services.
    NoText,
}
