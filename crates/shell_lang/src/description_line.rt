//! The lines of descriptions.
use component_dto::ConfigurationPolicy;
use prop_map::{List, Str};

/// A description in a listing.
#[derive(Debug, PartialEq, Eq, Drop)]
pub struct DescriptionLine {
    /// Its name.
    pub name: Str,
    /// Whether it is enabled.
    pub enabled: bool,
    /// Whether an instance is made as soon as it is satisfied.
    pub immediate: bool,
    /// What it needs of its configurations.
    pub policy: ConfigurationPolicy,
    /// The PIDs of its configurations, in order.
    pub pids: List<Str>,
    /// The numbers of its component configurations, in order.
    pub numbers: List<u64>,
}
