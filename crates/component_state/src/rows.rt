//! What component configurations are made of, and what a pass looks at.
use component_dto::Description;
use config_admin::Configuration;
use prop_map::{List, Properties, Str};
use service_registry::ServiceRow;

/// A bundle with its descriptions and whether each is enabled.
#[derive(Debug, PartialEq, Eq, Drop)]
pub struct BundleRow {
    /// Its number.
    pub id: u64,
    /// The number of its state.
    pub state: u32,
    /// The descriptions of its document, in their order.
    pub descriptions: List<Description>,
    /// Which of them are enabled, in the same order.
    pub enabled: List<bool>,
}

/// What a platform has of bundles, services and configurations.
#[derive(Debug, PartialEq, Eq, Drop)]
pub struct WorldRows {
    /// The installed bundles, by number.
    pub bundles: List<BundleRow>,
    /// The direct services, and those of the periods that are open.
    pub services: List<ServiceRow>,
    /// The configurations, by PID in byte order.
    pub configurations: List<Configuration>,
    /// The levels of all descriptions, in the order of the bundles.
    pub levels: List<u32>,
    /// The number of the next service: no service has one as high.
    pub next_service: u64,
}

/// A component configuration that is to be there.
#[derive(Debug, PartialEq, Eq, Drop)]
pub struct ComponentRow {
    /// The number of its bundle.
    pub bundle: u64,
    /// The index of its description in the bundle's document, from 0 on.
    pub description: usize,
    /// The PID of the factory's configuration that names it, if one does.
    pub pid: Option<Str>,
    /// Its properties, but for its number.
    pub properties: Properties,
}
