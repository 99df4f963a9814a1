//! What a step makes of the state, before it stands.
use crate::RowChange;
use component_dto::Description;
use component_state::{Component, OpenPeriod};
use config_admin::Configurations;
use prop_map::List;
use scr_world::{Contents, Failure, Instance, Token};
use service_registry::Registry;
use use_counts::UseCounts;

/// What a step makes of the state: the tables that it changes as they are after it, none for each of the others. Of the failures,
/// the living instances, the generations and the gets by token it says the row that changes, comes or goes. Numbers and the
/// failed component configurations are always there. Bundles and listeners aren't: they change in their own tables, as these
/// hold what only grows.
#[derive(Drop)]
pub struct Draft {
    /// What the bundles hold.
    pub documents: Option<List<Contents>>,
    /// The direct services.
    pub registry: Option<Registry>,
    /// The configurations.
    pub configurations: Option<Configurations>,
    /// The component configurations.
    pub components: Option<List<Component>>,
    /// How many of these were numbered.
    pub components_numbered: u64,
    /// The open periods, with the properties that they have then.
    pub open_periods: Option<List<OpenPeriod>>,
    /// The numbers of the failed component configurations.
    pub failed: List<u64>,
    /// The creations and activations that failed.
    pub failures: RowChange<Failure>,
    /// The living instances.
    pub instances: RowChange<Instance>,
    /// The whiteboard's instance.
    pub whiteboard: Option<Instance>,
    /// How many instances were numbered.
    pub instances_numbered: u64,
    /// How many turns began.
    pub turns_begun: u64,
    /// The last generation of each slot.
    pub generations: RowChange<u64>,
    /// How often each bundle uses each service.
    pub uses: Option<UseCounts>,
    /// The gets by token.
    pub tokens: RowChange<Token>,
    /// The descriptions of all installed bundles.
    pub descriptions: Option<List<Description>>,
    /// Their levels.
    pub levels: Option<List<u32>>,
}
