//! What a journal says.
use crate::{Contents, Failure, Instance, Token};
use bundle_life::Bundles;
use component_state::{Component, OpenPeriod};
use config_admin::Configurations;
use prop_map::List;
use service_listeners::Listeners;
use service_registry::{Registry, ServiceRow};
use use_counts::UseCounts;

/// What a journal says: the tables of the platform, so that no command reads the journal again. What rests on them alone,
/// to be found faster, doesn't stand here.
#[derive(Drop)]
pub struct World {
    /// How many entries the journal has. So it is the place of the next one.
    pub entries: u64,
    /// The bundles, and their events.
    pub bundles: Bundles,
    /// What they hold, by bundle.
    pub documents: List<Contents>,
    /// The direct services, by number, and how many services were numbered.
    pub registry: Registry,
    /// The configurations, by PID in byte order.
    pub configurations: Configurations,
    /// The component configurations, by number. One that ceased keeps its row until the next command, so that the steps of turns leave
    /// these rows alone, and longer where an instance of it lives.
    pub components: List<Component>,
    /// How many component configurations were numbered.
    pub components_numbered: u64,
    /// The open periods, in the order of their openings: at most one for each component configuration.
    pub open_periods: List<OpenPeriod>,
    /// The numbers of the failed component configurations.
    pub failed: List<u64>,
    /// The creations and activations that failed. There is at most one for each service, as its period closes in its own entry.
    pub failures: List<Failure>,
    /// The living instances but for the whiteboard's, by number.
    pub instances: List<Instance>,
    /// The whiteboard's instance, which has the number 0.
    pub whiteboard: Instance,
    /// How many instances were numbered.
    pub instances_numbered: u64,
    /// How many turns began.
    pub turns_begun: u64,
    /// The last generation of each slot: how often its gate was opened.
    pub generations: List<u64>,
    /// How often each bundle uses each service.
    pub uses: UseCounts,
    /// The gets by token, by place.
    pub tokens: List<Token>,
    /// The listeners, and what each was told.
    pub listeners: Listeners,
    /// The services that were unregistered and that an instance still holds, as they were.
    pub unregistered_held: List<ServiceRow>,
}
