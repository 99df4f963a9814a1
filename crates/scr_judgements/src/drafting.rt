//! The draft of a command.
ghost use Rattle.scr_judgements.specs.Drafting.{command_draft, no_tables};
ghost use Rattle.std.specs.Prelude.{◌≡◌};

use crate::Asked;
use component_dto::Description;
use config_admin::Configurations;
use prop_map::List;
use scr_state::{Draft, RowChange};
use scr_world::{Contents, World};
use service_registry::Registry;
use use_counts::UseCounts;

/// The tables that a command changes as they are after it, none for each of the others. Those of the component configurations
/// aren't among them.
#[derive(Drop)]
pub struct TablesAfter {
    /// What the bundles hold.
    pub documents: Option<List<Contents>>,
    /// The direct services.
    pub registry: Option<Registry>,
    /// The configurations.
    pub configurations: Option<Configurations>,
    /// How often each bundle uses each service.
    pub uses: Option<UseCounts>,
    /// The descriptions of all installed bundles, by bundle, then in the order of its document.
    pub descriptions: Option<List<Description>>,
    /// Their levels, in the same order.
    pub levels: Option<List<u32>>,
}

impl TablesAfter {
    /// No table changes.
    pub fn none() -> TablesAfter
        ensures { result ≡ no_tables }
    {
        TablesAfter {
            documents: None,
            registry: None,
            configurations: None,
            uses: None,
            descriptions: None,
            levels: None,
        }
    }
}

/// The draft of a command, of the component configurations after it and of the tables that it changes.
#[tactic(auto, unfolding(crate::specs::Drafting::command_draft))]
pub fn command_draft(world: &World, asked: Asked, tables: TablesAfter) -> Draft
    ensures { result ≡ command_draft world.now asked tables }
{
    Draft {
        documents: tables.documents,
        registry: tables.registry,
        configurations: tables.configurations,
        components: Some(asked.components),
        components_numbered: asked.components_numbered,
        open_periods: Some(asked.open_periods),
        failed: asked.failed,
        failures: RowChange::Same,
        instances: RowChange::Same,
        whiteboard: None,
        instances_numbered: world.instances_numbered,
        turns_begun: world.turns_begun,
        generations: RowChange::Same,
        uses: tables.uses,
        tokens: RowChange::Same,
        descriptions: tables.descriptions,
        levels: tables.levels,
    }
}
