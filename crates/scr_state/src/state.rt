//! What a platform keeps beside its journal.
use component_dto::Description;
use prop_map::List;
use scr_world::World;

/// The world that a journal says, and what follows from it and is kept so that nobody computes it again.
#[derive(Drop)]
pub struct State {
    /// The world.
    pub world: World,
    /// The descriptions of all installed bundles, by bundle, then in the order of its document.
    pub descriptions: List<Description>,
    /// Their levels, in the same order.
    pub levels: List<u32>,
    /// The numbers of the satisfied component configurations. Their order says nothing.
    pub satisfied: List<u64>,
}
