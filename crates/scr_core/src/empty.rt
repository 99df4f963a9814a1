//! The state of an empty journal.
ghost use Rattle.scr_state.specs.Keeps.{Keeps};
ghost use Rattle.scr_world.specs.Whiteboard.{new_whiteboard};
ghost use Rattle.scr_world.specs.Worlds.{empty_world};
ghost use Rattle.journal_core.specs.Rooms.{empty_journal};
ghost use Rattle.std.specs.Prelude.{◌≡◌, ◌≤◌, ℕ, [], IfOk};

use bundle_life::Bundles;
use component_state::Origin;
use config_admin::Configurations;
use instance_callbacks::InstanceCallbacks;
use prop_map::{Copies, List, OutOfMemory, Shared};
use scr_dues::OwnRows;
use scr_state::State;
use scr_world::{Instance, World};
use service_listeners::Listeners;
use service_registry::Registry;
use std::alloc::Global;
use told_revisions::ToldRevisions;
use use_counts::UseCounts;

fn none<T>(alloc: Global) -> List<T>
    ensures { result ≡ [] }
{
    List::of(Vec::new(alloc))
}

fn no_origin(alloc: Global) -> Origin
    ensures { result ≡ record { configuration = 0; created = 0; chosen = [] } }
{
    Origin {
        configuration: 0,
        created: 0,
        chosen: none(alloc),
    }
}

// The whiteboard's instance of an empty journal.
fn new_whiteboard(alloc: Global, own: &OwnRows) -> Result<Instance, OutOfMemory>
    ensures { IfOk result (λ i. i ≡ new_whiteboard) }
{
    Ok(Instance {
        number: 0,
        consumer: 0,
        service: 0,
        slot: 0,
        generation: 0,
        drained: false,
        turn: 0,
        origin: Shared::of(alloc, no_origin(alloc))?,
        callbacks: InstanceCallbacks::new(alloc),
        properties: Shared::of(alloc, own.whiteboard().properties.copy(alloc)?)?,
        properties_taken_at: 0,
        told_revisions: ToldRevisions::new(alloc),
    })
}

fn empty_world(alloc: Global, own: &OwnRows) -> Result<World, OutOfMemory>
    ensures { IfOk result (λ w. w ≡ empty_world) }
{
    let whiteboard = new_whiteboard(alloc, own)?;
    Ok(World {
        entries: 0,
        bundles: Bundles::new(alloc)?,
        documents: none(alloc),
        registry: Registry::new(alloc)?,
        configurations: Configurations::new(alloc)?,
        components: none(alloc),
        components_numbered: 0,
        open_periods: none(alloc),
        failed: none(alloc),
        failures: none(alloc),
        instances: none(alloc),
        whiteboard,
        instances_numbered: 0,
        turns_begun: 0,
        generations: none(alloc),
        uses: UseCounts::new(alloc)?,
        tokens: none(alloc),
        listeners: Listeners::new(alloc)?,
        unregistered_held: none(alloc),
    })
}

/// The state of an empty journal.
///
/// # Errors
/// Only want of memory.
pub(crate) fn empty_state(alloc: Global, own: &OwnRows) -> Result<State, OutOfMemory>
    ensures { IfOk result (λ s. (limit : ℕ) → limit ≤ 4194304 → Keeps (empty_journal limit) s) }
{
    let world = empty_world(alloc, own)?;
    Ok(State {
        world,
        descriptions: none(alloc),
        levels: none(alloc),
        satisfied: none(alloc),
    })
}
