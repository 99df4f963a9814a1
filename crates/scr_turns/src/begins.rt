//! An instance that is told of a callback (OSGi Compendium 8, chapter 112, "Activation", "Modification").
ghost use Rattle.component_state.specs.Components.{properties_of};
ghost use Rattle.scr_turns.specs.TurnDrafts.{told_in};
ghost use Rattle.scr_world.specs.Instances.{with_effect_of_begin};
ghost use Rattle.scr_world.specs.Stepping.{before_turn};
ghost use Rattle.scr_world.specs.Worlds.{revision_of};
ghost use Rattle.std.specs.Prelude.{◌≡◌, IfOk};
ghost use Rattle.told_revisions.specs.Told.{with_told, without_told};

use crate::revisions::revision_of;
use callback_orders::Callback;
use component_state::{Component, component_of};
use prop_map::{Copies, OutOfMemory, Properties, Shared, Str};
use scr_world::{Instance, World};
use std::alloc::Global;

/// An instance as it is where a turn begins that tells it of a callback.
pub(crate) fn told_in(
    alloc: Global,
    world: &World,
    turn: u64,
    callback: &Callback,
    instance: &Instance,
) -> Result<Instance, OutOfMemory>
    ensures { IfOk result (λ i. i ≡ told_in world.now turn callback.now instance.now) }
{
    let mut told = instance.copy(alloc)?;
    told.turn = turn;
    told.callbacks.begin(alloc, callback.copy(alloc)?)?;
    with_effect(alloc, world, callback, told)
}

// What it takes with the callback: at Bind and Updated the service's revision, at Modified its component's properties.
fn with_effect(
    alloc: Global,
    world: &World,
    callback: &Callback,
    instance: Instance,
) -> Result<Instance, OutOfMemory>
    ensures { IfOk result (λ i. i ≡ with_effect_of_begin (before_turn world.now) callback.now instance) }
{
    match callback {
        Callback::Bind { reference, service } | Callback::Updated { reference, service } => {
            with_revision(alloc, world, reference, *service, instance)
        }
        Callback::Unbind { reference, service } => {
            without_revision(alloc, reference, *service, instance)
        }
        Callback::Modified => with_properties(alloc, world, instance),
        Callback::Create | Callback::Activate | Callback::Deactivate | Callback::Destroy => {
            Ok(instance)
        }
    }
}

fn with_revision(
    alloc: Global,
    world: &World,
    reference: &Str,
    service: u64,
    instance: Instance,
) -> Result<Instance, OutOfMemory>
    ensures { IfOk result (λ i. i ≡ record instance { told_revisions = with_told reference.now service (revision_of world.now service) instance.told_revisions }) }
{
    let mut told = instance;
    let revision = revision_of(world, service);
    told.told_revisions
        .tell(alloc, reference.copy(alloc)?, service, revision)?;
    Ok(told)
}

fn without_revision(
    alloc: Global,
    reference: &Str,
    service: u64,
    instance: Instance,
) -> Result<Instance, OutOfMemory>
    ensures { IfOk result (λ i. i ≡ record instance { told_revisions = without_told reference.now service instance.told_revisions }) }
{
    let mut told = instance;
    told.told_revisions
        .forget(alloc, reference.copy(alloc)?, service)?;
    Ok(told)
}

fn with_properties(
    alloc: Global,
    world: &World,
    instance: Instance,
) -> Result<Instance, OutOfMemory>
    ensures { IfOk result (λ i. i ≡ record instance { properties = properties_of world.now.components instance.origin.configuration; properties_taken_at = world.now.entries }) }
{
    let mut told = instance;
    let components = world.components.as_slice();
    let configuration = told.origin.get().configuration;
    told.properties = Shared::of(alloc, properties_of(alloc, components, configuration)?)?;
    told.properties_taken_at = world.entries;
    Ok(told)
}

// The properties of a component configuration, none where it isn't known.
pub(crate) fn properties_of(
    alloc: Global,
    components: &[Component],
    configuration: u64,
) -> Result<Properties, OutOfMemory>
    ensures { IfOk result (λ p. p ≡ properties_of components.now configuration) }
{
    match component_of(components, configuration) {
        Some(component) => component.properties.copy(alloc),
        None => Ok(Properties::new(alloc)),
    }
}
