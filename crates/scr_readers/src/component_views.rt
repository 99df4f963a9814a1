//! What is told of a component configuration (OSGi Compendium 8, chapter 112, "ComponentConfigurationDTO").
ghost use Rattle.component_state.specs.Components.{existing_of};
ghost use Rattle.prop_map.specs.Words.{has};
ghost use Rattle.scr_readers.specs.ComponentViews.{component_view, view_by};
ghost use Rattle.scr_world.specs.Worlds.{satisfied_in};
ghost use Rattle.std.specs.Prelude.{◌≡◌, ℕ, IfOk, option_map};

use crate::ComponentView;
use crate::failures::failure_in;
use crate::reference_states::reference_states;
use component_state::{Component, existing_of};
use prop_map::{Copies, List, OutOfMemory};
use scr_dues::{OwnRows, state_of};
use scr_world::World;
use std::alloc::Global;

/// The component configuration of a number, with its references: `None` exactly where there is none, or it has ceased. The
/// numbers of the satisfied ones are given, in whatever order.
///
/// # Errors
/// Only want of memory.
pub fn component(
    alloc: Global,
    own: &OwnRows,
    world: &World,
    satisfied: &[u64],
    configuration: u64,
) -> Result<Option<ComponentView>, OutOfMemory>
    requires { (number : ℕ) → has satisfied.now number ≡ has (satisfied_in world.now) number }
    ensures { IfOk result (λ view. view ≡ component_view world.now configuration) }
{
    let view = view_with(alloc, own, world, satisfied, configuration)?;
    Ok(view)
}

fn view_with(
    alloc: Global,
    own: &OwnRows,
    world: &World,
    satisfied: &[u64],
    configuration: u64,
) -> Result<Option<ComponentView>, OutOfMemory>
    ensures { IfOk result (λ view. view ≡ option_map (view_by world.now satisfied.now) (existing_of world.now.components configuration)) }
{
    match existing_of(world.components.as_slice(), configuration) {
        Some(component) => Ok(Some(view_of(alloc, own, world, satisfied, component)?)),
        None => Ok(None),
    }
}

fn view_of(
    alloc: Global,
    own: &OwnRows,
    world: &World,
    satisfied: &[u64],
    component: &Component,
) -> Result<ComponentView, OutOfMemory>
    ensures { IfOk result (λ view. view ≡ view_by world.now satisfied.now component.now) }
{
    let state = state_of(world, satisfied, component);
    let references = reference_states(alloc, own, world, component)?;
    Ok(ComponentView {
        bundle: component.bundle,
        name: component.description.get().name.copy(alloc)?,
        properties: component.properties.copy(alloc)?,
        state,
        failure: failure_in(world, state, component.number),
        references: List::of(references),
    })
}
