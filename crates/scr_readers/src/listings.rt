//! Component configurations in a listing, each with what it waits for (OSGi Compendium 8, chapter 112,
//! "ComponentConfigurationDTO", "UnsatisfiedReferenceDTO").
ghost use Rattle.component_state.specs.Components.{existing};
ghost use Rattle.prop_map.specs.Words.{has};
ghost use Rattle.scr_readers.specs.ListedComponents.{listed_by, listed_components, unsatisfied_names, waits};
ghost use Rattle.scr_world.specs.Worlds.{satisfied_in};
ghost use Rattle.std.specs.Prelude.{◌≡◌, ℕ, IfOk, map};

use crate::reference_states::reference_states;
use crate::{ListedComponent, ReferenceState};
use component_state::Component;
use prop_map::{Copies, List, OutOfMemory, Str};
use scr_dues::{OwnRows, state_of};
use scr_world::World;
use std::alloc::Global;

/// The component configurations that haven't ceased, by number, each with its state and the references that keep it from
/// being satisfied. The numbers of the satisfied ones are given, in whatever order.
///
/// # Errors
/// Only want of memory.
pub fn listed_components(
    alloc: Global,
    own: &OwnRows,
    world: &World,
    satisfied: &[u64],
) -> Result<List<ListedComponent>, OutOfMemory>
    requires { (number : ℕ) → has satisfied.now number ≡ has (satisfied_in world.now) number }
    ensures { IfOk result (λ lines. lines ≡ listed_components world.now) }
{
    let lines = listed_ones(alloc, own, world, satisfied)?;
    Ok(lines)
}

fn listed_ones(
    alloc: Global,
    own: &OwnRows,
    world: &World,
    satisfied: &[u64],
) -> Result<List<ListedComponent>, OutOfMemory>
    ensures { IfOk result (λ lines. lines ≡ map (listed_by world.now satisfied.now) (existing world.now.components)) }
{
    let mut lines = Vec::new(alloc);
    for component in world.components.as_slice() {
        if component.exists {
            lines.push(listed_by(alloc, own, world, satisfied, component)?)?;
        }
    }
    Ok(List::of(lines))
}

fn listed_by(
    alloc: Global,
    own: &OwnRows,
    world: &World,
    satisfied: &[u64],
    component: &Component,
) -> Result<ListedComponent, OutOfMemory>
    ensures { IfOk result (λ line. line ≡ listed_by world.now satisfied.now component.now) }
{
    let waits = waits(alloc, own, world, component)?;
    let description = component.description.get();
    Ok(ListedComponent {
        number: component.number,
        bundle: component.bundle,
        state: state_of(world, satisfied, component),
        name: description.name.copy(alloc)?,
        interfaces: description.service_interfaces.copy(alloc)?,
        waits,
    })
}

#[tactic(auto, unfolding(crate::specs::ListedComponents::waits))]
fn waits(
    alloc: Global,
    own: &OwnRows,
    world: &World,
    component: &Component,
) -> Result<List<Str>, OutOfMemory>
    ensures { IfOk result (λ names. names ≡ waits world.now component.now) }
{
    let states = reference_states(alloc, own, world, component)?;
    let names = unsatisfied_names(alloc, &states)?;
    Ok(List::of(names))
}

fn unsatisfied_names(alloc: Global, states: &[ReferenceState]) -> Result<Vec<Str>, OutOfMemory>
    ensures { IfOk result (λ v. v.items ≡ unsatisfied_names states.now) }
{
    let mut names = Vec::new(alloc);
    for state in states {
        if !state.satisfied {
            names.push(state.name.copy(alloc)?)?;
        }
    }
    Ok(names)
}
