//! The references of a component configuration (OSGi Compendium 8, chapter 112, "SatisfiedReferenceDTO",
//! "UnsatisfiedReferenceDTO").
ghost use Rattle.reference_match.specs.Needs.{condition_name};
ghost use Rattle.scr_readers.specs.ComponentViews.{implicit_state, present_instance, reference_state, reference_states, state_with};
ghost use Rattle.std.specs.Option.{option_copied};
ghost use Rattle.std.specs.Prelude.{◌≡◌, IfOk, map};

use crate::ReferenceState;
use crate::bound_services::{bound_services, present_instance};
use crate::target_texts::target_text;
use component_dto::Reference;
use component_state::Component;
use prop_map::{Copies, List, OutOfMemory, Properties, Str};
use reference_match::{Need, implicit_need, need_of};
use scr_dues::{OwnRows, targets};
use scr_world::{Instance, World};
use std::alloc::Global;

/// The references in the order of the description, the implicit one last where it is there.
pub(crate) fn reference_states(
    alloc: Global,
    own: &OwnRows,
    world: &World,
    component: &Component,
) -> Result<Vec<ReferenceState>, OutOfMemory>
    ensures { IfOk result (λ v. v.items ≡ reference_states world.now component.now) }
{
    let mut states = described_states(alloc, own, world, component)?;
    if component.description.get().implicit {
        states.push(implicit_state(alloc, own, world, component)?)?;
    }
    Ok(states)
}

// Those that the description names.
fn described_states(
    alloc: Global,
    own: &OwnRows,
    world: &World,
    component: &Component,
) -> Result<Vec<ReferenceState>, OutOfMemory>
    ensures { IfOk result (λ v. v.items
        ≡ map (reference_state world.now component.now (present_instance world.now component.now.number)) component.now.description.references) }
{
    let instance = present_instance(world, component.number);
    let references = component.description.get().references.as_slice();
    states_of(alloc, own, world, component, instance, references)
}

fn states_of(
    alloc: Global,
    own: &OwnRows,
    world: &World,
    component: &Component,
    instance: Option<&Instance>,
    references: &[Reference],
) -> Result<Vec<ReferenceState>, OutOfMemory>
    ensures { IfOk result (λ v. v.items ≡ map (reference_state world.now component.now (option_copied instance.entry)) references.now) }
{
    let mut states = Vec::new(alloc);
    for reference in references {
        states.push(reference_state(alloc, own, world, component, instance, reference)?)?;
    }
    Ok(states)
}

/// A reference, with what an instance holds for it.
pub(crate) fn reference_state(
    alloc: Global,
    own: &OwnRows,
    world: &World,
    component: &Component,
    instance: Option<&Instance>,
    reference: &Reference,
) -> Result<ReferenceState, OutOfMemory>
    ensures { IfOk result (λ state. state ≡ reference_state world.now component.now (option_copied instance.entry) reference.now) }
{
    let properties = &component.properties;
    let need = need_of(alloc, properties, reference)?;
    let bound = bound_services(alloc, own, world, &reference.name, instance)?;
    state_with(alloc, own, world, properties, &reference.name, &need, bound)
}

/// The implicit one on the satisfying condition. Nothing is bound for it.
pub(crate) fn implicit_state(
    alloc: Global,
    own: &OwnRows,
    world: &World,
    component: &Component,
) -> Result<ReferenceState, OutOfMemory>
    ensures { IfOk result (λ state. state ≡ implicit_state world.now component.now) }
{
    let properties = &component.properties;
    let need = implicit_need(alloc, properties)?;
    let name = condition_name(alloc)?;
    state_with(alloc, own, world, properties, &name, &need, Vec::new(alloc))
}

fn condition_name(alloc: Global) -> Result<Str, OutOfMemory>
    ensures { IfOk result (λ name. name ≡ condition_name) }
{
    Ok(Str::of(String::from_str(alloc, "osgi.ds.satisfying.condition")?))
}

fn state_with(
    alloc: Global,
    own: &OwnRows,
    world: &World,
    properties: &Properties,
    name: &Str,
    need: &Need,
    bound: Vec<u64>,
) -> Result<ReferenceState, OutOfMemory>
    ensures { IfOk result (λ state. state ≡ state_with world.now properties.now name.now need.now bound.items) }
{
    let targets = targets(alloc, own, world, need)?;
    let target = target_text(alloc, properties, name.as_str())?;
    Ok(ReferenceState {
        name: name.copy(alloc)?,
        target,
        satisfied: need.minimum <= targets.len() as u64,
        targets: List::of(targets),
        bound: List::of(bound),
    })
}
