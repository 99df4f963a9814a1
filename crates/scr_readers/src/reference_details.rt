//! The references of a component configuration with what is in effect for them (OSGi Compendium 8, chapter 112,
//! "ReferenceDTO").
ghost use Rattle.scr_readers.specs.DetailViews.{details_with, implicit_detail, reference_detail, reference_details};
ghost use Rattle.scr_readers.specs.ComponentViews.{present_instance};
ghost use Rattle.std.specs.Option.{option_copied};
ghost use Rattle.std.specs.Prelude.{◌≡◌, IfOk, map};

use crate::bound_services::present_instance;
use crate::reference_states::{implicit_state, reference_state};
use crate::{ReferenceDetails, ReferenceState};
use component_dto::Reference;
use component_state::Component;
use prop_map::{Copies, OutOfMemory};
use reference_match::{Need, implicit_need, need_of};
use scr_dues::OwnRows;
use scr_world::{Instance, World};
use std::alloc::Global;

/// The references in the order of the description, the implicit one last where it is there.
pub(crate) fn reference_details(
    alloc: Global,
    own: &OwnRows,
    world: &World,
    component: &Component,
) -> Result<Vec<ReferenceDetails>, OutOfMemory>
    ensures { IfOk result (λ v. v.items ≡ reference_details world.now component.now) }
{
    let mut details = described_details(alloc, own, world, component)?;
    if component.description.get().implicit {
        details.push(implicit_detail(alloc, own, world, component)?)?;
    }
    Ok(details)
}

// Those that the description names.
fn described_details(
    alloc: Global,
    own: &OwnRows,
    world: &World,
    component: &Component,
) -> Result<Vec<ReferenceDetails>, OutOfMemory>
    ensures { IfOk result (λ v. v.items
        ≡ map (reference_detail world.now component.now (present_instance world.now component.now.number)) component.now.description.references) }
{
    let instance = present_instance(world, component.number);
    let references = component.description.get().references.as_slice();
    details_of(alloc, own, world, component, instance, references)
}

fn details_of(
    alloc: Global,
    own: &OwnRows,
    world: &World,
    component: &Component,
    instance: Option<&Instance>,
    references: &[Reference],
) -> Result<Vec<ReferenceDetails>, OutOfMemory>
    ensures { IfOk result (λ v. v.items ≡ map (reference_detail world.now component.now (option_copied instance.entry)) references.now) }
{
    let mut details = Vec::new(alloc);
    for reference in references {
        details.push(reference_detail(alloc, own, world, component, instance, reference)?)?;
    }
    Ok(details)
}

fn reference_detail(
    alloc: Global,
    own: &OwnRows,
    world: &World,
    component: &Component,
    instance: Option<&Instance>,
    reference: &Reference,
) -> Result<ReferenceDetails, OutOfMemory>
    ensures { IfOk result (λ details. details ≡ reference_detail world.now component.now (option_copied instance.entry) reference.now) }
{
    let need = need_of(alloc, &component.properties, reference)?;
    let state = reference_state(alloc, own, world, component, instance, reference)?;
    details_with(alloc, &need, state)
}

// The implicit one on the satisfying condition.
fn implicit_detail(
    alloc: Global,
    own: &OwnRows,
    world: &World,
    component: &Component,
) -> Result<ReferenceDetails, OutOfMemory>
    ensures { IfOk result (λ details. details ≡ implicit_detail world.now component.now) }
{
    let need = implicit_need(alloc, &component.properties)?;
    let state = implicit_state(alloc, own, world, component)?;
    details_with(alloc, &need, state)
}

fn details_with(
    alloc: Global,
    need: &Need,
    state: ReferenceState,
) -> Result<ReferenceDetails, OutOfMemory>
    ensures { IfOk result (λ details. details ≡ details_with need.now state) }
{
    Ok(ReferenceDetails {
        state,
        interface_name: need.interface.copy(alloc)?,
        cardinality: need.cardinality,
        minimum: need.minimum,
        policy: need.policy,
        policy_option: need.option,
    })
}
