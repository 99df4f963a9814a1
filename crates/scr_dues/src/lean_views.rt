//! What decides which callback of an instance is due, without what isn't looked at: whether it is held, whether a service that it
//! holds is ready, and whether one changed of which it isn't told (our own).
ghost use Rattle.callback_orders.specs.Lives.{held_for};
ghost use Rattle.component_state.specs.Reasons.{choice_at};
ghost use Rattle.prop_map.specs.Words.{has, with_places};
ghost use Rattle.prop_map.specs.declared.reference_words.Policy.TheVariants.{Static};
ghost use Rattle.scr_dues.specs.LeanViews.{due_view, is_settled, lean_reference, references_looked_at, staying_reference, wants_nothing};
ghost use Rattle.scr_world.specs.Views.{is_changed, is_ready, references_in};
ghost use Rattle.std.specs.Prelude.{◌≡◌, ◌&&◌, IfOk, map, not};

use crate::changes::{awaits_modified, is_changed};
use crate::components::references_in;
use crate::desires::{choice_where_static, choices_from, desired_holding, is_static};
use crate::own_rows::OwnRows;
use crate::readiness::{bundle_of_instance, is_ready};
use crate::services::sorted;
use callback_orders::{HeldService, InstanceView, Phase, ReferenceView, Wish};
use component_dto::Reference;
use prop_map::{List, OutOfMemory, Str};
use scr_world::{Instance, World};
use std::alloc::Global;

fn is_ready_anew(own: &OwnRows, world: &World, bundle: u64, held: &[u64], service: u64) -> bool
    ensures { result ≡ (not (has held.now service) && is_ready world.now bundle service) }
{
    !held.contains(&service) && is_ready(own, world, bundle, service)
}

// Services, each with whether it isn't held and is ready for a bundle.
fn wishes(
    alloc: Global,
    own: &OwnRows,
    world: &World,
    bundle: u64,
    held: &[u64],
    services: &[u64],
) -> Result<Vec<Wish>, OutOfMemory>
    ensures { IfOk result (λ v. v.items ≡ map (λ s. record { service = s; ready = not (has held.now s) && is_ready world.now bundle s }) services.now) }
{
    services
        .iter()
        .copied()
        .map(|service| Wish {
            service,
            ready: is_ready_anew(own, world, bundle, held, service),
        })
        .collect(alloc)
}

fn is_to_be_told(
    own: &OwnRows,
    world: &World,
    told: bool,
    instance: &Instance,
    reference: &Str,
    service: u64,
) -> bool
    ensures { result ≡ (told && is_changed world.now instance.now reference.now service) }
{
    told && is_changed(own, world, instance, reference, service)
}

// Services, each with whether it changed and an instance is told of that.
fn changes(
    alloc: Global,
    own: &OwnRows,
    world: &World,
    told: bool,
    instance: &Instance,
    reference: &Str,
    services: &[u64],
) -> Result<Vec<HeldService>, OutOfMemory>
    ensures { IfOk result (λ v. v.items ≡ map (λ s. record { service = s; changed = told && is_changed world.now instance.now reference.now s }) services.now) }
{
    services
        .iter()
        .copied()
        .map(|service| HeldService {
            service,
            changed: is_to_be_told(own, world, told, instance, reference, service),
        })
        .collect(alloc)
}

/// It holds these services for the reference, and chose these where it is static.
///
/// # Errors
/// Only want of memory.
pub(crate) fn lean_reference(
    alloc: Global,
    own: &OwnRows,
    world: &World,
    ending: bool,
    instance: &Instance,
    services: &[u64],
    choice: &[u64],
    place: u64,
    reference: &Reference,
) -> Result<ReferenceView, OutOfMemory>
    requires held { services.now ≡ held_for reference.now.name instance.now.callbacks }
    requires choice { reference.now.policy ≡ Static → choice.now ≡ choice_at instance.now.origin.chosen place }
    ensures { IfOk result (λ v. v ≡ lean_reference ending world.now instance.now (place, reference.now)) }
{
    let desired = desired_holding(
        alloc, own, world, ending, instance, services, choice, place, reference,
    )?;
    let held = sorted(alloc, own, world, services)?;
    let bundle = bundle_of_instance(world, instance);
    let told = reference.updated.is_some();
    let wishes = wishes(alloc, own, world, bundle, &held, &desired)?;
    let changes = changes(alloc, own, world, told, instance, &reference.name, &held)?;
    Ok(ReferenceView {
        told,
        desired: List::of(wishes),
        held: List::of(changes),
    })
}

// The choices stand in the order of the references, so the one for a reference is mostly the first of those that are left.
fn lean_references(
    alloc: Global,
    own: &OwnRows,
    world: &World,
    ending: bool,
    instance: &Instance,
    references: &[Reference],
) -> Result<Vec<ReferenceView>, OutOfMemory>
    ensures { IfOk result (λ v. v.items ≡ map (lean_reference ending world.now instance.now) (with_places 0 references.now)) }
{
    let mut found = Vec::new(alloc);
    let mut choices = instance.origin.get().chosen.as_slice();
    for (at, reference) in references.iter().enumerate() {
        let place = at as u64;
        choices = choices_from(choices, place);
        let choice = choice_where_static(choices, place, reference);
        let services = instance.callbacks.held(&reference.name);
        found.push(lean_reference(
            alloc, own, world, ending, instance, services, choice, place, reference,
        )?)?;
    }
    Ok(found)
}

// Whether a static reference holds just what was chosen for it, and nobody is told of changes.
#[tactic(auto, using(crate::proofs::Staying::where_static))]
fn is_settled(
    instance: &Instance,
    services: &[u64],
    choice: &[u64],
    place: u64,
    reference: &Reference,
) -> bool
    requires held { services.now ≡ held_for reference.now.name instance.now.callbacks }
    requires choice { reference.now.policy ≡ Static → choice.now ≡ choice_at instance.now.origin.chosen place }
    ensures { result ≡ is_settled instance.now (place, reference.now) }
{
    is_static(reference.policy) && reference.updated.is_none() && services == choice
}

// A reference for which nothing is due. It takes no memory.
fn wants_nothing(alloc: Global) -> ReferenceView
    ensures { result ≡ wants_nothing }
{
    ReferenceView {
        told: false,
        desired: List::of(Vec::new(alloc)),
        held: List::of(Vec::new(alloc)),
    }
}

// A reference of an instance that goes on. For one that is settled no memory is taken.
#[tactic(auto, unfolding(crate::specs::LeanViews::staying_reference))]
fn staying_reference(
    alloc: Global,
    own: &OwnRows,
    world: &World,
    instance: &Instance,
    services: &[u64],
    choice: &[u64],
    place: u64,
    reference: &Reference,
) -> Result<ReferenceView, OutOfMemory>
    requires held { services.now ≡ held_for reference.now.name instance.now.callbacks }
    requires choice { reference.now.policy ≡ Static → choice.now ≡ choice_at instance.now.origin.chosen place }
    ensures { IfOk result (λ v. v ≡ staying_reference world.now instance.now (place, reference.now)) }
{
    if is_settled(instance, services, choice, place, reference) {
        return Ok(wants_nothing(alloc));
    }
    lean_reference(
        alloc, own, world, false, instance, services, choice, place, reference,
    )
}

// The references of an instance that goes on.
fn staying_references(
    alloc: Global,
    own: &OwnRows,
    world: &World,
    instance: &Instance,
    references: &[Reference],
) -> Result<Vec<ReferenceView>, OutOfMemory>
    ensures { IfOk result (λ v. v.items ≡ map (staying_reference world.now instance.now) (with_places 0 references.now)) }
{
    let mut found = Vec::new(alloc);
    let mut choices = instance.origin.get().chosen.as_slice();
    for (at, reference) in references.iter().enumerate() {
        let place = at as u64;
        choices = choices_from(choices, place);
        let choice = choice_where_static(choices, place, reference);
        let services = instance.callbacks.held(&reference.name);
        found.push(staying_reference(
            alloc, own, world, instance, services, choice, place, reference,
        )?)?;
    }
    Ok(found)
}

// What is looked at of the references of an instance.
#[tactic(auto, unfolding(crate::specs::LeanViews::references_looked_at))]
fn references_looked_at(
    alloc: Global,
    own: &OwnRows,
    world: &World,
    ending: bool,
    instance: &Instance,
) -> Result<Vec<ReferenceView>, OutOfMemory>
    ensures { IfOk result (λ v. v.items ≡ references_looked_at ending world.now instance.now (with_places 0 (references_in world.now instance.now))) }
{
    let references = references_in(own, world, instance);
    if ending {
        return lean_references(alloc, own, world, true, instance, references);
    }
    staying_references(alloc, own, world, instance, references)
}

/// What decides it, where the instance is in this phase, and ends or doesn't, as if nobody held it.
#[tactic(auto, unfolding(crate::specs::LeanViews::lean_view_as, crate::specs::LeanViews::due_view))]
pub(crate) fn due_view(
    alloc: Global,
    own: &OwnRows,
    world: &World,
    phase: Phase,
    ending: bool,
    instance: &Instance,
) -> Result<InstanceView, OutOfMemory>
    ensures { IfOk result (λ v. v ≡ due_view phase ending world.now instance.now) }
{
    let views = references_looked_at(alloc, own, world, ending, instance)?;
    Ok(InstanceView {
        instance: instance.number,
        phase,
        ending,
        outstanding: instance.callbacks.is_outstanding(),
        drained: instance.drained,
        unheld: true,
        stale: awaits_modified(world, instance),
        references: List::of(views),
    })
}
