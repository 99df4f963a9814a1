//! What decides which callback of an instance is due (OSGi Compendium 8, chapter 112, "Component Life Cycle").
ghost use Rattle.callback_orders.specs.Lives.{held_for, phase_of};
ghost use Rattle.prop_map.specs.Words.{with_places};
ghost use Rattle.scr_world.specs.Views.{bundle_of_instance, ends, is_changed, is_ready, reference_view, references_in, view_as, view_of};
ghost use Rattle.scr_world.specs.Worlds.{sorted};
ghost use Rattle.std.specs.Prelude.{◌≡◌, IfOk, map};

use crate::changes::{awaits_modified, is_changed};
use crate::components::references_in;
use crate::desires::desired_for;
use crate::own_rows::OwnRows;
use crate::readiness::{bundle_of_instance, has_holder, is_ready};
use crate::services::sorted;
use callback_orders::{HeldService, InstanceView, Phase, ReferenceView, Wish};
use component_dto::Reference;
use prop_map::{List, OutOfMemory, Str};
use scr_world::{Instance, World, ends};
use std::alloc::Global;

// Services, each with whether it is ready for a bundle.
fn wishes(
    alloc: Global,
    own: &OwnRows,
    world: &World,
    bundle: u64,
    services: &[u64],
) -> Result<Vec<Wish>, OutOfMemory>
    ensures { IfOk result (λ v. v.items ≡ map (λ s. record { service = s; ready = is_ready world.now bundle s }) services.now) }
{
    services
        .iter()
        .copied()
        .map(|service| Wish {
            service,
            ready: is_ready(own, world, bundle, service),
        })
        .collect(alloc)
}

// Services, each with whether it changed since an instance was told of it.
fn changes(
    alloc: Global,
    own: &OwnRows,
    world: &World,
    instance: &Instance,
    reference: &Str,
    services: &[u64],
) -> Result<Vec<HeldService>, OutOfMemory>
    ensures { IfOk result (λ v. v.items ≡ map (λ s. record { service = s; changed = is_changed world.now instance.now reference.now s }) services.now) }
{
    services
        .iter()
        .copied()
        .map(|service| HeldService {
            service,
            changed: is_changed(own, world, instance, reference, service),
        })
        .collect(alloc)
}

// What an instance holds for a reference, best first.
fn held_services(
    alloc: Global,
    own: &OwnRows,
    world: &World,
    instance: &Instance,
    reference: &Str,
) -> Result<Vec<HeldService>, OutOfMemory>
    ensures { IfOk result (λ v. v.items ≡ map (λ s. record { service = s; changed = is_changed world.now instance.now reference.now s })
        (sorted world.now (held_for reference.now instance.now.callbacks))) }
{
    let held = instance.callbacks.held(reference);
    let best_first = sorted(alloc, own, world, held)?;
    changes(alloc, own, world, instance, reference, &best_first)
}

fn reference_view(
    alloc: Global,
    own: &OwnRows,
    world: &World,
    ending: bool,
    instance: &Instance,
    place: u64,
    reference: &Reference,
) -> Result<ReferenceView, OutOfMemory>
    ensures { IfOk result (λ v. v ≡ reference_view ending world.now instance.now (place, reference.now)) }
{
    let desired = desired_for(alloc, own, world, ending, instance, place, reference)?;
    let bundle = bundle_of_instance(world, instance);
    Ok(ReferenceView {
        told: reference.updated.is_some(),
        desired: List::of(wishes(alloc, own, world, bundle, &desired)?),
        held: List::of(held_services(alloc, own, world, instance, &reference.name)?),
    })
}

fn reference_views(
    alloc: Global,
    own: &OwnRows,
    world: &World,
    ending: bool,
    instance: &Instance,
    references: &[Reference],
) -> Result<Vec<ReferenceView>, OutOfMemory>
    ensures { IfOk result (λ v. v.items ≡ map (reference_view ending world.now instance.now) (with_places 0 references.now)) }
{
    let mut found = Vec::new(alloc);
    for (at, reference) in references.iter().enumerate() {
        found.push(reference_view(alloc, own, world, ending, instance, at as u64, reference)?)?;
    }
    Ok(found)
}

// What decides it, where the instance is in this phase, ends or doesn't, and is held or isn't: that is told as given.
pub(crate) fn view_as(
    alloc: Global,
    own: &OwnRows,
    world: &World,
    phase: Phase,
    ending: bool,
    unheld: bool,
    instance: &Instance,
) -> Result<InstanceView, OutOfMemory>
    ensures { IfOk result (λ v. v ≡ record (view_as phase ending world.now instance.now) { unheld = unheld }) }
{
    let references = references_in(own, world, instance);
    let views = reference_views(alloc, own, world, ending, instance, references)?;
    Ok(InstanceView {
        instance: instance.number,
        phase,
        ending,
        outstanding: instance.callbacks.is_outstanding(),
        drained: instance.drained,
        unheld,
        stale: awaits_modified(world, instance),
        references: List::of(views),
    })
}

/// What decides which callback of an instance is due.
///
/// # Errors
/// Only want of memory.
pub fn view_of(
    alloc: Global,
    own: &OwnRows,
    world: &World,
    instance: &Instance,
) -> Result<InstanceView, OutOfMemory>
    ensures { IfOk result (λ v. v ≡ view_of world.now instance.now) }
{
    let phase = instance.callbacks.phase();
    let ending = ends(world, instance);
    let unheld = !has_holder(own, world, instance);
    view_as(alloc, own, world, phase, ending, unheld, instance)
}
