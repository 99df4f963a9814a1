//! What instances desire, whatever the reference (OSGi Compendium 8, chapter 112, "Target Services").
ghost use Rattle.prop_map.specs.Words.{with_places};
ghost use Rattle.scr_dues.specs.Desires.{all_desiring, are_desiring, desired_for_all, desiring_of, desiring_whiteboard};
ghost use Rattle.std.specs.Prelude.{◌≡◌, ◌++◌, IfOk, OnOk, map};

use crate::components::references_in;
use crate::desires::{choice_where_static, choices_from, desired_holding};
use crate::own_rows::OwnRows;
use crate::readiness::{bundle_of_instance, consumer_for};
use component_dto::Reference;
use component_state::Component;
use prop_map::{List, OutOfMemory};
use scr_world::{Instance, World, ends};
use std::alloc::Global;

/// What an instance desires.
#[derive(Debug, PartialEq, Eq, Drop)]
pub(crate) struct Desiring {
    /// The number of the bundle that the instance is of, 0 at the whiteboard's.
    pub bundle: u64,
    /// The numbers of the services that it desires.
    pub services: List<u64>,
}

fn desired_for_all(
    alloc: Global,
    own: &OwnRows,
    world: &World,
    ending: bool,
    instance: &Instance,
    references: &[Reference],
) -> Result<Vec<u64>, OutOfMemory>
    ensures { IfOk result (λ v. v.items ≡ desired_for_all ending world.now instance.now (with_places 0 references.now)) }
{
    let mut found = Vec::new(alloc);
    let mut choices = instance.origin.get().chosen.as_slice();
    for (at, reference) in references.iter().enumerate() {
        let place = at as u64;
        choices = choices_from(choices, place);
        let choice = choice_where_static(choices, place, reference);
        let held = instance.callbacks.held(&reference.name);
        let mut more = desired_holding(
            alloc, own, world, ending, instance, held, choice, place, reference,
        )?;
        found.append(&mut more)?;
    }
    Ok(found)
}

#[tactic(auto, unfolding(crate::specs::Desires::desiring_of))]
fn desiring_of(
    alloc: Global,
    own: &OwnRows,
    world: &World,
    instance: &Instance,
) -> Result<Desiring, OutOfMemory>
    ensures { IfOk result (λ d. d ≡ desiring_of world.now instance.now) }
{
    let ending = ends(world, instance);
    let references = references_in(own, world, instance);
    let services = desired_for_all(alloc, own, world, ending, instance, references)?;
    Ok(Desiring {
        bundle: bundle_of_instance(world, instance),
        services: List::of(services),
    })
}

#[tactic(auto, unfolding(crate::specs::Desires::desiring_whiteboard))]
fn desiring_whiteboard(alloc: Global, own: &OwnRows, world: &World) -> Result<Desiring, OutOfMemory>
    ensures { IfOk result (λ d. d ≡ desiring_whiteboard world.now) }
{
    let whiteboard = &world.whiteboard;
    let references = references_in(own, world, whiteboard);
    let services = desired_for_all(alloc, own, world, false, whiteboard, references)?;
    Ok(Desiring {
        bundle: 0,
        services: List::of(services),
    })
}

fn add_desiring(
    found: &mut Vec<Desiring>,
    alloc: Global,
    own: &OwnRows,
    world: &World,
    instances: &[Instance],
) -> Result<(), OutOfMemory>
    ensures { OnOk result (found.new.items ≡ found.old.items ++ map (desiring_of world.now) instances.now) }
{
    for instance in instances {
        found.push(desiring_of(alloc, own, world, instance)?)?;
    }
    Ok(())
}

// What each instance desires, the whiteboard's before the others.
#[tactic(auto, unfolding(crate::specs::Desires::all_desiring))]
pub(crate) fn all_desiring(
    alloc: Global,
    own: &OwnRows,
    world: &World,
) -> Result<Vec<Desiring>, OutOfMemory>
    ensures { IfOk result (λ v. v.items ≡ all_desiring world.now) }
{
    let mut found = Vec::new(alloc);
    found.push(desiring_whiteboard(alloc, own, world)?)?;
    add_desiring(&mut found, alloc, own, world, world.instances.as_slice())?;
    Ok(found)
}

// Whether one of them desires the service of a component configuration for a consumer.
pub(crate) fn are_desiring(
    desiring: &[Desiring],
    component: &Component,
    service: u64,
    consumer: u64,
) -> bool
    ensures { result ≡ are_desiring desiring.now component.now service consumer }
{
    desiring.iter().any(|one| {
        consumer_for(component, one.bundle) == consumer
            && one.services.as_slice().contains(&service)
    })
}
