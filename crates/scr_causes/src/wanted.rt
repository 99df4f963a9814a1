//! Whether an instance of a component configuration is to be there (OSGi Compendium 8, chapter 112, "Immediate Component",
//! "Delayed Component"; keys are our own).
ghost use Rattle.bundle_life.specs.declared.bundle.BundleLife.{BundleLife};
ghost use Rattle.prop_map.specs.Words.{has, with_places};
ghost use Rattle.scr_causes.specs.Standings.{has_wanted};
ghost use Rattle.scr_causes.specs.WantedHere.{asks, desires_for, desires_here, gets, is_asked_for, is_wanted_here, serves_users};
ghost use Rattle.scr_world.specs.Wanted.{is_immediate};
ghost use Rattle.std.specs.List.{list_any};
ghost use Rattle.std.specs.Prelude.{◌≡◌, ◌==◌, IfOk, map};

use crate::standings::period_of;
use bundle_life::BundleLife;
use component_dto::{Reference, Scope};
use component_state::{Component, OpenPeriod};
use prop_map::{OutOfMemory, has};
use scr_dues::{OwnRows, bundle_of_instance, desired_for, references_in};
use scr_world::{Instance, World, ends};
use std::alloc::Global;
use use_counts::UseRow;

/// Whether it has a wanted key.
///
/// # Errors
/// Only want of memory.
pub(crate) fn has_wanted(
    alloc: Global,
    own: &OwnRows,
    world: &World,
    component: &Component,
) -> Result<bool, OutOfMemory>
    ensures { IfOk result (λ is. is ≡ has_wanted world.now component.now) }
{
    match period_of(world.open_periods.as_slice(), component.number) {
        Some(period) => is_wanted_here(alloc, own, world, component, period),
        None => Ok(false),
    }
}

fn is_wanted_here(
    alloc: Global,
    own: &OwnRows,
    world: &World,
    component: &Component,
    period: &OpenPeriod,
) -> Result<bool, OutOfMemory>
    ensures { IfOk result (λ is. is ≡ is_wanted_here world.now component.now period.now) }
{
    if is_immediate(component) {
        Ok(true)
    } else {
        is_asked_for(alloc, own, world, component, period.row.id)
    }
}

fn is_immediate(component: &Component) -> bool
    ensures { result ≡ is_immediate component.now }
{
    let description = component.description.get();
    description.immediate || description.service_interfaces.as_slice().is_empty()
}

fn is_asked_for(
    alloc: Global,
    own: &OwnRows,
    world: &World,
    component: &Component,
    service: u64,
) -> Result<bool, OutOfMemory>
    ensures { IfOk result (λ is. is ≡ is_asked_for world.now component.now service) }
{
    if service == 0 {
        Ok(false)
    } else if is_got(world, component, service, world.uses.rows()) {
        Ok(true)
    } else if desires_here(alloc, own, world, false, &world.whiteboard, service)? {
        Ok(true)
    } else {
        some_asks(
            alloc,
            own,
            world,
            component,
            service,
            world.instances.as_slice(),
        )
    }
}

// A bundle has got the service.
fn is_got(world: &World, component: &Component, service: u64, uses: &[UseRow]) -> bool
    ensures { result ≡ list_any (gets world.now component.now service) uses.now }
{
    uses.iter().any(|row| row.service == service && serves_users(world, component, row.bundle))
}

// There can be an instance for those that a bundle's uses are for.
fn serves_users(world: &World, component: &Component, bundle: u64) -> bool
    ensures { result ≡ serves_users world.now component.now bundle }
{
    match component.description.get().scope {
        Scope::Singleton => true,
        Scope::Bundle | Scope::Prototype => bundle == 0 || is_bundle(world.bundles.rows(), bundle),
    }
}

fn is_bundle(bundles: &[BundleLife], number: u64) -> bool
    ensures { result ≡ has (map (λ (b : BundleLife). b.number) bundles.now) number }
{
    is_some_bundle(bundles, number)
}

fn is_some_bundle(bundles: &[BundleLife], number: u64) -> bool
    ensures { result ≡ list_any (λ (b : BundleLife). b.number == number) bundles.now }
{
    bundles.iter().any(|bundle| bundle.number == number)
}

fn some_asks(
    alloc: Global,
    own: &OwnRows,
    world: &World,
    component: &Component,
    service: u64,
    instances: &[Instance],
) -> Result<bool, OutOfMemory>
    ensures { IfOk result (λ is. is ≡ list_any (asks world.now component.now service) instances.now) }
{
    for instance in instances {
        if asks(alloc, own, world, component, service, instance)? {
            return Ok(true);
        }
    }
    Ok(false)
}

fn asks(
    alloc: Global,
    own: &OwnRows,
    world: &World,
    component: &Component,
    service: u64,
    instance: &Instance,
) -> Result<bool, OutOfMemory>
    ensures { IfOk result (λ is. is ≡ asks world.now component.now service instance.now) }
{
    if serves_users(world, component, bundle_of_instance(world, instance)) {
        desires_here(alloc, own, world, ends(world, instance), instance, service)
    } else {
        Ok(false)
    }
}

fn desires_here(
    alloc: Global,
    own: &OwnRows,
    world: &World,
    ending: bool,
    instance: &Instance,
    service: u64,
) -> Result<bool, OutOfMemory>
    ensures { IfOk result (λ is. is ≡ desires_here ending world.now instance.now service) }
{
    let references = references_in(own, world, instance);
    desires_for_some(alloc, own, world, ending, instance, service, references)
}

fn desires_for_some(
    alloc: Global,
    own: &OwnRows,
    world: &World,
    ending: bool,
    instance: &Instance,
    service: u64,
    references: &[Reference],
) -> Result<bool, OutOfMemory>
    ensures { IfOk result (λ is. is ≡ list_any (desires_for ending world.now instance.now service) (with_places 0 references.now)) }
{
    for (at, reference) in references.iter().enumerate() {
        if desires_for(
            alloc, own, world, ending, instance, service, at as u64, reference,
        )? {
            return Ok(true);
        }
    }
    Ok(false)
}

fn desires_for(
    alloc: Global,
    own: &OwnRows,
    world: &World,
    ending: bool,
    instance: &Instance,
    service: u64,
    place: u64,
    reference: &Reference,
) -> Result<bool, OutOfMemory>
    ensures { IfOk result (λ is. is ≡ desires_for ending world.now instance.now service (place, reference.now)) }
{
    let desired = desired_for(alloc, own, world, ending, instance, place, reference)?;
    Ok(has(&desired, service))
}
