//! What is told of a service (OSGi Core 8, chapter 5, "Service Registry", "Getting Services"; OSGi Compendium 8, chapter
//! 112, "Bound Services").
ghost use Rattle.component_state.specs.Rows.{rows_of};
ghost use Rattle.component_state.specs.declared.open_period.OpenPeriod.{OpenPeriod};
ghost use Rattle.scr_readers.specs.ServiceViews.{holder_by, holders_in, holds_for, listed_service, provider, service_holders, service_uses, service_view, service_view_by};
ghost use Rattle.service_registry.specs.Registries.{row_of};
ghost use Rattle.std.specs.Option.{option_copied};
ghost use Rattle.std.specs.Prelude.{◌≡◌, ◌==◌, ◌&&◌, IfOk, filter, find, flat_map, map, not};
ghost use Rattle.use_counts.specs.Uses.{use_count};

use crate::{ServiceHolder, ServiceUse, ServiceView};
use component_dto::Reference;
use component_state::OpenPeriod;
use prop_map::{Copies, List, OutOfMemory};
use scr_dues::{OwnRows, references_in};
use scr_world::{Instance, World};
use service_registry::ServiceRow;
use std::alloc::Global;

/// The service of a number, with the bundles that use it and the instances that hold it: `None` exactly where none is
/// registered, or it is that of the platform.
///
/// # Errors
/// Only want of memory.
pub fn service(
    alloc: Global,
    own: &OwnRows,
    world: &World,
    service: u64,
) -> Result<Option<ServiceView>, OutOfMemory>
    ensures { IfOk result (λ view. view ≡ service_view world.now service) }
{
    match listed_service(world, service) {
        Some(row) => Ok(Some(view_of(alloc, own, world, row)?)),
        None => Ok(None),
    }
}

fn view_of(
    alloc: Global,
    own: &OwnRows,
    world: &World,
    row: &ServiceRow,
) -> Result<ServiceView, OutOfMemory>
    ensures { IfOk result (λ view. view ≡ service_view_by world.now row.now) }
{
    let uses = service_uses(alloc, world, row.id)?;
    let holders = service_holders(alloc, own, world, row.id)?;
    Ok(ServiceView {
        row: row.copy(alloc)?,
        provider: provider(world, row.id),
        uses: List::of(uses),
        holders: List::of(holders),
    })
}

fn listed_service(world: &World, service: u64) -> Option<&ServiceRow>
    ensures { option_copied result ≡ listed_service world.now service }
{
    match world.registry.row(service) {
        Some(row) => Some(row),
        None => opened_row(world.open_periods.as_slice(), service),
    }
}

// The service of an open component configuration.
#[tactic(auto, using(crate::proofs::OpenedRows::opened_row))]
fn opened_row(periods: &[OpenPeriod], service: u64) -> Option<&ServiceRow>
    ensures { option_copied result ≡ row_of (rows_of periods.now) service }
{
    match registered_period(periods, service) {
        Some(period) => Some(&period.row),
        None => None,
    }
}

fn registered_period(periods: &[OpenPeriod], service: u64) -> Option<&OpenPeriod>
    ensures { option_copied result ≡ find (λ (p : OpenPeriod). not (p.row.id == 0) && (p.row.id == service)) periods.now }
{
    periods
        .iter()
        .find(|period| period.row.id != 0 && period.row.id == service)
}

fn provider(world: &World, service: u64) -> Option<u64>
    ensures { result ≡ provider world.now service }
{
    match period_of(world.open_periods.as_slice(), service) {
        Some(period) => Some(period.configuration),
        None => None,
    }
}

fn period_of(periods: &[OpenPeriod], service: u64) -> Option<&OpenPeriod>
    ensures { option_copied result ≡ find (λ (p : OpenPeriod). p.row.id == service) periods.now }
{
    periods.iter().find(|period| period.row.id == service)
}

fn service_uses(alloc: Global, world: &World, service: u64) -> Result<Vec<ServiceUse>, OutOfMemory>
    ensures { IfOk result (λ v. v.items ≡ service_uses world.now service) }
{
    let bundles = world.uses.using_bundles(alloc, service)?;
    uses_by(alloc, world, service, &bundles)
}

fn uses_by(
    alloc: Global,
    world: &World,
    service: u64,
    bundles: &[u64],
) -> Result<Vec<ServiceUse>, OutOfMemory>
    ensures { IfOk result (λ v. v.items ≡ map (λ b. record { bundle = b; count = use_count b service world.now.uses }) bundles.now) }
{
    let mut uses = Vec::new(alloc);
    for &bundle in bundles {
        let count = world.uses.count(bundle, service);
        uses.push(ServiceUse { bundle, count })?;
    }
    Ok(uses)
}

// By instance, the whiteboard's first.
fn service_holders(
    alloc: Global,
    own: &OwnRows,
    world: &World,
    service: u64,
) -> Result<Vec<ServiceHolder>, OutOfMemory>
    ensures { IfOk result (λ v. v.items ≡ service_holders world.now service) }
{
    let mut holders = holders_in(alloc, own, world, service, &world.whiteboard)?;
    let mut others = holders_among(alloc, own, world, service, world.instances.as_slice())?;
    holders.append(&mut others)?;
    Ok(holders)
}

fn holders_among(
    alloc: Global,
    own: &OwnRows,
    world: &World,
    service: u64,
    instances: &[Instance],
) -> Result<Vec<ServiceHolder>, OutOfMemory>
    ensures { IfOk result (λ v. v.items ≡ flat_map (holders_in world.now service) instances.now) }
{
    let mut holders = Vec::new(alloc);
    for instance in instances {
        holders.append(&mut holders_in(alloc, own, world, service, instance)?)?;
    }
    Ok(holders)
}

fn holders_in(
    alloc: Global,
    own: &OwnRows,
    world: &World,
    service: u64,
    instance: &Instance,
) -> Result<Vec<ServiceHolder>, OutOfMemory>
    ensures { IfOk result (λ v. v.items ≡ holders_in world.now service instance.now) }
{
    let references = references_in(own, world, instance);
    holders_for(alloc, service, instance, references)
}

fn holders_for(
    alloc: Global,
    service: u64,
    instance: &Instance,
    references: &[Reference],
) -> Result<Vec<ServiceHolder>, OutOfMemory>
    ensures { IfOk result (λ v. v.items ≡ map (holder_by instance.now) (filter (holds_for service instance.now) references.now)) }
{
    let mut holders = Vec::new(alloc);
    for reference in references {
        if holds_for(service, instance, reference) {
            holders.push(holder_by(alloc, instance, reference)?)?;
        }
    }
    Ok(holders)
}

fn holder_by(
    alloc: Global,
    instance: &Instance,
    reference: &Reference,
) -> Result<ServiceHolder, OutOfMemory>
    ensures { IfOk result (λ holder. holder ≡ holder_by instance.now reference.now) }
{
    Ok(ServiceHolder {
        configuration: instance.origin.get().configuration,
        instance: instance.number,
        reference: reference.name.copy(alloc)?,
    })
}

fn holds_for(service: u64, instance: &Instance, reference: &Reference) -> bool
    ensures { result ≡ holds_for service instance.now reference.now }
{
    let held = instance.callbacks.held(&reference.name);
    held.iter().any(|other| *other == service)
}
