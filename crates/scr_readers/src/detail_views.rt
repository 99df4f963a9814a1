//! All that is told of a component configuration (OSGi Compendium 8, chapter 112, "ComponentConfigurationDTO").
ghost use Rattle.component_state.specs.Components.{existing_of};
ghost use Rattle.component_state.specs.Rows.{service_in};
ghost use Rattle.component_state.specs.declared.open_period.OpenPeriod.{OpenPeriod};
ghost use Rattle.prop_map.specs.Words.{has};
ghost use Rattle.scr_readers.specs.DetailViews.{component_details, details_by, service_of};
ghost use Rattle.scr_world.specs.Worlds.{satisfied_in};
ghost use Rattle.std.specs.Option.{option_copied};
ghost use Rattle.std.specs.Prelude.{◌≡◌, ◌==◌, ℕ, IfOk, find, option_map};

use crate::ComponentDetails;
use crate::failures::failure_in;
use crate::reference_details::reference_details;
use component_state::{Component, OpenPeriod, existing_of};
use prop_map::{Copies, List, OutOfMemory};
use scr_dues::{OwnRows, state_of};
use scr_world::World;
use std::alloc::Global;

/// All that is told of the component configuration of a number: `None` exactly where there is none, or it has ceased. The
/// numbers of the satisfied ones are given, in whatever order.
///
/// # Errors
/// Only want of memory.
pub fn details(
    alloc: Global,
    own: &OwnRows,
    world: &World,
    satisfied: &[u64],
    configuration: u64,
) -> Result<Option<ComponentDetails>, OutOfMemory>
    requires { (number : ℕ) → has satisfied.now number ≡ has (satisfied_in world.now) number }
    ensures { IfOk result (λ details. details ≡ component_details world.now configuration) }
{
    let details = details_among(alloc, own, world, satisfied, configuration)?;
    Ok(details)
}

fn details_among(
    alloc: Global,
    own: &OwnRows,
    world: &World,
    satisfied: &[u64],
    configuration: u64,
) -> Result<Option<ComponentDetails>, OutOfMemory>
    ensures { IfOk result (λ details. details ≡ option_map (details_by world.now satisfied.now) (existing_of world.now.components configuration)) }
{
    match existing_of(world.components.as_slice(), configuration) {
        Some(component) => Ok(Some(details_by(alloc, own, world, satisfied, component)?)),
        None => Ok(None),
    }
}

fn details_by(
    alloc: Global,
    own: &OwnRows,
    world: &World,
    satisfied: &[u64],
    component: &Component,
) -> Result<ComponentDetails, OutOfMemory>
    ensures { IfOk result (λ details. details ≡ details_by world.now satisfied.now component.now) }
{
    let state = state_of(world, satisfied, component);
    let references = reference_details(alloc, own, world, component)?;
    Ok(ComponentDetails {
        bundle: component.bundle,
        description: component.description.share()?,
        factory_configuration: component.pid.copy(alloc)?,
        properties: component.properties.copy(alloc)?,
        state,
        failure: failure_in(world, state, component.number),
        service: service_of(world.open_periods.as_slice(), component.number),
        references: List::of(references),
    })
}

fn service_of(periods: &[OpenPeriod], configuration: u64) -> Option<u64>
    ensures { result ≡ service_of periods.now configuration }
{
    let service = service_in(periods, configuration);
    if service == 0 { None } else { Some(service) }
}

// The service of an open component configuration, 0 where it isn't open or has none.
fn service_in(periods: &[OpenPeriod], configuration: u64) -> u64
    ensures { result ≡ service_in periods.now configuration }
{
    match period_of(periods, configuration) {
        Some(period) => period.row.id,
        None => 0,
    }
}

fn period_of(periods: &[OpenPeriod], configuration: u64) -> Option<&OpenPeriod>
    ensures { option_copied result ≡ find (λ (p : OpenPeriod). p.configuration == configuration) periods.now }
{
    periods
        .iter()
        .find(|period| period.configuration == configuration)
}
