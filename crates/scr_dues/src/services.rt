//! The services of a world by number (OSGi Core 8, chapter 5, "Service Registry").
ghost use Rattle.component_state.specs.Rows.{rows_of};
ghost use Rattle.scr_world.specs.Worlds.{direct_services, is_registered, ranking_of, registered_services, revision_of, row_known, sorted};
ghost use Rattle.service_registry.specs.Registries.{row_of};
ghost use Rattle.service_registry.specs.Services.{ranking};
ghost use Rattle.service_registry.specs.declared.row.ServiceRow.{ServiceRow};
ghost use Rattle.std.specs.Option.{option_copied, option_map_or};
ghost use Rattle.std.specs.Prelude.{◌≡◌, ◌==◌, ◌&&◌, IfOk, find, map, not, pos};

use crate::own_rows::OwnRows;
use component_state::OpenPeriod;
use prop_map::OutOfMemory;
use scr_world::World;
use service_registry::{Ranked, ServiceRow, numbers_best_first, ranking};
use std::alloc::Global;

// The open period whose service has a number, if it is registered.
fn period_of(periods: &[OpenPeriod], service: u64) -> Option<&OpenPeriod>
    ensures { option_copied result ≡ find (λ (p : OpenPeriod). not (p.row.id == 0) && (p.row.id == service)) periods.now }
{
    periods
        .iter()
        .find(|period| period.row.id != 0 && period.row.id == service)
}

// The service of an open component configuration.
#[tactic(auto, using(crate::proofs::Rows::row_of_opened))]
fn opened_row(periods: &[OpenPeriod], service: u64) -> Option<&ServiceRow>
    ensures { option_copied result ≡ row_of (rows_of periods.now) service }
{
    match period_of(periods, service) {
        Some(period) => Some(&period.row),
        None => None,
    }
}

fn row_among(rows: &[ServiceRow], service: u64) -> Option<&ServiceRow>
    ensures { option_copied result ≡ row_of rows.now service }
{
    rows.iter().find(|row| row.id == service)
}

// The direct service of a number.
fn direct_row<'a>(own: &'a OwnRows, world: &'a World, service: u64) -> Option<&'a ServiceRow>
    ensures { option_copied result ≡ row_of (direct_services world.now) service }
{
    let condition = own.condition();
    if condition.id == service {
        Some(condition)
    } else {
        world.registry.row(service)
    }
}

// The registered service of a number.
fn registered_row<'a>(own: &'a OwnRows, world: &'a World, service: u64) -> Option<&'a ServiceRow>
    ensures { option_copied result ≡ row_of (registered_services world.now) service }
{
    match direct_row(own, world, service) {
        Some(row) => Some(row),
        None => opened_row(world.open_periods.as_slice(), service),
    }
}

/// The service of a number as it is, or as it left while an instance holds it.
pub fn row_known<'a>(own: &'a OwnRows, world: &'a World, service: u64) -> Option<&'a ServiceRow>
    ensures { option_copied result ≡ row_known world.now service }
{
    match registered_row(own, world, service) {
        Some(row) => Some(row),
        None => row_among(world.unregistered_held.as_slice(), service),
    }
}

/// Whether a service is registered.
pub fn is_registered(own: &OwnRows, world: &World, service: u64) -> bool
    ensures { result ≡ is_registered world.now service }
{
    registered_row(own, world, service).is_some()
}

fn revision_in(row: Option<&ServiceRow>) -> u64
    ensures { result ≡ option_map_or (λ (r : ServiceRow). r.revision) (option_copied row.entry) 0 }
{
    match row {
        Some(row) => row.revision,
        None => 0,
    }
}

/// How often the properties of a service were set since it was registered, 0 where it isn't known.
pub fn revision_of(own: &OwnRows, world: &World, service: u64) -> u64
    ensures { result ≡ revision_of world.now service }
{
    revision_in(row_known(own, world, service))
}

fn ranking_in(row: Option<&ServiceRow>) -> i64
    ensures { result ≡ option_map_or (λ (r : ServiceRow). ranking r.properties) (option_copied row.entry) (pos 0) }
{
    match row {
        Some(row) => ranking(&row.properties),
        None => 0,
    }
}

/// The ranking of a service by its present or last properties, 0 where it isn't known.
pub fn ranking_of(own: &OwnRows, world: &World, service: u64) -> i64
    ensures { result ≡ ranking_of world.now service }
{
    ranking_in(row_known(own, world, service))
}

fn ranked_of(own: &OwnRows, world: &World, service: u64) -> Ranked
    ensures { result ≡ record { ranking = ranking_of world.now service; id = service } }
{
    Ranked {
        ranking: ranking_of(own, world, service),
        id: service,
    }
}

fn ranked_ones(
    alloc: Global,
    own: &OwnRows,
    world: &World,
    services: &[u64],
) -> Result<Vec<Ranked>, OutOfMemory>
    ensures { IfOk result (λ v. v.items ≡ map (λ s. record { ranking = ranking_of world.now s; id = s }) services.now) }
{
    services
        .iter()
        .map(|service| ranked_of(own, world, *service))
        .collect(alloc)
}

/// Services best first, by their present or last properties.
///
/// # Errors
/// Only want of memory.
pub fn sorted(
    alloc: Global,
    own: &OwnRows,
    world: &World,
    services: &[u64],
) -> Result<Vec<u64>, OutOfMemory>
    ensures { IfOk result (λ v. v.items ≡ sorted world.now services.now) }
{
    // One alone is in order, whatever its ranking.
    if services.len() < 2 {
        return Vec::from_slice(alloc, services);
    }
    let ranked = ranked_ones(alloc, own, world, services)?;
    let numbers = numbers_best_first(alloc, ranked)?;
    Ok(numbers)
}
