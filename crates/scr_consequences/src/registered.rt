//! Which services are registered (OSGi Core 8, chapter 5, "Service Registry"). A direct service is found by halving.
ghost use Rattle.component_state.specs.Rows.{rows_of};
ghost use Rattle.component_state.specs.declared.open_period.OpenPeriod.{OpenPeriod};
ghost use Rattle.prop_map.specs.Words.{has};
ghost use Rattle.scr_world.specs.Worlds.{is_registered};
ghost use Rattle.service_registry.specs.Services.{ids};
ghost use Rattle.std.specs.List.{list_any};
ghost use Rattle.std.specs.Prelude.{◌≡◌, ◌==◌, ◌++◌, ℕ, IfOk, OnOk};

use crate::sorted_numbers::SortedNumbers;
use component_state::OpenPeriod;
use prop_map::OutOfMemory;
use scr_world::World;
use service_registry::Registry;
use std::alloc::Global;

// Whether a direct service has this number.
#[tactic(auto, using(crate::proofs::RegisteredLemmas::found_has))]
fn is_direct(registry: &Registry, service: u64) -> bool
    ensures { result ≡ has (ids registry.now.rows) service }
{
    match registry.row(service) {
        Some(_) => true,
        None => false,
    }
}

// Whether an open period has a service of this number.
fn is_opened(periods: &[OpenPeriod], service: u64) -> bool
    ensures { result ≡ list_any (λ (p : OpenPeriod). p.row.id == service) periods.now }
{
    periods.iter().any(|period| period.row.id == service)
}

/// Whether a service is registered in a world. It takes no memory.
pub(crate) fn is_registered(world: &World, service: u64) -> bool
    ensures { result ≡ is_registered world.now service }
{
    if service == 0 {
        return true;
    }
    if is_direct(&world.registry, service) {
        return true;
    }
    is_opened(world.open_periods.as_slice(), service)
}

// Adds the numbers of the services of open periods.
fn add_open_ids(numbers: &mut Vec<u64>, open_now: &[OpenPeriod]) -> Result<(), OutOfMemory>
    ensures { OnOk result (numbers.new.items ≡ numbers.old.items ++ ids (rows_of open_now.now)) }
{
    for period in open_now {
        if period.row.id != 0 {
            numbers.push(period.row.id)?;
        }
    }
    Ok(())
}

/// The numbers of the services of open periods, for many looks at one world.
pub(crate) fn opened_numbers(alloc: Global, world: &World) -> Result<SortedNumbers, OutOfMemory>
    ensures { IfOk result (λ numbers. (service : ℕ) → has numbers service ≡ has (ids (rows_of world.now.open_periods)) service) }
{
    let mut numbers = Vec::new(alloc);
    add_open_ids(&mut numbers, world.open_periods.as_slice())?;
    Ok(SortedNumbers::of(numbers))
}

/// Whether a service is registered in a world whose open periods have services of these numbers. It takes no memory.
pub(crate) fn is_registered_with(world: &World, opened: &SortedNumbers, service: u64) -> bool
    requires { (number : ℕ) → has opened.now number ≡ has (ids (rows_of world.now.open_periods)) number }
    ensures { result ≡ is_registered world.now service }
{
    if service == 0 {
        return true;
    }
    if is_direct(&world.registry, service) {
        return true;
    }
    opened.has(service)
}
