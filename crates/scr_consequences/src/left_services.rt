//! Services that left (OSGi Core 8, chapter 5, "Unregistering Services"), and those of them that an instance holds (OSGi
//! Compendium 8, chapter 112, "Unbinding").
ghost use Rattle.component_state.specs.Rows.{rows_of};
ghost use Rattle.scr_consequences.specs.Lefts.{has_left, is_left_held, left_between};
ghost use Rattle.scr_consequences.specs.Moves.{HasRowThere, IsThere};
ghost use Rattle.scr_world.specs.Lists.{unregistered_held_between};
ghost use Rattle.scr_world.specs.declared.world.World.{World};
ghost use Rattle.std.specs.List.{All};
ghost use Rattle.std.specs.Prelude.{◌≡◌, ◌++◌, ◌∷◌, [], IfOk, OnOk, filter};

use crate::held_services::is_service_held;
use crate::moved_periods::{period_stays, periods_behind};
use crate::moved_rows::{row_stays, rows_behind};
use crate::registered::is_registered;
use component_state::OpenPeriod;
use prop_map::{Copies, List, OutOfMemory};
use scr_world::World;
use service_registry::ServiceRow;
use std::alloc::Global;

// Adds a copy of a service.
fn add_copy(alloc: Global, row: &ServiceRow, left: &mut Vec<ServiceRow>) -> Result<(), OutOfMemory>
    ensures { OnOk result (left.new.items ≡ left.old.items ++ row.now ∷ []) }
{
    left.push(row.copy(alloc)?)?;
    Ok(())
}

// Whether a service that was registered isn't any more. One that stands first in the rest of those that are is.
fn row_has_left(now: &World, row: &ServiceRow, rest: &[ServiceRow]) -> bool
    requires { All (IsThere now.now) rest.now }
    ensures { result ≡ has_left now.now row.now }
{
    if row_stays(row, rest) {
        return false;
    }
    !is_registered(now, row.id)
}

// Adds it where it has left.
fn add_row_if_left(
    alloc: Global,
    now: &World,
    row: &ServiceRow,
    rest: &[ServiceRow],
    left: &mut Vec<ServiceRow>,
) -> Result<(), OutOfMemory>
    requires { All (IsThere now.now) rest.now }
    ensures { OnOk result (left.new.items ≡ left.old.items ++ filter (has_left now.now) (row.now ∷ [])) }
{
    if row_has_left(now, row, rest) {
        return add_copy(alloc, row, left);
    }
    Ok(())
}

// Adds those of these services that were registered and aren't any more.
fn add_left_of_rows(
    alloc: Global,
    now: &World,
    rows: &[ServiceRow],
    left: &mut Vec<ServiceRow>,
) -> Result<(), OutOfMemory>
    ensures { OnOk result (left.new.items ≡ left.old.items ++ filter (has_left now.now) rows.now) }
{
    let mut rest = now.registry.rows();
    for row in rows {
        add_row_if_left(alloc, now, row, rest, left)?;
        rest = rows_behind(row.id, rest);
    }
    Ok(())
}

// Whether the service of a period that was open has left. That of one that stands first in the rest of those that are
// hasn't.
fn period_has_left(now: &World, period: &OpenPeriod, rest: &[OpenPeriod]) -> bool
    requires { All (HasRowThere now.now) rest.now }
    ensures { result ≡ has_left now.now period.now.row }
{
    if period_stays(period, rest) {
        return false;
    }
    !is_registered(now, period.row.id)
}

// Adds it where it has left. A period without a service has the platform's number, which never leaves.
fn add_period_if_left(
    alloc: Global,
    now: &World,
    period: &OpenPeriod,
    rest: &[OpenPeriod],
    left: &mut Vec<ServiceRow>,
) -> Result<(), OutOfMemory>
    requires { All (HasRowThere now.now) rest.now }
    ensures { OnOk result (left.new.items ≡ left.old.items ++ filter (has_left now.now) (rows_of (period.now ∷ []))) }
{
    if period_has_left(now, period, rest) {
        return add_copy(alloc, &period.row, left);
    }
    Ok(())
}

// Adds those of the services of these periods, which were open, that aren't registered.
fn add_left_of_periods(
    alloc: Global,
    now: &World,
    periods: &[OpenPeriod],
    left: &mut Vec<ServiceRow>,
) -> Result<(), OutOfMemory>
    ensures { OnOk result (left.new.items ≡ left.old.items ++ filter (has_left now.now) (rows_of periods.now)) }
{
    let mut rest = now.open_periods.as_slice();
    for period in periods {
        add_period_if_left(alloc, now, period, rest, left)?;
        rest = periods_behind(period.configuration, rest);
    }
    Ok(())
}

/// The services that aren't registered any more in a world, as they were: of those that were registered in the world
/// before, whose direct services and open periods are given.
///
/// # Errors
/// Only want of memory.
pub fn left_between(
    alloc: Global,
    was_rows: &[ServiceRow],
    was_periods: &[OpenPeriod],
    now: &World,
) -> Result<List<ServiceRow>, OutOfMemory>
    ensures { IfOk result (λ rows. (was : World) → was.registry.rows ≡ was_rows.now → was.open_periods ≡ was_periods.now → rows ≡ left_between was now.now) }
{
    let mut left = Vec::new(alloc);
    add_left_of_rows(alloc, now, was_rows, &mut left)?;
    add_left_of_periods(alloc, now, was_periods, &mut left)?;
    Ok(List::of(left))
}

// Whether a service isn't registered and an instance holds it.
fn is_left_held(alloc: Global, now: &World, row: &ServiceRow) -> Result<bool, OutOfMemory>
    ensures { IfOk result (λ b. b ≡ is_left_held now.now row.now) }
{
    if is_registered(now, row.id) {
        return Ok(false);
    }
    is_service_held(alloc, now, row.id)
}

// Adds those of these services that aren't registered and that an instance holds.
fn add_held(
    alloc: Global,
    now: &World,
    rows: &[ServiceRow],
    held: &mut Vec<ServiceRow>,
) -> Result<(), OutOfMemory>
    ensures { OnOk result (held.new.items ≡ held.old.items ++ filter (is_left_held now.now) rows.now) }
{
    for row in rows {
        if is_left_held(alloc, now, row)? {
            held.push(row.copy(alloc)?)?;
        }
    }
    Ok(())
}

/// The services that aren't registered any more in a world and that an instance holds, as they were: of those that were
/// kept so in the world before, and of these, which left since.
///
/// # Errors
/// Only want of memory.
pub fn unregistered_held_between(
    alloc: Global,
    left: &[ServiceRow],
    now: &World,
) -> Result<List<ServiceRow>, OutOfMemory>
    ensures { IfOk result (λ rows. (was : World) → left.now ≡ left_between was now.now → was.unregistered_held ≡ now.now.unregistered_held
        → rows ≡ unregistered_held_between was now.now) }
{
    let mut held = Vec::new(alloc);
    let kept = now.unregistered_held.as_slice();
    add_held(alloc, now, kept, &mut held)?;
    add_held(alloc, now, left, &mut held)?;
    Ok(List::of(held))
}
