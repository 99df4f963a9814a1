//! What listeners are told of direct services (OSGi Core 8, chapter 5, "Service Events"; the order is our own).
ghost use Rattle.scr_consequences.specs.Changes.{HasTold, IsOwn, change_from, change_of_new};
ghost use Rattle.prop_map.specs.Words.{has};
ghost use Rattle.service_listeners.specs.Listening.{after_changes};
ghost use Rattle.service_registry.specs.Services.{ids};
ghost use Rattle.service_registry.specs.declared.row.ServiceRow.{ServiceRow};
ghost use Rattle.std.specs.List.{All, AllPairs, flat_map};
ghost use Rattle.std.specs.Prelude.{◌≡◌, ◌<◌, OnOk};

use crate::change_events::{tell, tell_between};
use crate::moved_rows::{row_stays, rows_behind};
use prop_map::OutOfMemory;
use service_listeners::Listeners;
use service_registry::{Registry, ServiceRow};
use std::alloc::Global;

// Tells of a direct service that was registered: what it is now. One that stands first in the rest of those that are
// is as it was.
#[tactic(auto, using(crate::proofs::TellingLemmas::after_none_back, crate::proofs::TellingLemmas::told_none))]
fn tell_if_moved(
    alloc: Global,
    listeners: &mut Listeners,
    row: &ServiceRow,
    rest: &[ServiceRow],
    now: &Registry,
) -> Result<(), OutOfMemory>
    requires { All (IsOwn now.now.rows) rest.now }
    ensures ok { OnOk result (listeners.new ≡ after_changes (change_from now.now.rows row.now) listeners.old) }
    ensures told { HasTold listeners.old listeners.new }
{
    if row_stays(row, rest) {
        return Ok(());
    }
    tell_between(alloc, listeners, Some(row), now.row(row.id))
}

// Tells of the direct services that were registered: what each is now.
pub(crate) fn tell_of_old(
    alloc: Global,
    listeners: &mut Listeners,
    was_rows: &[ServiceRow],
    now: &Registry,
) -> Result<(), OutOfMemory>
    ensures ok { OnOk result (listeners.new ≡ after_changes (flat_map (change_from now.now.rows) was_rows.now) listeners.old) }
    ensures told { HasTold listeners.old listeners.new }
{
    let mut rest = now.rows();
    for row in was_rows {
        tell_if_moved(alloc, listeners, row, rest, now)?;
        rest = rows_behind(row.id, rest);
    }
    Ok(())
}

// Whether a service stands among those of a table. It is found by halving.
fn stands_among(rows: &[ServiceRow], service: u64) -> bool
    requires { AllPairs (λ (a b : ServiceRow). a.id < b.id) rows.now }
    ensures { result ≡ has (ids rows.now) service }
{
    rows.binary_search_by(|row| row.id.cmp(&service)).is_ok()
}

// Tells of a direct service that is registered, unless it was.
#[tactic(auto, using(crate::proofs::TellingLemmas::after_none_back, crate::proofs::TellingLemmas::told_none))]
fn tell_if_new(
    alloc: Global,
    listeners: &mut Listeners,
    was_rows: &[ServiceRow],
    row: &ServiceRow,
) -> Result<(), OutOfMemory>
    requires { AllPairs (λ (a b : ServiceRow). a.id < b.id) was_rows.now }
    ensures ok { OnOk result (listeners.new ≡ after_changes (change_of_new (ids was_rows.now) row.now) listeners.old) }
    ensures told { HasTold listeners.old listeners.new }
{
    if stands_among(was_rows, row.id) {
        return Ok(());
    }
    tell(alloc, listeners, None, Some(row))
}

// The services of a list that stand behind those of another one: of each other one nothing is told as of a new one.
fn behind_all<'a>(was_rows: &[ServiceRow], now_rows: &'a [ServiceRow]) -> &'a [ServiceRow]
    ensures { flat_map (change_of_new (ids was_rows.now)) result.now ≡ flat_map (change_of_new (ids was_rows.now)) now_rows.now }
{
    let mut rest = now_rows;
    for row in was_rows {
        rest = rows_behind(row.id, rest);
    }
    rest
}

// Tells of each of these direct services, unless it was registered.
fn tell_of_each(
    alloc: Global,
    listeners: &mut Listeners,
    was_rows: &[ServiceRow],
    rows: &[ServiceRow],
) -> Result<(), OutOfMemory>
    requires { AllPairs (λ (a b : ServiceRow). a.id < b.id) was_rows.now }
    ensures ok { OnOk result (listeners.new ≡ after_changes (flat_map (change_of_new (ids was_rows.now)) rows.now) listeners.old) }
    ensures told { HasTold listeners.old listeners.new }
{
    for row in rows {
        tell_if_new(alloc, listeners, was_rows, row)?;
    }
    Ok(())
}

// Tells of the direct services that are registered and weren't.
pub(crate) fn tell_of_new(
    alloc: Global,
    listeners: &mut Listeners,
    was_rows: &[ServiceRow],
    now_rows: &[ServiceRow],
) -> Result<(), OutOfMemory>
    requires { AllPairs (λ (a b : ServiceRow). a.id < b.id) was_rows.now }
    ensures ok { OnOk result (listeners.new ≡ after_changes (flat_map (change_of_new (ids was_rows.now)) now_rows.now) listeners.old) }
    ensures told { HasTold listeners.old listeners.new }
{
    tell_of_each(alloc, listeners, was_rows, behind_all(was_rows, now_rows))
}
