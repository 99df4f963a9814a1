//! What happened to services between two worlds, told to listeners (OSGi Core 8, chapter 5, "Service Events"; the order is our
//! own).
ghost use Rattle.scr_consequences.specs.Changes.{HasTold};
ghost use Rattle.scr_world.specs.Levels.{levels_of};
ghost use Rattle.scr_world.specs.Lists.{changes_between, world_of};
ghost use Rattle.scr_world.specs.Steps.{History};
ghost use Rattle.scr_world.specs.Tables.{descriptions_of};
ghost use Rattle.scr_world.specs.declared.world.World.{World};
ghost use Rattle.service_listeners.specs.Listening.{after_changes};
ghost use Rattle.service_listeners.specs.Numbers.{AreNumbered};
ghost use Rattle.service_registry.specs.declared.row.ServiceRow.{ServiceRow};
ghost use Rattle.std.specs.List.{AllPairs};
ghost use Rattle.std.specs.Prelude.{◌≡◌, ◌<◌, OnErr, OnOk};

use crate::component_changes::tell_of_components;
use crate::direct_changes::{tell_of_new, tell_of_old};
use component_dto::Description;
use component_state::OpenPeriod;
use prop_map::OutOfMemory;
use scr_world::World;
use service_listeners::Listeners;
use service_registry::ServiceRow;
use std::alloc::Global;

// Tells of all services: direct ones first, by number, then those of component configurations.
#[tactic(auto, using(crate::proofs::TellingLemmas::told_none, crate::proofs::AllChanges::same_length))]
fn tell_all(
    alloc: Global,
    listeners: &mut Listeners,
    was_rows: &[ServiceRow],
    was_periods: &[OpenPeriod],
    now: &World,
    descriptions: &[Description],
    levels: &[u32],
) -> Result<(), OutOfMemory>
    requires rising { AllPairs (λ (a b : ServiceRow). a.id < b.id) was_rows.now }
    requires descriptions { descriptions.now ≡ descriptions_of now.now.documents }
    requires levels { levels.now ≡ levels_of descriptions.now }
    ensures ok { OnOk result ((was : World) → was.registry.rows ≡ was_rows.now → was.open_periods ≡ was_periods.now
        → listeners.new ≡ after_changes (changes_between was now.now) listeners.old) }
    ensures told { HasTold listeners.old listeners.new }
{
    tell_of_old(alloc, listeners, was_rows, &now.registry)?;
    tell_of_new(alloc, listeners, was_rows, now.registry.rows())?;
    tell_of_components(
        alloc,
        listeners,
        now.components.as_slice(),
        was_periods,
        now.open_periods.as_slice(),
        descriptions,
        levels,
    )
}

/// Tells listeners what happened to services between a world before, whose direct services and open periods are given, and this
/// one: direct services first, by number, then those of component configurations in the order of a pass. The descriptions of
/// the world's documents and their levels are the caller's.
///
/// # Errors
/// Only want of memory. No listener was told then.
pub fn tell_changes(
    alloc: Global,
    listeners: &mut Listeners,
    was_rows: &[ServiceRow],
    was_periods: &[OpenPeriod],
    now: &World,
    descriptions: &[Description],
    levels: &[u32],
) -> Result<(), OutOfMemory>
    requires numbered { AreNumbered listeners.old.numbered listeners.old.rows }
    requires rising { AllPairs (λ (a b : ServiceRow). a.id < b.id) was_rows.now }
    requires descriptions { descriptions.now ≡ descriptions_of now.now.documents }
    requires levels { levels.now ≡ levels_of descriptions.now }
    ensures ok { OnOk result ((was : World) → was.registry.rows ≡ was_rows.now → was.open_periods ≡ was_periods.now
        → listeners.new ≡ after_changes (changes_between was now.now) listeners.old) }
    ensures err { OnErr result (listeners.new ≡ listeners.old) }
{
    let saved = listeners.save(alloc)?;
    match tell_all(
        alloc,
        listeners,
        was_rows,
        was_periods,
        now,
        descriptions,
        levels,
    ) {
        Ok(()) => Ok(()),
        Err(fault) => {
            listeners.go_back(saved);
            Err(fault)
        }
    }
}

/// For contracts alone: the listeners of the world of every journal have rising numbers that were given, as `tell_changes` asks.
pub fn note_listeners()
    ensures { (history : History) → AreNumbered (world_of history).listeners.numbered (world_of history).listeners.rows }
{}
