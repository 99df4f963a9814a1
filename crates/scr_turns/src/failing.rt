//! What a step of a turn makes of the failed component configurations and of the failures (OSGi Compendium 8, chapter 112,
//! "Activation").
ghost use Rattle.prop_map.specs.Words.{has};
ghost use Rattle.scr_state.specs.Rows.{HasRoomAmong, with_change};
ghost use Rattle.scr_turns.specs.TurnDrafts.{AreFailureChanges, AreKnown};
ghost use Rattle.scr_world.specs.Stepping.{failed_by, failures_by};
ghost use Rattle.scr_world.specs.TurnSteps.{is_turn_step};
ghost use Rattle.scr_world.specs.Worlds.{satisfied_in};
ghost use Rattle.std.specs.Option.{option_to_list};
ghost use Rattle.std.specs.Prelude.{◌≡◌, ◌++◌, ℕ, IfOk, true};

use crate::both::both;
use component_state::failed_after;
use prop_map::{List, OutOfMemory};
use scr_consequences::{failing_of, failures_of};
use scr_state::{RowChange, State};
use scr_world::{Failure, Step, World};
use std::alloc::Global;

/// What a step of a turn makes of the failed component configurations, and of the failures.
#[derive(Drop)]
pub(crate) struct FailureChanges {
    pub(crate) failed: List<u64>,
    pub(crate) failures: RowChange<Failure>,
}

/// What a step of a turn makes of the failed component configurations, and of the failures.
///
/// # Errors
/// Only want of memory.
pub(crate) fn failure_changes(
    alloc: Global,
    state: &State,
    step: &Step,
) -> Result<FailureChanges, OutOfMemory>
    requires turn { is_turn_step step.now ≡ true }
    requires known { AreKnown state.now.world }
    requires satisfied { (number : ℕ) → has state.now.satisfied number ≡ has (satisfied_in state.now.world) number }
    ensures { IfOk result (λ changes. AreFailureChanges step.now state.now.world changes) }
{
    let failed = failed_by(alloc, state, step);
    let failures = failures_after(alloc, &state.world, step);
    let (failed, failures) = both(failed, failures)?;
    Ok(FailureChanges { failed, failures })
}

fn failed_by(alloc: Global, state: &State, step: &Step) -> Result<List<u64>, OutOfMemory>
    requires turn { is_turn_step step.now ≡ true }
    requires satisfied { (number : ℕ) → has state.now.satisfied number ≡ has (satisfied_in state.now.world) number }
    ensures { IfOk result (λ v. v ≡ failed_by step.now state.now.world) }
{
    let world = &state.world;
    let failing = failing_of(alloc, world, step)?;
    let failed = failed_after(
        alloc,
        world.entries,
        state.satisfied.as_slice(),
        world.components.as_slice(),
        failing.as_slice(),
        world.failed.as_slice(),
    )?;
    Ok(List::of(failed))
}

// What a step makes of the failures.
fn failures_after(
    alloc: Global,
    world: &World,
    step: &Step,
) -> Result<RowChange<Failure>, OutOfMemory>
    requires known { AreKnown world.now }
    ensures rows { IfOk result (λ r. with_change r world.now.failures ≡ world.now.failures ++ failures_by step.now world.now) }
    ensures room { IfOk result (λ r. HasRoomAmong r world.now.failures) }
{
    match failure_of(alloc, world, step)? {
        Some(failure) => {
            let change = RowChange::behind(alloc, world.failures.as_slice(), failure)?;
            Ok(change)
        }
        None => Ok(RowChange::Same),
    }
}

// The failure that a step adds. It adds one at most, since one instance at most has the turn that it ends.
fn failure_of(alloc: Global, world: &World, step: &Step) -> Result<Option<Failure>, OutOfMemory>
    requires known { AreKnown world.now }
    ensures { IfOk result (λ failure. option_to_list failure ≡ failures_by step.now world.now) }
{
    let mut failures = failures_of(alloc, world, step)?.items();
    match failures.pop() {
        Some(failure) => Ok(Some(failure)),
        None => Ok(None),
    }
}
