//! What a step of a turn makes of the numbers that are given out, and of the counts of the gates (our own).
ghost use Rattle.scr_state.specs.Rows.{HasRoomAmong, with_change};
ghost use Rattle.scr_turns.specs.TurnDrafts.{AreKnown, AreNumberChanges};
ghost use Rattle.scr_world.specs.Instances.{becomes_active, has_turn};
ghost use Rattle.scr_world.specs.Stepping.{begins_by, generations_by, makes_by};
ghost use Rattle.scr_world.specs.declared.instance.Instance.{Instance};
ghost use Rattle.std.specs.Option.{option_copied};
ghost use Rattle.std.specs.Prelude.{◌≡◌, ◌≤◌, ◌&&◌, IfOk, find};

use crate::slots::{first_free_slot, reopened_for, with_room_for};
use callback_orders::Outcome;
use prop_map::OutOfMemory;
use scr_consequences::opens_gate;
use scr_state::RowChange;
use scr_world::{Instance, Step, World};
use std::alloc::Global;

/// What a step of a turn makes of the numbers that are given out, and of the counts of the gates.
#[derive(Drop)]
pub(crate) struct NumberChanges {
    pub(crate) instances_numbered: u64,
    pub(crate) turns_begun: u64,
    pub(crate) generations: RowChange<u64>,
}

/// What a step of a turn makes of the numbers that are given out, and of the counts of the gates.
///
/// # Errors
/// Only want of memory.
pub(crate) fn number_changes(
    alloc: Global,
    world: &World,
    step: &Step,
) -> Result<NumberChanges, OutOfMemory>
    requires { AreKnown world.now }
    ensures { IfOk result (λ changes. AreNumberChanges step.now world.now changes) }
{
    // This lets the proof know that the entries have a number of 64 bits, and so has each turn.
    let _entries = world.entries;
    let instances_numbered = world.instances_numbered + makes_by(step);
    let turns_begun = world.turns_begun + begins_by(step);
    let generations = generations_after(alloc, world, step)?;
    Ok(NumberChanges {
        instances_numbered,
        turns_begun,
        generations,
    })
}

fn makes_by(step: &Step) -> u64
    ensures value { result ≡ makes_by step.now }
    ensures small { result ≤ 1 }
{
    match step {
        Step::Begin { callback, .. } if callback.is_create() => 1,
        _ => 0,
    }
}

fn begins_by(step: &Step) -> u64
    ensures value { result ≡ begins_by step.now }
    ensures small { result ≤ 1 }
{
    match step {
        Step::Begin { .. } => 1,
        _ => 0,
    }
}

fn generations_after(
    alloc: Global,
    world: &World,
    step: &Step,
) -> Result<RowChange<u64>, OutOfMemory>
    requires { AreKnown world.now }
    ensures rows { IfOk result (λ r. with_change r world.now.generations ≡ generations_by step.now world.now) }
    ensures room { IfOk result (λ r. HasRoomAmong r world.now.generations) }
{
    let generations = world.generations.as_slice();
    let instances = world.instances.as_slice();
    match step {
        Step::Begin { callback, .. } if callback.is_create() => {
            with_room_for(alloc, generations, first_free_slot(instances))
        }
        Step::End { turn, outcome } => {
            let reopened = reopening(instances, *turn, *outcome);
            Ok(reopened_for(generations, reopened))
        }
        _ => Ok(RowChange::Same),
    }
}

// The instance that becomes active by the end of a turn.
fn reopening(instances: &[Instance], turn: u64, outcome: Outcome) -> Option<&Instance>
    ensures { option_copied result ≡ find (λ (i : Instance). has_turn turn i && becomes_active outcome i) instances.now }
{
    instances
        .iter()
        .find(|instance| opens_gate(turn, outcome, instance))
}
