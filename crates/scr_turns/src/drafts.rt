//! The draft of a step of a turn.
ghost use Rattle.prop_map.specs.Words.{has};
ghost use Rattle.scr_state.specs.Keeps.{IsDraft, IsKept};
ghost use Rattle.scr_turns.specs.TurnDrafts.{AreKnown, IsTurnChange, draft_with};
ghost use Rattle.scr_world.specs.TurnSteps.{is_turn_step};
ghost use Rattle.scr_world.specs.Worlds.{satisfied_in};
ghost use Rattle.std.specs.Prelude.{◌≡◌, ℕ, IfOk, true};

use crate::both::both;
use crate::failing::{FailureChanges, failure_changes};
use crate::gets::{GetChanges, get_changes};
use crate::instances::{InstanceChanges, instance_changes};
use crate::numbers::{NumberChanges, number_changes};
use prop_map::OutOfMemory;
use scr_state::{Draft, State};
use scr_world::{Step, World};
use std::alloc::Global;

/// What a step of a turn makes of a state: of a turn that begins or ends, a drain, a get by token or its release.
///
/// # Errors
/// Only want of memory. That a count of uses is too high counts as such.
pub fn turn_draft(alloc: Global, state: &State, step: &Step) -> Result<Draft, OutOfMemory>
    requires turn { is_turn_step step.now ≡ true }
    requires kept { IsKept state.now }
    ensures { IfOk result (λ draft. IsDraft state.now step.now draft) }
{
    let changes = changes(alloc, state, step)?;
    Ok(draft_with(&state.world, changes))
}

// What a step of a turn can change.
#[derive(Drop)]
pub(crate) struct TurnChanges {
    pub(crate) failing: FailureChanges,
    pub(crate) living: InstanceChanges,
    pub(crate) numbers: NumberChanges,
    pub(crate) gets: GetChanges,
}

fn changes(alloc: Global, state: &State, step: &Step) -> Result<TurnChanges, OutOfMemory>
    requires turn { is_turn_step step.now ≡ true }
    requires known { AreKnown state.now.world }
    requires satisfied { (number : ℕ) → has state.now.satisfied number ≡ has (satisfied_in state.now.world) number }
    ensures { IfOk result (λ changes. IsTurnChange step.now state.now.world changes) }
{
    let world = &state.world;
    let failing = failure_changes(alloc, state, step);
    let living = instance_changes(alloc, world, step);
    let numbers = number_changes(alloc, world, step);
    let gets = get_changes(alloc, world, step);
    let ((failing, living), (numbers, gets)) = both(both(failing, living), both(numbers, gets))?;
    Ok(TurnChanges {
        failing,
        living,
        numbers,
        gets,
    })
}

#[tactic(auto, unfolding(crate::specs::TurnDrafts::draft_with))]
fn draft_with(world: &World, changes: TurnChanges) -> Draft
    ensures { result ≡ draft_with changes world.now }
{
    let TurnChanges {
        failing,
        living,
        numbers,
        gets,
    } = changes;
    let FailureChanges { failed, failures } = failing;
    let InstanceChanges {
        instances,
        whiteboard,
    } = living;
    let NumberChanges {
        instances_numbered,
        turns_begun,
        generations,
    } = numbers;
    let GetChanges { uses, tokens } = gets;
    Draft {
        documents: None,
        registry: None,
        configurations: None,
        components: None,
        components_numbered: world.components_numbered,
        open_periods: None,
        failed,
        failures,
        instances,
        whiteboard,
        instances_numbered,
        turns_begun,
        generations,
        uses,
        tokens,
        descriptions: None,
        levels: None,
    }
}
