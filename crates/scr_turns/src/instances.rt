//! The living instances after a step of a turn (OSGi Compendium 8, chapter 112, "Component Life Cycle").
ghost use Rattle.scr_state.specs.Rows.{HasRoomAmong, with_change};
ghost use Rattle.scr_turns.specs.TurnDrafts.{AreInstanceChanges, AreKnown, HaveOwnNumbers};
ghost use Rattle.scr_world.specs.Instances.{begun_by, created_at, drained_in, ended_in, has_turn, lives_on, with_callback_begun};
ghost use Rattle.scr_world.specs.Stepping.{before_turn, instances_by, whiteboard_by};
ghost use Rattle.scr_world.specs.TurnSteps.{is_turn_step};
ghost use Rattle.scr_world.specs.declared.instance.Instance.{Instance};
ghost use Rattle.std.specs.List.{position};
ghost use Rattle.std.specs.Option.{unwrap_or};
ghost use Rattle.std.specs.Prelude.{◌≡◌, ◌==◌, ◌≤◌, ◌++◌, ◌∷◌, [], IfOk, filter, length, map, true};

use crate::begins::told_in;
use crate::both::both;
use crate::creations::created;
use crate::ends::with_outcome;
use callback_orders::{Callback, Outcome};
use component_state::Choice;
use prop_map::{Copies, List, OutOfMemory};
use scr_state::RowChange;
use scr_world::{Instance, Step, World};
use std::alloc::Global;

/// What a step of a turn makes of the living instances, and of the whiteboard's.
#[derive(Drop)]
pub(crate) struct InstanceChanges {
    pub(crate) instances: RowChange<Instance>,
    pub(crate) whiteboard: Option<Instance>,
}

/// What a step of a turn makes of the living instances, and of the whiteboard's.
///
/// # Errors
/// Only want of memory.
pub(crate) fn instance_changes(
    alloc: Global,
    world: &World,
    step: &Step,
) -> Result<InstanceChanges, OutOfMemory>
    requires turn { is_turn_step step.now ≡ true }
    requires known { AreKnown world.now }
    ensures { IfOk result (λ changes. AreInstanceChanges step.now world.now changes) }
{
    let instances = instances_after(alloc, world, step);
    let whiteboard = whiteboard_after(alloc, world, step);
    let (instances, whiteboard) = both(instances, whiteboard)?;
    Ok(InstanceChanges {
        instances,
        whiteboard,
    })
}

// What a step of a turn makes of the living instances.
fn instances_after(
    alloc: Global,
    world: &World,
    step: &Step,
) -> Result<RowChange<Instance>, OutOfMemory>
    requires turn { is_turn_step step.now ≡ true }
    requires known { AreKnown world.now }
    ensures rows { IfOk result (λ r. with_change r world.now.instances ≡ instances_by step.now world.now) }
    ensures room { IfOk result (λ r. HasRoomAmong r world.now.instances) }
{
    match step {
        Step::Begin {
            turn,
            instance,
            configuration,
            consumer,
            callback,
            chosen,
        } => {
            if callback.is_create() {
                added(
                    alloc,
                    world,
                    *turn,
                    *instance,
                    *configuration,
                    *consumer,
                    chosen,
                )
            } else {
                told(alloc, world, *turn, *instance, callback)
            }
        }
        Step::End { turn, outcome } => ended(alloc, world, *turn, *outcome),
        Step::Drained { instance } => drained(alloc, world.instances.as_slice(), *instance),
        Step::Command(_) | Step::Got { .. } | Step::Released { .. } => Ok(RowChange::Same),
    }
}

// One is made.
fn added(
    alloc: Global,
    world: &World,
    turn: u64,
    instance: u64,
    configuration: u64,
    consumer: u64,
    chosen: &List<Choice>,
) -> Result<RowChange<Instance>, OutOfMemory>
    requires { length world.now.instances ≤ 66048 }
    ensures rows { IfOk result (λ r. with_change r world.now.instances ≡ world.now.instances ++ created_at (before_turn world.now) turn instance configuration consumer chosen.now ∷ []) }
    ensures room { IfOk result (λ r. HasRoomAmong r world.now.instances) }
{
    let new = created(
        alloc,
        world,
        turn,
        instance,
        configuration,
        consumer,
        chosen,
    )?;
    let change = RowChange::behind(alloc, world.instances.as_slice(), new)?;
    Ok(change)
}

// The place of the instance of a number.
fn place_of(instances: &[Instance], number: u64) -> Option<usize>
    ensures { result ≡ position (λ (i : Instance). i.number == number) instances.now }
{
    instances
        .iter()
        .position(|instance| instance.number == number)
}

// One is told of a callback.
fn told(
    alloc: Global,
    world: &World,
    turn: u64,
    number: u64,
    callback: &Callback,
) -> Result<RowChange<Instance>, OutOfMemory>
    requires { AreKnown world.now }
    ensures rows { IfOk result (λ r. with_change r world.now.instances ≡ map (with_callback_begun (before_turn world.now) turn number callback.now) world.now.instances) }
    ensures room { IfOk result (λ r. HasRoomAmong r world.now.instances) }
{
    let instances = world.instances.as_slice();
    match place_of(instances, number) {
        None => Ok(RowChange::Same),
        Some(place) => {
            let instance = told_in(alloc, world, turn, callback, &instances[place])?;
            Ok(RowChange::One {
                place,
                row: instance,
            })
        }
    }
}

// The place of the instance that a turn under way tells.
fn place_by(instances: &[Instance], turn: u64) -> Option<usize>
    ensures { result ≡ position (has_turn turn) instances.now }
{
    instances
        .iter()
        .position(|instance| instance.has_turn(turn))
}

// The turn of one ends.
fn ended(
    alloc: Global,
    world: &World,
    turn: u64,
    outcome: Outcome,
) -> Result<RowChange<Instance>, OutOfMemory>
    requires { AreKnown world.now }
    ensures rows { IfOk result (λ r. with_change r world.now.instances ≡ filter lives_on (map (ended_in turn outcome world.now.generations) world.now.instances)) }
    ensures room { IfOk result (λ r. HasRoomAmong r world.now.instances) }
{
    let instances = world.instances.as_slice();
    let generations = world.generations.as_slice();
    match place_by(instances, turn) {
        None => Ok(RowChange::Same),
        Some(place) => {
            let instance = with_outcome(alloc, generations, outcome, &instances[place])?;
            if lives_on(&instance) {
                Ok(RowChange::One {
                    place,
                    row: instance,
                })
            } else {
                let change = RowChange::without(alloc, instances, place)?;
                Ok(change)
            }
        }
    }
}

fn lives_on(instance: &Instance) -> bool
    ensures { result ≡ lives_on instance.now }
{
    instance.callbacks.is_living()
}

// The drain of one is posted.
fn drained(
    alloc: Global,
    instances: &[Instance],
    number: u64,
) -> Result<RowChange<Instance>, OutOfMemory>
    requires { HaveOwnNumbers instances.now }
    ensures rows { IfOk result (λ r. with_change r instances.now ≡ map (drained_in number) instances.now) }
    ensures room { IfOk result (λ r. HasRoomAmong r instances.now) }
{
    match place_of(instances, number) {
        None => Ok(RowChange::Same),
        Some(place) => {
            let mut instance = instances[place].copy(alloc)?;
            instance.drained = true;
            Ok(RowChange::One {
                place,
                row: instance,
            })
        }
    }
}

// The whiteboard's instance after a step of a turn, none where it stays as it is.
fn whiteboard_after(
    alloc: Global,
    world: &World,
    step: &Step,
) -> Result<Option<Instance>, OutOfMemory>
    requires known { AreKnown world.now }
    ensures { IfOk result (λ r. unwrap_or r world.now.whiteboard ≡ whiteboard_by step.now world.now) }
{
    let whiteboard = &world.whiteboard;
    match step {
        Step::Begin {
            turn,
            instance,
            callback,
            ..
        } if whiteboard.number == *instance => {
            let told = told_in(alloc, world, *turn, callback, whiteboard)?;
            Ok(Some(told))
        }
        Step::End { turn, outcome } if whiteboard.has_turn(*turn) => {
            let generations = world.generations.as_slice();
            let told = with_outcome(alloc, generations, *outcome, whiteboard)?;
            Ok(Some(told))
        }
        _ => Ok(None),
    }
}
