//! Creations and activations that end by a step (OSGi Compendium 8, chapter 112, "Activation").
ghost use Rattle.scr_consequences.specs.Ends.{ends_making};
ghost use Rattle.scr_world.specs.Stepping.{ending_in, failing, failure_of, failures_by};
ghost use Rattle.scr_world.specs.declared.instance.Instance.{Instance};
ghost use Rattle.std.specs.Prelude.{◌≡◌, IfOk, filter, map};

use callback_orders::Outcome;
use component_state::{OpenPeriod, is_current};
use prop_map::{List, OutOfMemory};
use scr_world::{Failure, Instance, Step, World, is_failed, last_is_activate, last_is_create};
use std::alloc::Global;

// A turn ends the creation or activation of an instance, and the period is open in which it was made.
fn ends_making(open_now: &[OpenPeriod], turn: u64, instance: &Instance) -> bool
    ensures { result ≡ ends_making open_now.now turn instance.now }
{
    instance.has_turn(turn)
        && ((last_is_create(&instance.callbacks) || last_is_activate(&instance.callbacks))
            && is_current(open_now, instance.origin.get()))
}

/// The instances whose creation or activation ends by a turn, while the period is open in which they were made.
///
/// # Errors
/// Only want of memory.
pub fn ending_in(alloc: Global, world: &World, turn: u64) -> Result<Vec<&Instance>, OutOfMemory>
    ensures { IfOk result (λ v. map (λ i. i.now) v.items ≡ ending_in turn world.now) }
{
    let open_now = world.open_periods.as_slice();
    let instances = world.instances.as_slice();
    instances
        .iter()
        .filter(|instance| ends_making(open_now, turn, instance))
        .collect(alloc)
}

fn configurations_ending(
    alloc: Global,
    open_now: &[OpenPeriod],
    instances: &[Instance],
    turn: u64,
) -> Result<List<u64>, OutOfMemory>
    ensures { IfOk result (λ numbers. numbers ≡ map (λ (i : Instance). i.origin.configuration) (filter (ends_making open_now.now turn) instances.now)) }
{
    let mut found = Vec::new(alloc);
    for instance in instances {
        if ends_making(open_now, turn, instance) {
            found.push(instance.origin.get().configuration)?;
        }
    }
    Ok(List::of(found))
}

/// The component configurations whose creation or activation a step ends without success.
///
/// # Errors
/// Only want of memory.
pub fn failing_of(alloc: Global, world: &World, step: &Step) -> Result<List<u64>, OutOfMemory>
    ensures { IfOk result (λ numbers. numbers ≡ failing step.now world.now) }
{
    match step {
        Step::End { turn, outcome } => failing_by_end(alloc, world, *turn, *outcome),
        _ => Ok(List::of(Vec::new(alloc))),
    }
}

fn failing_by_end(
    alloc: Global,
    world: &World,
    turn: u64,
    outcome: Outcome,
) -> Result<List<u64>, OutOfMemory>
    ensures { IfOk result (λ numbers. numbers ≡ failing (Step.End turn outcome) world.now) }
{
    if !is_failed(Some(outcome)) {
        return Ok(List::of(Vec::new(alloc)));
    }
    configurations_ending(
        alloc,
        world.open_periods.as_slice(),
        world.instances.as_slice(),
        turn,
    )
}

// What is remembered of it.
fn failure_of(outcome: Outcome, instance: &Instance) -> Failure
    ensures { result ≡ failure_of outcome instance.now }
{
    Failure {
        configuration: instance.origin.get().configuration,
        service: instance.service,
        instance: instance.number,
        outcome,
    }
}

fn failures_ending(
    alloc: Global,
    open_now: &[OpenPeriod],
    instances: &[Instance],
    turn: u64,
    outcome: Outcome,
) -> Result<List<Failure>, OutOfMemory>
    ensures { IfOk result (λ failures. failures ≡ map (failure_of outcome) (filter (ends_making open_now.now turn) instances.now)) }
{
    let mut found = Vec::new(alloc);
    for instance in instances {
        if ends_making(open_now, turn, instance) {
            found.push(failure_of(outcome, instance))?;
        }
    }
    Ok(List::of(found))
}

/// What is remembered of the creations and activations that a step ends without success.
///
/// # Errors
/// Only want of memory.
pub fn failures_of(alloc: Global, world: &World, step: &Step) -> Result<List<Failure>, OutOfMemory>
    ensures { IfOk result (λ failures. failures ≡ failures_by step.now world.now) }
{
    match step {
        Step::End { turn, outcome } => failures_by_end(alloc, world, *turn, *outcome),
        _ => Ok(List::of(Vec::new(alloc))),
    }
}

fn failures_by_end(
    alloc: Global,
    world: &World,
    turn: u64,
    outcome: Outcome,
) -> Result<List<Failure>, OutOfMemory>
    ensures { IfOk result (λ failures. failures ≡ failures_by (Step.End turn outcome) world.now) }
{
    if !is_failed(Some(outcome)) {
        return Ok(List::of(Vec::new(alloc)));
    }
    failures_ending(
        alloc,
        world.open_periods.as_slice(),
        world.instances.as_slice(),
        turn,
        outcome,
    )
}
