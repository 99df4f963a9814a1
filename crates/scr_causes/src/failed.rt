//! How a component configuration failed. The standard leaves open what is told of it.
ghost use Rattle.scr_causes.specs.Standings.{failed_by, failed_standing, failed_with, is_failed_turn, last_failure};
ghost use Rattle.std.specs.Option.{option_copied};
ghost use Rattle.std.specs.Prelude.{◌≡◌, IfOk, find};

use component_causes::Standing;
use component_state::Component;
use prop_map::{Copies, OutOfMemory};
use scr_world::{Failure, TurnLine, World, is_failed};
use std::alloc::Global;

/// The instance whose creation or activation failed last, with how it ended.
///
/// # Errors
/// Only want of memory.
pub(crate) fn failed_standing(
    alloc: Global,
    world: &World,
    turns: &[TurnLine],
    component: &Component,
) -> Result<Option<Standing>, OutOfMemory>
    ensures { IfOk result (λ standing. standing ≡ failed_standing world.now turns.now component.now) }
{
    match last_failure(world.failures.as_slice(), component.number) {
        Some(failure) => failed_by(alloc, turns, failure),
        None => Ok(None),
    }
}

fn last_failure(failures: &[Failure], configuration: u64) -> Option<&Failure>
    ensures { option_copied result ≡ last_failure failures.now configuration }
{
    failures
        .iter()
        .rev()
        .find(|failure| failure.configuration == configuration)
}

fn failed_by(
    alloc: Global,
    turns: &[TurnLine],
    failure: &Failure,
) -> Result<Option<Standing>, OutOfMemory>
    ensures { IfOk result (λ standing. standing ≡ failed_by turns.now failure.now) }
{
    match failed_turn(turns, failure.instance) {
        Some(line) => failed_with(alloc, line),
        None => Ok(None),
    }
}

fn failed_turn(turns: &[TurnLine], instance: u64) -> Option<&TurnLine>
    ensures { option_copied result ≡ find (is_failed_turn instance) turns.now }
{
    turns.iter().find(|line| is_failed_turn(instance, line))
}

fn is_failed_turn(instance: u64, line: &TurnLine) -> bool
    ensures { result ≡ is_failed_turn instance line.now }
{
    line.instance == instance
        && ((line.callback.is_create() || line.callback.is_activate()) && is_failed(line.outcome))
}

fn failed_with(alloc: Global, line: &TurnLine) -> Result<Option<Standing>, OutOfMemory>
    ensures { IfOk result (λ standing. standing ≡ failed_with line.now) }
{
    match line.outcome {
        Some(outcome) => Ok(Some(Standing::Failed {
            instance: line.instance,
            callback: line.callback.copy(alloc)?,
            outcome,
        })),
        None => Ok(None),
    }
}
