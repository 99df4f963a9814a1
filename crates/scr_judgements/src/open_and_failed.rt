//! What a command makes of the open periods and of the failed component configurations, where the component configurations
//! after it are known (OSGi Compendium 8, chapter 112, "Service Properties"; what is failed is our own).
ghost use Rattle.component_state.specs.Components.{is_changed_at};
ghost use Rattle.prop_map.specs.Words.{has};
ghost use Rattle.scr_judgements.specs.Asked.{IsOfLegal, is_command};
ghost use Rattle.scr_world.specs.Stepping.{components_by, failed_by, periods_with};
ghost use Rattle.scr_world.specs.Worlds.{satisfied_in};
ghost use Rattle.std.specs.List.{list_any};
ghost use Rattle.std.specs.Prelude.{◌≡◌, ℕ, IfOk, true};

use component_state::{Component, OpenPeriod, failed_after, with_present_properties};
use prop_map::{Copies, List, OutOfMemory};
use scr_world::{Step, World};
use std::alloc::Global;

/// What was open before a command, with the properties that its component configurations have after it.
///
/// # Errors
/// Only want of memory. That a service's revision is too high counts as such.
#[tactic(auto, using(crate::proofs::Commands::command_periods))]
pub fn periods_with_command(
    alloc: Global,
    world: &World,
    step: &Step,
    components: &[Component],
) -> Result<List<OpenPeriod>, OutOfMemory>
    requires command { is_command step.now ≡ true }
    ensures { IfOk result (λ after. after ≡ periods_with step.now components.now world.now.open_periods) }
{
    with_present_properties(alloc, components, world.open_periods.as_slice())
}

/// The same where the component configurations are those after it: what is open stays where the command changed the properties of
/// none.
///
/// # Errors
/// As those of `periods_with_command`.
#[tactic(auto, using(crate::proofs::Unchanged::periods_last))]
pub(crate) fn periods_asked(
    alloc: Global,
    world: &World,
    step: &Step,
    components: &[Component],
) -> Result<List<OpenPeriod>, OutOfMemory>
    requires command { is_command step.now ≡ true }
    requires legal { IsOfLegal world.now }
    requires components { components.now ≡ components_by step.now world.now }
    ensures { IfOk result (λ after. after ≡ periods_with step.now components.now world.now.open_periods) }
{
    if changes_some(world.entries, components) {
        periods_with_command(alloc, world, step, components)
    } else {
        world.open_periods.copy(alloc)
    }
}

// Whether the entry at a place changed the properties of some.
fn changes_some(place: u64, components: &[Component]) -> bool
    ensures { result ≡ list_any (is_changed_at place) components.now }
{
    components
        .iter()
        .any(|component| is_changed_at(place, component))
}

fn is_changed_at(place: u64, component: &Component) -> bool
    ensures { result ≡ is_changed_at place component.now }
{
    match component.changed {
        Some(changed) => changed == place,
        None => false,
    }
}

/// The numbers of the component configurations that are failed after a command, where `satisfied` has those that were
/// satisfied before it, in any order.
///
/// # Errors
/// Only want of memory.
#[tactic(auto, using(crate::proofs::Commands::command_failed))]
pub fn failed_by_command(
    alloc: Global,
    world: &World,
    satisfied: &[u64],
    step: &Step,
    components: &[Component],
) -> Result<List<u64>, OutOfMemory>
    requires command { is_command step.now ≡ true }
    requires satisfied { (number : ℕ) → has satisfied.now number ≡ has (satisfied_in world.now) number }
    requires components { components.now ≡ components_by step.now world.now }
    ensures { IfOk result (λ failed. failed ≡ failed_by step.now world.now) }
{
    let failed = failed_after(
        alloc,
        world.entries,
        satisfied,
        components,
        &[],
        world.failed.as_slice(),
    )?;
    Ok(List::of(failed))
}
