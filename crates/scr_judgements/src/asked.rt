//! All that a command makes of the component configurations and of what hangs on them.
ghost use Rattle.component_state.specs.ComponentConfigurations.{component_configurations};
ghost use Rattle.prop_map.specs.Words.{has};
ghost use Rattle.scr_judgements.specs.Asked.{IsAskedAfter, IsOfLegal, is_command};
ghost use Rattle.scr_judgements.specs.Lasting.{AsksAsBefore};
ghost use Rattle.scr_laws.specs.Askeds.{IsAsked};
ghost use Rattle.scr_world.specs.Stepping.{component_configurations_by, components_added_by, components_by, counted_components};
ghost use Rattle.scr_world.specs.Worlds.{satisfied_in};
ghost use Rattle.std.specs.Prelude.{◌≡◌, ◌+◌, ◌-◌, ◌^◌, ◌<◌, ◌≤◌, ℕ, IfOk, map, true};

use crate::counted::{copied, counted_components};
use crate::open_and_failed::{failed_by_command, periods_asked};
use component_state::{
    BundleView, Component, OpenPeriod, components_after, components_for_bundles,
};
use config_admin::Configuration;
use prop_map::{List, OutOfMemory};
use scr_world::{Step, World};
use std::alloc::Global;

/// What a command makes of the component configurations and of what hangs on them.
#[derive(Drop)]
pub struct Asked {
    /// The component configurations, by number.
    pub components: List<Component>,
    /// How many of these were numbered so far.
    pub components_numbered: u64,
    /// What was open before, with the properties that it has then.
    pub open_periods: List<OpenPeriod>,
    /// The numbers of the failed component configurations.
    pub failed: List<u64>,
}

/// What a command makes of the component configurations, where the bundles and configurations ask for those that the tables
/// ask for after it, and `satisfied` has those that were satisfied before it, in any order.
///
/// # Errors
/// Only want of memory.
pub(crate) fn asked_for_bundles<'w>(
    alloc: Global,
    world: &World,
    satisfied: &[u64],
    step: &Step,
    bundles: &[BundleView<'w>],
    configurations: &'w [Configuration],
) -> Result<Asked, OutOfMemory>
    requires command { is_command step.now ≡ true }
    requires legal { IsOfLegal world.now }
    requires satisfied { (number : ℕ) → has satisfied.now number ≡ has (satisfied_in world.now) number }
    requires asks { component_configurations bundles.now configurations.now ≡ component_configurations_by step.now world.now }
    ensures { IfOk result (λ asked. IsAskedAfter step.now world.now asked) }
{
    let components = components_asked(alloc, world, step, bundles, configurations)?;
    let numbered = numbered_after(alloc, world, step, components.as_slice())?;
    with_all_else(alloc, world, satisfied, step, components, numbered)
}

#[tactic(auto, using(crate::proofs::Commands::command_components))]
fn components_asked<'w>(
    alloc: Global,
    world: &World,
    step: &Step,
    bundles: &[BundleView<'w>],
    configurations: &'w [Configuration],
) -> Result<List<Component>, OutOfMemory>
    requires command { is_command step.now ≡ true }
    requires asks { component_configurations bundles.now configurations.now ≡ component_configurations_by step.now world.now }
    ensures { IfOk result (λ components. components ≡ components_by step.now world.now) }
{
    let these = components_for_bundles(alloc, bundles, configurations)?;
    let counted = counted_components(alloc, world)?;
    components_after(
        alloc,
        world.entries,
        world.components_numbered,
        these.as_slice(),
        counted.as_slice(),
    )
}

// How many were numbered then: as many more as there are more than counted before.
fn numbered_after(
    alloc: Global,
    world: &World,
    step: &Step,
    components: &[Component],
) -> Result<u64, OutOfMemory>
    requires command { is_command step.now ≡ true }
    requires legal { IsOfLegal world.now }
    requires components { components.now ≡ components_by step.now world.now }
    ensures { IfOk result (λ numbered. numbered ≡ world.now.components_numbered + components_added_by step.now world.now) }
{
    let counted = counted_components(alloc, world)?;
    let numbered = numbered_by_command(world, step, counted.as_slice(), components);
    Ok(numbered)
}

#[tactic(auto, using(crate::proofs::Commands::command_adds, crate::proofs::Commands::command_keeps))]
fn numbered_by_command(
    world: &World,
    step: &Step,
    counted: &[&Component],
    components: &[Component],
) -> u64
    requires command { is_command step.now ≡ true }
    requires legal { IsOfLegal world.now }
    requires counted { map (λ c. c.now) counted.now ≡ counted_components world.now }
    requires components { components.now ≡ components_by step.now world.now }
    ensures { result ≡ world.now.components_numbered + components_added_by step.now world.now }
{
    numbered_on(world.components_numbered, counted.len(), components.len())
}

// So many more as there are more after than before.
fn numbered_on(numbered: u64, before: usize, after: usize) -> u64
    requires more { before ≤ after }
    requires room { numbered + after < 2 ^ 64 }
    ensures { result ≡ numbered + (after - before) }
{
    let added = after - before;
    numbered + added as u64
}

// What hangs on the component configurations after a command.
fn with_all_else(
    alloc: Global,
    world: &World,
    satisfied: &[u64],
    step: &Step,
    components: List<Component>,
    components_numbered: u64,
) -> Result<Asked, OutOfMemory>
    requires command { is_command step.now ≡ true }
    requires legal { IsOfLegal world.now }
    requires satisfied { (number : ℕ) → has satisfied.now number ≡ has (satisfied_in world.now) number }
    requires components { components ≡ components_by step.now world.now }
    requires numbered { components_numbered ≡ world.now.components_numbered + components_added_by step.now world.now }
    ensures { IfOk result (λ asked. IsAskedAfter step.now world.now asked) }
{
    let open_periods = periods_asked(alloc, world, step, components.as_slice())?;
    let failed = failed_by_command(alloc, world, satisfied, step, components.as_slice())?;
    Ok(Asked {
        components,
        components_numbered,
        open_periods,
        failed,
    })
}

// The same for a command after which the same is asked for as before.
#[tactic(auto, using(crate::proofs::Leaving::left_components, crate::proofs::Leaving::left_added))]
pub(crate) fn asked_still(
    alloc: Global,
    world: &World,
    satisfied: &[u64],
    step: &Step,
) -> Result<Asked, OutOfMemory>
    requires command { is_command step.now ≡ true }
    requires asks { AsksAsBefore step.now world.now }
    requires asked { IsAsked world.now }
    requires legal { IsOfLegal world.now }
    requires satisfied { (number : ℕ) → has satisfied.now number ≡ has (satisfied_in world.now) number }
    ensures { IfOk result (λ asked. IsAskedAfter step.now world.now asked) }
{
    let components = copied(alloc, world)?;
    with_all_else(
        alloc,
        world,
        satisfied,
        step,
        components,
        world.components_numbered,
    )
}
