//! The draft of a command after which the same component configurations are asked for as before it (OSGi Compendium 8, chapter
//! 112, "Component Configuration").
ghost use Rattle.prop_map.specs.Words.{has};
ghost use Rattle.scr_judgements.specs.Asked.{is_command, leaves_asked};
ghost use Rattle.scr_judgements.specs.Drafting.{AreTablesBy};
ghost use Rattle.scr_judgements.specs.Lasting.{AsksAsBefore, forgets_none, lasting_draft};
ghost use Rattle.scr_state.specs.Keeps.{IsDraft, IsKept};
ghost use Rattle.scr_world.specs.Stepping.{components_by, failed_by, is_counted};
ghost use Rattle.scr_world.specs.Worlds.{satisfied_in};
ghost use Rattle.std.specs.List.{list_all};
ghost use Rattle.std.specs.Prelude.{◌≡◌, ℕ, IfOk, true};

use crate::asked::asked_still;
use crate::counted::is_counted;
use crate::{TablesAfter, command_draft, failed_by_command};
use component_state::Component;
use prop_map::{List, OutOfMemory};
use scr_state::{Draft, RowChange, State};
use scr_world::{Instance, Step, World};
use std::alloc::Global;

/// The draft of a command that touches neither bundles nor documents nor configurations, after which these are the tables.
///
/// # Errors
/// Only want of memory.
#[tactic(auto, using(crate::proofs::Leaving::leaving_commands, crate::proofs::Leaving::leaving_asks))]
pub fn draft_with(
    alloc: Global,
    state: &State,
    step: &Step,
    tables: TablesAfter,
) -> Result<Draft, OutOfMemory>
    requires kept { IsKept state.now }
    requires leaves { leaves_asked step.now ≡ true }
    requires tables { AreTablesBy state.now step.now tables }
    ensures { IfOk result (λ draft. IsDraft state.now step.now draft) }
{
    draft_as_before(alloc, state, step, tables)
}

/// The draft of a command after which the same is asked for as before it, and these are the tables. It says none for component
/// configurations and open periods, but where the command forgets some that ceased without an instance.
///
/// # Errors
/// Only want of memory.
pub fn draft_as_before(
    alloc: Global,
    state: &State,
    step: &Step,
    tables: TablesAfter,
) -> Result<Draft, OutOfMemory>
    requires kept { IsKept state.now }
    requires command { is_command step.now ≡ true }
    requires asks { AsksAsBefore step.now state.now.world }
    requires tables { AreTablesBy state.now step.now tables }
    ensures { IfOk result (λ draft. IsDraft state.now step.now draft) }
{
    if forgets_none(&state.world) {
        draft_of_all(alloc, state, step, tables)
    } else {
        draft_of_counted(alloc, state, step, tables)
    }
}

// The draft where each component configuration counts: they and the open periods stay as they are.
fn draft_of_all(
    alloc: Global,
    state: &State,
    step: &Step,
    tables: TablesAfter,
) -> Result<Draft, OutOfMemory>
    requires kept { IsKept state.now }
    requires command { is_command step.now ≡ true }
    requires asks { AsksAsBefore step.now state.now.world }
    requires tables { AreTablesBy state.now step.now tables }
    requires all { forgets_none state.now.world ≡ true }
    ensures { IfOk result (λ draft. IsDraft state.now step.now draft) }
{
    let satisfied = state.satisfied.as_slice();
    let failed = failed_still(alloc, &state.world, satisfied, step)?;
    Ok(lasting_draft(&state.world, failed, tables))
}

// The draft where some are forgotten.
fn draft_of_counted(
    alloc: Global,
    state: &State,
    step: &Step,
    tables: TablesAfter,
) -> Result<Draft, OutOfMemory>
    requires kept { IsKept state.now }
    requires command { is_command step.now ≡ true }
    requires asks { AsksAsBefore step.now state.now.world }
    requires tables { AreTablesBy state.now step.now tables }
    ensures { IfOk result (λ draft. IsDraft state.now step.now draft) }
{
    let satisfied = state.satisfied.as_slice();
    let asked = asked_still(alloc, &state.world, satisfied, step)?;
    Ok(command_draft(&state.world, asked, tables))
}

// The failed ones after a command that leaves the component configurations.
fn failed_still(
    alloc: Global,
    world: &World,
    satisfied: &[u64],
    step: &Step,
) -> Result<List<u64>, OutOfMemory>
    requires command { is_command step.now ≡ true }
    requires satisfied { (number : ℕ) → has satisfied.now number ≡ has (satisfied_in world.now) number }
    requires components { world.now.components ≡ components_by step.now world.now }
    ensures { IfOk result (λ failed. failed ≡ failed_by step.now world.now) }
{
    failed_by_command(alloc, world, satisfied, step, world.components.as_slice())
}

// Whether a command forgets no component configuration.
fn forgets_none(world: &World) -> bool
    ensures { result ≡ forgets_none world.now }
{
    all_counted(world.instances.as_slice(), world.components.as_slice())
}

fn all_counted(instances: &[Instance], components: &[Component]) -> bool
    ensures { result ≡ list_all (is_counted instances.now) components.now }
{
    components
        .iter()
        .all(|component| is_counted(instances, component))
}

// The draft that leaves component configurations and open periods, where these are failed and these the tables.
#[tactic(auto, unfolding(crate::specs::Lasting::lasting_draft))]
fn lasting_draft(world: &World, failed: List<u64>, tables: TablesAfter) -> Draft
    ensures { result ≡ lasting_draft world.now failed tables }
{
    Draft {
        documents: tables.documents,
        registry: tables.registry,
        configurations: tables.configurations,
        components: None,
        components_numbered: world.components_numbered,
        open_periods: None,
        failed,
        failures: RowChange::Same,
        instances: RowChange::Same,
        whiteboard: None,
        instances_numbered: world.instances_numbered,
        turns_begun: world.turns_begun,
        generations: RowChange::Same,
        uses: tables.uses,
        tokens: RowChange::Same,
        descriptions: tables.descriptions,
        levels: tables.levels,
    }
}
