//! A component that is enabled or disabled (OSGi Compendium 8, chapter 112, "Enabled").
ghost use Rattle.scr_judgements.specs.Drafting.{no_tables};
ghost use Rattle.scr_judgements.specs.Judgements.{Judges, JudgesStep};
ghost use Rattle.scr_state.specs.Keeps.{Keeps};
ghost use Rattle.scr_world.specs.Refusals.{components_full, refusal};
ghost use Rattle.scr_world.specs.Replies.{has_effect};
ghost use Rattle.scr_world.specs.Tables.{flagged};
ghost use Rattle.scr_world.specs.declared.command.Command.TheVariants.{Disable, Enable};
ghost use Rattle.scr_world.specs.declared.step.Step.TheVariants.{Command as Commanded};
ghost use Rattle.std.specs.Prelude.{◌≡◌, IfOk, None, Some, map, true};

use crate::contents_after::flagged;
use crate::known_components::{component_refusal, is_all_enabled, is_enabled};
use journal_core::Journal;
use prop_map::{OutOfMemory, Str};
use scr_judgements::{
    Judgement, TablesAfter, are_too_many, asked_with, change, change_freely, has_room_for_command,
};
use scr_state::State;
use scr_world::{CoreFault, Reply, Step};
use std::alloc::Global;

/// Judges that a component of an ACTIVE bundle is enabled. One that is enabled stays so.
///
/// # Errors
/// `NoBundle` where the bundle isn't installed, `WrongState` where it isn't ACTIVE, `NoComponent` where it has no component of
/// this name, `ComponentsFull` where its component configurations come and more than 512 would count then, last `JournalFull`;
/// and want of memory.
pub fn judge_enable(
    alloc: Global,
    journal: &Journal<Step>,
    state: &State,
    step: &Step,
    bundle: u64,
    name: &Str,
) -> Result<Judgement, CoreFault>
    requires keeps { Keeps journal.now state.now }
    requires command { step.now ≡ Commanded (Enable bundle name.now) }
    ensures judged { Judges journal.now.limit state.now (Enable bundle name.now) result }
{
    match component_refusal(alloc, state, bundle, name)? {
        Some(fault) => Err(fault),
        None => enable_known(alloc, journal, state, step, bundle, name),
    }
}

// Judges that a component is enabled that an ACTIVE bundle has. One that is enabled asks for nothing anew.
fn enable_known(
    alloc: Global,
    journal: &Journal<Step>,
    state: &State,
    step: &Step,
    bundle: u64,
    name: &Str,
) -> Result<Judgement, CoreFault>
    requires keeps { Keeps journal.now state.now }
    requires command { step.now ≡ Commanded (Enable bundle name.now) }
    requires refused { refusal state.now.world (Enable bundle name.now) ≡ components_full state.now.world (Enable bundle name.now) }
    ensures { JudgesStep journal.now.limit state.now step.now result }
{
    if is_all_enabled(&state.world, bundle, name) {
        return Ok(Judgement::Unchanged(Reply::Done));
    }
    let tables = flagged_tables(alloc, state, bundle, name, true)?;
    let asked = asked_with(alloc, state, step, &tables)?;
    if are_too_many(&state.world, step, &asked) {
        return Err(CoreFault::ComponentsFull);
    }
    if is_enabled(&state.world, bundle, name) {
        return Ok(Judgement::Unchanged(Reply::Done));
    }
    change(journal, state, step, Reply::Done, asked, tables)
}

/// Judges that a component of an ACTIVE bundle is disabled. One that isn't enabled stays so.
///
/// # Errors
/// `NoBundle` where the bundle isn't installed, `WrongState` where it isn't ACTIVE, `NoComponent` where it has no component of
/// this name, last `JournalFull`; and want of memory.
pub fn judge_disable(
    alloc: Global,
    journal: &Journal<Step>,
    state: &State,
    step: &Step,
    bundle: u64,
    name: &Str,
) -> Result<Judgement, CoreFault>
    requires keeps { Keeps journal.now state.now }
    requires command { step.now ≡ Commanded (Disable bundle name.now) }
    ensures judged { Judges journal.now.limit state.now (Disable bundle name.now) result }
{
    match component_refusal(alloc, state, bundle, name)? {
        Some(fault) => Err(fault),
        None => {
            if !is_enabled(&state.world, bundle, name) {
                return Ok(Judgement::Unchanged(Reply::Done));
            }
            disable_enabled(alloc, journal, state, step, bundle, name)
        }
    }
}

// Judges that a component is disabled that an ACTIVE bundle has and that is enabled.
fn disable_enabled(
    alloc: Global,
    journal: &Journal<Step>,
    state: &State,
    step: &Step,
    bundle: u64,
    name: &Str,
) -> Result<Judgement, CoreFault>
    requires keeps { Keeps journal.now state.now }
    requires command { step.now ≡ Commanded (Disable bundle name.now) }
    requires free { refusal state.now.world (Disable bundle name.now) ≡ None }
    requires effect { has_effect state.now.world (Disable bundle name.now) ≡ true }
    ensures { JudgesStep journal.now.limit state.now step.now result }
{
    if !has_room_for_command(journal, state) {
        return Err(CoreFault::JournalFull);
    }
    let tables = flagged_tables(alloc, state, bundle, name, false)?;
    change_freely(alloc, journal, state, step, Reply::Done, tables)
}

// The tables where the component of this name is enabled, or isn't.
fn flagged_tables(
    alloc: Global,
    state: &State,
    bundle: u64,
    name: &Str,
    flag: bool,
) -> Result<TablesAfter, OutOfMemory>
    ensures { IfOk result (λ tables. tables ≡ record no_tables { documents = Some (map (flagged bundle name.now flag) state.now.world.documents) }) }
{
    let documents = flagged(alloc, bundle, name, flag, state.world.documents.as_slice())?;
    let mut tables = TablesAfter::none();
    tables.documents = Some(documents);
    Ok(tables)
}
