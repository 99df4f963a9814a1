//! What is asked for with the tables that a command changes.
ghost use Rattle.scr_judgements.specs.Asked.{IsAskedAfter};
ghost use Rattle.scr_judgements.specs.Changing.{AreTablesBy};
ghost use Rattle.scr_state.specs.Keeps.{IsKept};
ghost use Rattle.std.specs.Option.{unwrap_or};
ghost use Rattle.std.specs.Prelude.{◌≡◌, IfOk};

use crate::after::asked_after;
use crate::{Asked, TablesAfter};
use config_admin::Configuration;
use prop_map::OutOfMemory;
use scr_state::State;
use scr_world::{Contents, Step};
use std::alloc::Global;

/// What a command makes of the component configurations and of what hangs on them, where these are its tables (OSGi Compendium
/// 8, chapter 112, "Component Configuration").
///
/// # Errors
/// Only want of memory.
#[tactic(auto, using(crate::proofs::Unchanged::kept_legal, crate::proofs::Tables::by_commands, crate::proofs::Tables::documents_by_step, crate::proofs::Tables::configurations_by_step))]
pub fn asked_with(
    alloc: Global,
    state: &State,
    step: &Step,
    tables: &TablesAfter,
) -> Result<Asked, OutOfMemory>
    requires kept { IsKept state.now }
    requires tables { AreTablesBy state.now step.now tables.now }
    ensures { IfOk result (λ asked. IsAskedAfter step.now state.now.world asked) }
{
    asked_after(
        alloc,
        &state.world,
        state.satisfied.as_slice(),
        step,
        documents_after(state, tables),
        configurations_after(state, tables),
    )
}

fn documents_after<'a>(state: &'a State, tables: &'a TablesAfter) -> &'a [Contents]
    ensures { result.now ≡ unwrap_or tables.entry.now.documents state.entry.now.world.documents }
{
    match &tables.documents {
        Some(documents) => documents.as_slice(),
        None => state.world.documents.as_slice(),
    }
}

fn configurations_after<'a>(state: &'a State, tables: &'a TablesAfter) -> &'a [Configuration]
    ensures { result.now ≡ unwrap_or tables.entry.now.configurations state.entry.now.world.configurations }
{
    match &tables.configurations {
        Some(configurations) => configurations.rows(),
        None => state.world.configurations.rows(),
    }
}
