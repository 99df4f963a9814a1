//! The core by its own calls.

use crate::bundles::start;
use crate::configurations::configure_often;
use crate::services::{come_and_go, register_many};
use anyhow::Result;
use scr_core::{Core, Limits};
use std::alloc::Global;

/// How much is done: services that are registered, how often one more comes and goes, component configurations that
/// stand, and configurations that are set.
#[derive(Clone, Copy)]
pub(crate) struct CommandCounts {
    pub(crate) services: u64,
    pub(crate) steps: u64,
    pub(crate) components: u64,
    pub(crate) commands: u64,
}

/// Does it all on a new core, and answers how many entries its journal has then.
pub(crate) fn command_often(alloc: Global, counts: CommandCounts) -> Result<u64> {
    let limits = Limits {
        journal: 4_194_304,
        turns: 1_000_000,
    };
    let mut core = Core::new(alloc, limits)?;
    command_all(alloc, &mut core, counts)
}

// Does it all on this core.
fn command_all(alloc: Global, core: &mut Core, counts: CommandCounts) -> Result<u64> {
    let bundle = start(alloc, core, counts.components)?;
    register_many(alloc, core, bundle, counts.services)?;
    come_and_go(alloc, core, bundle, counts.steps)?;
    configure_often(alloc, core, counts.commands)?;
    Ok(core.journal().length())
}
