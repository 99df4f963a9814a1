//! What a command makes of the needs and offers that are kept (OSGi Core 8, chapter 4, "Installing Bundles", "Updating Bundles",
//! "Uninstalling Bundles").
ghost use Rattle.kept_wirings.specs.WiringChanges.{IsChangeBy, rows_by_command, with_wiring_change};
ghost use Rattle.kept_wirings.specs.WiringRows.{WiringRow};
ghost use Rattle.std.specs.Prelude.{◌≡◌, List, IfOk};

use crate::document_wirings::document_wiring;
use bundle_wiring::{WireFault, Wiring};
use prop_map::OutOfMemory;
use scr_world::{Command, Step};
use std::alloc::Global;

/// What becomes of the needs and offers that are kept.
#[derive(Drop)]
pub enum WiringChange {
    /// They stay as they are.
    Same,
    /// A bundle comes, behind all others.
    Installed {
        /// Its number.
        bundle: u64,
        /// What its manifest says, or the first fault of it.
        read: Result<Wiring, WireFault>,
    },
    /// A bundle has another manifest.
    Updated {
        /// Its number.
        bundle: u64,
        /// What its manifest says, or the first fault of it.
        read: Result<Wiring, WireFault>,
    },
    /// A bundle goes.
    Uninstalled {
        /// Its number.
        bundle: u64,
    },
}

/// What a step makes of the needs and offers that are kept, where the next bundle has this number. The headers of the manifest
/// are read for an install and an update; that they are faulty refuses nothing.
///
/// # Errors
/// Only want of memory.
pub fn wiring_change(alloc: Global, step: &Step, next: u64) -> Result<WiringChange, OutOfMemory>
    ensures { IfOk result (λ change. IsChangeBy step.now next change) }
{
    match step {
        Step::Command(command) => change_by_command(alloc, command, next),
        _ => Ok(WiringChange::Same),
    }
}

fn change_by_command(
    alloc: Global,
    command: &Command,
    next: u64,
) -> Result<WiringChange, OutOfMemory>
    ensures { IfOk result (λ change. (rows : List WiringRow) → rows_by_command command.now next rows ≡ with_wiring_change change rows) }
{
    match command {
        Command::Install { doc } => Ok(WiringChange::Installed {
            bundle: next,
            read: document_wiring(alloc, doc)?,
        }),
        Command::Update { bundle, doc } => Ok(WiringChange::Updated {
            bundle: *bundle,
            read: document_wiring(alloc, doc)?,
        }),
        Command::Uninstall { bundle } => Ok(WiringChange::Uninstalled { bundle: *bundle }),
        _ => Ok(WiringChange::Same),
    }
}
