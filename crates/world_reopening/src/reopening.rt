//! The commands that make a platform again.
ghost use Rattle.std.specs.Prelude.{◌≡◌, ◌++◌, List, length, map, IfErr, IfOk, OnOk, Ok};
ghost use Rattle.world_keeper.specs.KeptWorlds.{kept_by};
ghost use Rattle.world_keeper.specs.Orders.{IsOrdered};
ghost use Rattle.world_keeper.specs.declared.change.Change.{Change};
ghost use Rattle.world_reopening.specs.ChangesOf.{AreChangesOf, locations_of};
ghost use Rattle.world_reopening.specs.Reopening.{Adds, Tells, configuration_command, install_command};
ghost use Rattle.world_reopening.specs.Reopening.{reopening, starts_from};

use crate::ReopenFault;
use crate::rows::{configuration_command, install_command};
use prop_map::OutOfMemory;
use scr_world::Command;
use std::alloc::Global;
use world_keeper::{Kept, KeptBundle, KeptConfiguration};

/// The commands that make an empty platform into what is kept: the configurations by PID, then the installs in order,
/// each document read anew with its kept location, and then the starts in order, by the new numbers of their bundles,
/// which begin at 1. The changes of these commands keep what is kept.
///
/// # Errors
/// `BadKept` exactly where a row has no reading: the first, from 0 in this order. `OutOfMemory` may come at any call.
pub fn reopen_commands(alloc: Global, kept: &Kept) -> Result<Vec<Command>, ReopenFault>
    ensures commands { IfOk result (λ commands. reopening kept.now ≡ Ok commands.items) }
    ensures bad { IfErr result (λ fault. Tells fault (reopening kept.now)) }
    ensures again { IfOk result (λ commands. (changes : List Change)
        × AreChangesOf (locations_of commands.items) commands.items changes
        × (IsOrdered kept.now → kept_by changes ≡ kept.now)) }
{
    let mut commands = Vec::new(alloc);
    let configurations = kept.configurations.as_slice();
    let bundles = kept.bundles.as_slice();
    match add_rows(alloc, configurations, bundles, &mut commands) {
        Ok(()) => {
            add_starts(bundles, &mut commands)?;
            Ok(commands)
        }
        Err(fault) => Err(fault),
    }
}

fn add_rows(
    alloc: Global,
    configurations: &[KeptConfiguration],
    bundles: &[KeptBundle],
    commands: &mut Vec<Command>,
) -> Result<(), ReopenFault>
    ensures { Adds result (length commands.old.items)
        (map configuration_command configurations.now ++ map install_command bundles.now)
        commands.old.items commands.new.items }
{
    match add_configurations(alloc, configurations, commands) {
        Ok(()) => add_installs(alloc, bundles, commands),
        Err(fault) => Err(fault),
    }
}

fn add_configurations(
    alloc: Global,
    configurations: &[KeptConfiguration],
    commands: &mut Vec<Command>,
) -> Result<(), ReopenFault>
    ensures { Adds result (length commands.old.items) (map configuration_command configurations.now)
        commands.old.items commands.new.items }
{
    for configuration in configurations {
        let row = commands.len() as u64;
        match configuration_command(alloc, configuration)? {
            Some(command) => commands.push(command)?,
            None => return Err(ReopenFault::BadKept { row }),
        }
    }
    Ok(())
}

fn add_installs(
    alloc: Global,
    bundles: &[KeptBundle],
    commands: &mut Vec<Command>,
) -> Result<(), ReopenFault>
    ensures { Adds result (length commands.old.items) (map install_command bundles.now)
        commands.old.items commands.new.items }
{
    for bundle in bundles {
        let row = commands.len() as u64;
        match install_command(alloc, bundle)? {
            Some(command) => commands.push(command)?,
            None => return Err(ReopenFault::BadKept { row }),
        }
    }
    Ok(())
}

fn add_starts(bundles: &[KeptBundle], commands: &mut Vec<Command>) -> Result<(), OutOfMemory>
    ensures { OnOk result (commands.new.items ≡ commands.old.items ++ starts_from 1 bundles.now) }
{
    for (place, bundle) in bundles.iter().enumerate() {
        if bundle.started {
            commands.push(Command::Start {
                bundle: place as u64 + 1,
            })?;
        }
    }
    Ok(())
}
