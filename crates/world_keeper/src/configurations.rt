//! Configurations as they are kept, changed in place.
ghost use Rattle.prop_map.specs.Words.{text_before};
ghost use Rattle.std.specs.Prelude.{◌≡◌, ◌<◌, length, position, IfOk, IfSome, OnOk};
ghost use Rattle.world_keeper.specs.KeptWorlds.{configurations_after, with_configuration, without_pid};
ghost use Rattle.world_keeper.specs.declared.kept.KeptConfiguration.{KeptConfiguration};

use crate::{Change, KeptConfiguration};
use prop_map::{Copies, OutOfMemory, Str};
use std::alloc::Global;

/// Changes configurations as a change says. They may be changed in part where there is no memory.
pub(crate) fn change_configurations(
    alloc: Global,
    configurations: &mut Vec<KeptConfiguration>,
    change: &Change,
) -> Result<(), OutOfMemory>
    ensures { OnOk result (configurations.new.items ≡ configurations_after configurations.old.items change.now) }
{
    match change {
        Change::Configured {
            pid,
            factory,
            properties,
        } => {
            let configuration = configuration_of(alloc, pid, factory, properties)?;
            put(configurations, configuration)
        }
        Change::Unconfigured { pid } => {
            leave_out(configurations, pid.as_str());
            Ok(())
        }
        Change::Install { .. }
        | Change::Update { .. }
        | Change::Remove { .. }
        | Change::Started { .. } => Ok(()),
    }
}

fn configuration_of(
    alloc: Global,
    pid: &Str,
    factory: &Option<Str>,
    properties: &Str,
) -> Result<KeptConfiguration, OutOfMemory>
    ensures { IfOk result (λ made.
        made ≡ record { pid = pid.now; factory = factory.now; properties = properties.now }) }
{
    Ok(KeptConfiguration {
        pid: pid.copy(alloc)?,
        factory: factory.copy(alloc)?,
        properties: properties.copy(alloc)?,
    })
}

// Puts a configuration in place of the one of its PID.
fn put(
    configurations: &mut Vec<KeptConfiguration>,
    configuration: KeptConfiguration,
) -> Result<(), OutOfMemory>
    ensures { OnOk result (configurations.new.items ≡ with_configuration configuration configurations.old.items) }
{
    leave_out(configurations, configuration.pid.as_str());
    match later_place(configurations.as_slice(), configuration.pid.as_str()) {
        Some(place) => configurations.insert(place, configuration)?,
        None => configurations.push(configuration)?,
    }
    Ok(())
}

// Leaves the configuration of a PID out, if there is one.
fn leave_out(configurations: &mut Vec<KeptConfiguration>, pid: &str)
    ensures { configurations.new.items ≡ without_pid pid.now configurations.old.items }
{
    configurations.retain(|configuration| configuration.pid.as_str() != pid);
}

// The place of the first configuration with a later PID.
fn later_place(configurations: &[KeptConfiguration], pid: &str) -> Option<usize>
    ensures at { result ≡ position (λ (c : KeptConfiguration). text_before pid.now c.pid) configurations.now }
    ensures within { IfSome result (λ place. place < length configurations.now) }
{
    configurations
        .iter()
        .position(|configuration| pid < configuration.pid.as_str())
}
