//! Which configurations count for the PIDs of a description.
ghost use Rattle.component_state.specs.ComponentConfigurations.{counting, counting_for, factory_of};
ghost use Rattle.std.specs.List.{list_all};
ghost use Rattle.std.specs.Option.{option_copied, option_map_or};
ghost use Rattle.std.specs.Prelude.{◌≡◌, ◌++◌, IfOk, OnOk, false, filter_map, is_some, map, option_to_list};
ghost use Rattle.std.specs.Str.{bytes_eq};

use super::configuration_index::ConfigurationIndex;
use config_admin::Configuration;
use prop_map::{OutOfMemory, Str};
use std::alloc::Global;

/// The first of the PIDs that has factory configurations.
pub(crate) fn factory_of<'p>(
    configurations: &ConfigurationIndex<'_>,
    pids: &'p [Str],
) -> Option<&'p Str>
    ensures { option_copied result ≡ factory_of configurations.now pids.now }
{
    pids.iter()
        .find(|pid| configurations.has_factory(pid.as_str()))
}

// The configuration that counts for a PID: of the factory PID the one that is named, of one without factory
// configurations its own, of any other none.
fn counting_for<'c>(
    configurations: &ConfigurationIndex<'c>,
    factory: Option<&str>,
    named: Option<&'c Configuration>,
    pid: &str,
) -> Option<&'c Configuration>
    ensures { option_copied result ≡ counting_for configurations.now (option_copied factory.entry) (option_copied named.entry) pid.now }
{
    if is_factory(factory, pid) {
        named
    } else if configurations.has_factory(pid) {
        None
    } else {
        configurations.of_pid(pid)
    }
}

fn is_factory(factory: Option<&str>, pid: &str) -> bool
    ensures { result ≡ option_map_or (bytes_eq pid.now) (option_copied factory.entry) false }
{
    match factory {
        Some(factory) => pid == factory,
        None => false,
    }
}

/// The configuration that counts for each of the PIDs, if one does.
///
/// # Errors
/// Only want of memory.
pub(crate) fn counting<'c>(
    alloc: Global,
    configurations: &ConfigurationIndex<'c>,
    factory: Option<&str>,
    named: Option<&'c Configuration>,
    pids: &[Str],
) -> Result<Vec<Option<&'c Configuration>>, OutOfMemory>
    ensures { IfOk result (λ these. map option_copied these.items ≡ counting configurations.now (option_copied factory.entry) (option_copied named.entry) pids.now) }
{
    let mut these = Vec::new(alloc);
    for pid in pids {
        these.push(counting_for(configurations, factory, named, pid.as_str()))?;
    }
    Ok(these)
}

/// Each PID has one.
pub(crate) fn are_set(these: &[Option<&Configuration>]) -> bool
    ensures { result ≡ list_all is_some (map option_copied these.now) }
{
    are_some(these)
}

fn are_some(these: &[Option<&Configuration>]) -> bool
    ensures { result ≡ list_all is_some these.now }
{
    these.iter().all(|configuration| configuration.is_some())
}

/// Those that there are.
///
/// # Errors
/// Only want of memory.
pub(crate) fn set_ones<'c>(
    alloc: Global,
    these: &[Option<&'c Configuration>],
) -> Result<Vec<&'c Configuration>, OutOfMemory>
    ensures { IfOk result (λ found. map (λ c. c.now) found.items ≡ filter_map (λ c. c) (map option_copied these.now)) }
{
    let mut found = Vec::new(alloc);
    for configuration in these {
        push_set(&mut found, *configuration)?;
    }
    Ok(found)
}

fn push_set<'c>(
    found: &mut Vec<&'c Configuration>,
    configuration: Option<&'c Configuration>,
) -> Result<(), OutOfMemory>
    ensures { OnOk result (found.new.items ≡ found.old.items ++ option_to_list configuration.entry) }
{
    if let Some(configuration) = configuration {
        found.push(configuration)?;
    }
    Ok(())
}
