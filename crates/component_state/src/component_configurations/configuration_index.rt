//! The configurations of a PID and of a factory.
ghost use Rattle.config_admin.specs.Configurations.{of_factory, of_pid};
ghost use Rattle.prop_map.specs.Words.{is_empty};
ghost use Rattle.config_admin.specs.declared.configuration.Configuration.{Configuration};
ghost use Rattle.std.specs.List.{list_any};
ghost use Rattle.std.specs.Option.{option_copied, option_map_or};
ghost use Rattle.std.specs.Prelude.{◌≡◌, IfOk, false, length, map, not};
ghost use Rattle.std.specs.Str.{bytes_eq};

use config_admin::Configuration;
use prop_map::OutOfMemory;
use std::alloc::Global;
use std::marker::Model;

/// Configurations, to be found by their PIDs and by those of their factories. Contracts see them in their order.
#[derive(Drop)]
pub(crate) struct ConfigurationIndex<'c> {
    list: &'c [Configuration],
}

impl<'c> Model for ConfigurationIndex<'c> {
    ghost use Rattle.std.specs.Prelude.{List};
    ghost use Rattle.config_admin.specs.declared.configuration.Configuration.{Configuration};

    ghost Value = { List Configuration };

    ghost view = { λ i. i.list.now };
}

impl<'c> ConfigurationIndex<'c> {
    /// These configurations.
    pub(crate) fn of(list: &'c [Configuration]) -> ConfigurationIndex<'c>
        ensures { result ≡ list.entry.now }
    {
        ConfigurationIndex { list }
    }

    /// The configuration of a PID.
    pub(crate) fn of_pid(&self, pid: &str) -> Option<&'c Configuration>
        ensures { option_copied result ≡ of_pid pid.now self.now }
    {
        with_pid(self.list, pid)
    }

    /// Whether a factory has configurations.
    pub(crate) fn has_factory(&self, pid: &str) -> bool
        ensures { result ≡ not (is_empty (of_factory pid.now self.now)) }
    {
        has_factory(self.list, pid)
    }

    /// The configurations of a factory.
    ///
    /// # Errors
    /// Only want of memory.
    pub(crate) fn of_factory(
        &self,
        alloc: Global,
        pid: &str,
    ) -> Result<Vec<&'c Configuration>, OutOfMemory>
        ensures { IfOk result (λ found. map (λ c. c.now) found.items ≡ of_factory pid.now self.now) }
    {
        with_factory(alloc, self.list, pid)
    }

    /// How many configurations a factory has.
    pub(crate) fn count_of_factory(&self, pid: &str) -> usize
        ensures { result ≡ length (of_factory pid.now self.now) }
    {
        count_with_factory(self.list, pid)
    }
}

fn with_pid<'c>(list: &'c [Configuration], pid: &str) -> Option<&'c Configuration>
    ensures { option_copied result ≡ of_pid pid.now list.now }
{
    list.iter().find(|c| c.pid.as_str() == pid)
}

fn is_of_factory(pid: &str, configuration: &Configuration) -> bool
    ensures { result ≡ option_map_or (bytes_eq pid.now) configuration.now.factory false }
{
    match &configuration.factory {
        Some(factory) => pid == factory.as_str(),
        None => false,
    }
}

fn has_factory(list: &[Configuration], pid: &str) -> bool
    ensures { result ≡ not (is_empty (of_factory pid.now list.now)) }
{
    is_any_of_factory(list, pid)
}

fn is_any_of_factory(list: &[Configuration], pid: &str) -> bool
    ensures { result ≡ list_any (λ (c : Configuration). option_map_or (bytes_eq pid.now) c.factory false) list.now }
{
    list.iter().any(|c| is_of_factory(pid, c))
}

fn with_factory<'c>(
    alloc: Global,
    list: &'c [Configuration],
    pid: &str,
) -> Result<Vec<&'c Configuration>, OutOfMemory>
    ensures { IfOk result (λ found. map (λ c. c.now) found.items ≡ of_factory pid.now list.now) }
{
    list.iter()
        .filter(|configuration| is_of_factory(pid, configuration))
        .collect(alloc)
}

fn count_with_factory(list: &[Configuration], pid: &str) -> usize
    ensures { result ≡ length (of_factory pid.now list.now) }
{
    list.iter().filter(|c| is_of_factory(pid, c)).count()
}
