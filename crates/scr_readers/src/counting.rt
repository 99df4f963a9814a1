//! For which component configurations a configuration counts (OSGi Compendium 8, chapter 112, "Component
//! Configuration").
ghost use Rattle.component_state.specs.Components.{existing, numbers_of};
ghost use Rattle.scr_readers.specs.Counting.{counting_numbers, counts_for, is_asked_for, is_factory, lets_count, names};
ghost use Rattle.std.specs.List.{list_any};
ghost use Rattle.std.specs.Option.{option_map_or};
ghost use Rattle.std.specs.Prelude.{◌≡◌, IfOk, false, filter};
ghost use Rattle.std.specs.Str.{bytes_eq};

use component_dto::ConfigurationPolicy;
use component_state::Component;
use config_admin::Configuration;
use prop_map::{List, OutOfMemory, Str};
use scr_world::World;
use std::alloc::Global;

/// The numbers of the component configurations that haven't ceased and for which a configuration counts, in order.
///
/// # Errors
/// Only want of memory.
pub fn counting_numbers(
    alloc: Global,
    world: &World,
    configuration: &Configuration,
) -> Result<List<u64>, OutOfMemory>
    ensures { IfOk result (λ numbers. numbers ≡ counting_numbers world.now configuration.now) }
{
    let configurations = world.configurations.rows();
    let components = world.components.as_slice();
    let numbers = numbers_among(alloc, configurations, components, configuration)?;
    Ok(List::of(numbers))
}

fn numbers_among(
    alloc: Global,
    configurations: &[Configuration],
    components: &[Component],
    configuration: &Configuration,
) -> Result<Vec<u64>, OutOfMemory>
    ensures { IfOk result (λ v. v.items ≡ numbers_of (filter (counts_for configurations.now configuration.now) (existing components.now))) }
{
    let mut numbers = Vec::new(alloc);
    for component in components {
        if component.exists && counts_for(configurations, configuration, component) {
            numbers.push(component.number)?;
        }
    }
    Ok(numbers)
}

fn counts_for(
    configurations: &[Configuration],
    configuration: &Configuration,
    component: &Component,
) -> bool
    ensures { result ≡ counts_for configurations.now configuration.now component.now }
{
    lets_count(component.description.get().configuration_policy)
        && (names(configuration, component)
            || is_asked_for(configurations, configuration, component))
}

fn lets_count(policy: ConfigurationPolicy) -> bool
    ensures { result ≡ lets_count policy }
{
    match policy {
        ConfigurationPolicy::Optional | ConfigurationPolicy::Require => true,
        ConfigurationPolicy::Ignore => false,
    }
}

fn names(configuration: &Configuration, component: &Component) -> bool
    ensures { result ≡ names configuration.now component.now }
{
    match &component.pid {
        Some(pid) => configuration.pid.as_str() == pid.as_str(),
        None => false,
    }
}

fn is_asked_for(
    configurations: &[Configuration],
    configuration: &Configuration,
    component: &Component,
) -> bool
    ensures { result ≡ is_asked_for configurations.now configuration.now component.now }
{
    let pid = configuration.pid.as_str();
    is_among(
        component.description.get().configuration_pids.as_slice(),
        pid,
    ) && !is_factory(configurations, pid)
}

fn is_among(pids: &[Str], pid: &str) -> bool
    ensures { result ≡ list_any (bytes_eq pid.now) pids.now }
{
    pids.iter().any(|other| pid == other.as_str())
}

fn is_factory(configurations: &[Configuration], pid: &str) -> bool
    ensures { result ≡ is_factory configurations.now pid.now }
{
    configurations.iter().any(|row| is_of_factory(row, pid))
}

fn is_of_factory(configuration: &Configuration, pid: &str) -> bool
    ensures { result ≡ option_map_or (bytes_eq pid.now) configuration.now.factory false }
{
    match &configuration.factory {
        Some(factory) => pid == factory.as_str(),
        None => false,
    }
}
