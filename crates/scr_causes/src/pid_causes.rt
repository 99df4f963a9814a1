//! PIDs without a configuration that counts (OSGi Compendium 8, chapter 112, "Configuration Policy", "Configuration PID").
ghost use Rattle.component_state.specs.ComponentConfigurations.{counting_for, factory_of};
ghost use Rattle.component_state.specs.Components.{is_required};
ghost use Rattle.config_admin.specs.Configurations.{of_factory};
ghost use Rattle.prop_map.specs.Words.{is_empty};
ghost use Rattle.scr_causes.specs.DirectCauses.{naming, pid_cause, pid_causes, pids_without};
ghost use Rattle.config_admin.specs.declared.configuration.Configuration.{Configuration};
ghost use Rattle.std.specs.List.{list_any};
ghost use Rattle.std.specs.Option.{option_copied, option_map_or};
ghost use Rattle.std.specs.Prelude.{◌≡◌, IfOk, false, filter, is_none, map, not};
ghost use Rattle.std.specs.Str.{bytes_eq};

use component_causes::Cause;
use component_dto::ConfigurationPolicy;
use component_state::Component;
use config_admin::{Configuration, Configurations};
use prop_map::{Copies, OutOfMemory, Str};
use std::alloc::Global;

/// The PIDs of a component configuration without one, in the order of its description, where its policy asks for a
/// configuration.
///
/// # Errors
/// Only want of memory.
pub(crate) fn pid_causes(
    alloc: Global,
    configurations: &Configurations,
    component: &Component,
) -> Result<Vec<Cause>, OutOfMemory>
    ensures { IfOk result (λ causes. causes.items ≡ pid_causes configurations.now component.now) }
{
    if is_required(component.description.get().configuration_policy) {
        required_pids(alloc, configurations, component)
    } else {
        Ok(Vec::new(alloc))
    }
}

fn is_required(policy: ConfigurationPolicy) -> bool
    ensures { result ≡ is_required policy }
{
    matches!(policy, ConfigurationPolicy::Require)
}

fn required_pids(
    alloc: Global,
    configurations: &Configurations,
    component: &Component,
) -> Result<Vec<Cause>, OutOfMemory>
    ensures { IfOk result (λ causes. causes.items ≡ map (pid_cause configurations.now) (pids_without configurations.now component.now)) }
{
    let pids = component.description.get().configuration_pids.as_slice();
    let factory = factory_of(configurations.rows(), pids);
    let named = naming(configurations, component);
    causes_without(alloc, configurations, factory, named, pids)
}

// The configuration of a factory that names it.
fn naming<'c>(
    configurations: &'c Configurations,
    component: &Component,
) -> Option<&'c Configuration>
    ensures { option_copied result ≡ naming configurations.now component.now }
{
    match &component.pid {
        Some(pid) => configurations.of_pid(pid.as_str()),
        None => None,
    }
}

// The first of the PIDs that is that of a factory with configurations.
fn factory_of<'p>(configurations: &[Configuration], pids: &'p [Str]) -> Option<&'p Str>
    ensures { option_copied result ≡ factory_of configurations.now pids.now }
{
    pids.iter()
        .find(|pid| has_factory(configurations, pid.as_str()))
}

// Whether a factory of this PID has configurations.
fn has_factory(configurations: &[Configuration], pid: &str) -> bool
    ensures { result ≡ not (is_empty (of_factory pid.now configurations.now)) }
{
    is_any_of_factory(configurations, pid)
}

fn is_any_of_factory(configurations: &[Configuration], pid: &str) -> bool
    ensures { result ≡ list_any (λ (k : Configuration). option_map_or (bytes_eq pid.now) k.factory false) configurations.now }
{
    configurations.iter().any(|row| is_of_factory(row, pid))
}

fn is_of_factory(configuration: &Configuration, pid: &str) -> bool
    ensures { result ≡ option_map_or (bytes_eq pid.now) configuration.now.factory false }
{
    match &configuration.factory {
        Some(factory) => pid == factory.as_str(),
        None => false,
    }
}

fn causes_without(
    alloc: Global,
    configurations: &Configurations,
    factory: Option<&Str>,
    named: Option<&Configuration>,
    pids: &[Str],
) -> Result<Vec<Cause>, OutOfMemory>
    ensures { IfOk result (λ causes. causes.items ≡ map (pid_cause configurations.now)
        (filter (λ pid. is_none (counting_for configurations.now (option_copied factory.entry) (option_copied named.entry) pid)) pids.now)) }
{
    let mut causes = Vec::new(alloc);
    for pid in pids {
        if lacks(configurations, factory, named, pid.as_str()) {
            causes.push(pid_cause(alloc, configurations, pid)?)?;
        }
    }
    Ok(causes)
}

// Whether no configuration counts for a PID.
fn lacks(
    configurations: &Configurations,
    factory: Option<&Str>,
    named: Option<&Configuration>,
    pid: &str,
) -> bool
    ensures { result ≡ is_none (counting_for configurations.now (option_copied factory.entry) (option_copied named.entry) pid.now) }
{
    match counting_for(configurations, factory, named, pid) {
        Some(_) => false,
        None => true,
    }
}

// The configuration that counts for a PID: of the factory's PID the one that is named, of one without factory
// configurations its own, of any other none.
fn counting_for<'c>(
    configurations: &'c Configurations,
    factory: Option<&Str>,
    named: Option<&'c Configuration>,
    pid: &str,
) -> Option<&'c Configuration>
    ensures { option_copied result ≡ counting_for configurations.now (option_copied factory.entry) (option_copied named.entry) pid.now }
{
    if is_that(factory, pid) {
        named
    } else if has_factory(configurations.rows(), pid) {
        None
    } else {
        configurations.of_pid(pid)
    }
}

fn is_that(factory: Option<&Str>, pid: &str) -> bool
    ensures { result ≡ option_map_or (bytes_eq pid.now) (option_copied factory.entry) false }
{
    match factory {
        Some(factory) => pid == factory.as_str(),
        None => false,
    }
}

fn pid_cause(
    alloc: Global,
    configurations: &Configurations,
    pid: &Str,
) -> Result<Cause, OutOfMemory>
    ensures { IfOk result (λ cause. cause ≡ pid_cause configurations.now pid.now) }
{
    Ok(Cause::Pid {
        pid: pid.copy(alloc)?,
        factory: has_factory(configurations.rows(), pid.as_str()),
    })
}
