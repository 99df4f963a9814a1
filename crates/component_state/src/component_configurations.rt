//! The component configurations that there are to be for bundles and configurations (OSGi Compendium 8, chapter 112,
//! "Component Configuration").
ghost use Rattle.component_state.specs.ComponentConfigurations.{component_configurations, component_for, component_for_factory, components_for, components_for_bundle, components_for_description, components_for_descriptions, factory_of};
ghost use Rattle.component_state.specs.ComponentRows.{component_row, configurations_of};
ghost use Rattle.std.specs.Option.{option_copied};
ghost use Rattle.std.specs.Prelude.{◌≡◌, ◌++◌, [], IfOk, OnOk, Some, if◌then◌else◌, map};

mod bundle_view;
mod component_view;
mod configuration_index;
mod counting;
mod how_many;
mod properties;
mod property_draft;

use crate::{ComponentRow, WorldRows};
pub use bundle_view::BundleView;
pub(crate) use bundle_view::bundle_views;
use component_dto::{ConfigurationPolicy, Description};
pub use component_view::ComponentView;
pub(crate) use component_view::with_number;
use config_admin::Configuration;
use configuration_index::ConfigurationIndex;
use counting::{are_set, counting, factory_of, set_ones};
pub use how_many::are_more_than;
use prop_map::{OutOfMemory, Str};
use properties::component_properties;
use std::alloc::Global;

/// The component configurations that there are to be, by bundle, then in the order of the descriptions, then by the
/// PIDs of the factory's configurations, without their numbers: of each ACTIVE bundle, for each of its enabled
/// descriptions one for each configuration of its factory PID, or just one where it has none.
///
/// # Errors
/// Only want of memory.
pub fn configurations_of(
    alloc: Global,
    worlds: &WorldRows,
) -> Result<Vec<ComponentRow>, OutOfMemory>
    ensures { IfOk result (λ rows. rows.items ≡ configurations_of worlds.now.bundles worlds.now.configurations) }
{
    let bundles = bundle_views(alloc, worlds.bundles.as_slice())?;
    let components = components_for_bundles(
        alloc,
        bundles.as_slice(),
        worlds.configurations.as_slice(),
    )?;
    rows_of(alloc, components.as_slice())
}

/// The same as whole component configurations, whose descriptions are borrowed.
///
/// # Errors
/// Only want of memory.
pub fn components_for_bundles<'d>(
    alloc: Global,
    bundles: &[BundleView<'d>],
    configurations: &'d [Configuration],
) -> Result<Vec<ComponentView<'d>>, OutOfMemory>
    ensures { IfOk result (λ components. components.items ≡ component_configurations bundles.now configurations.entry.now) }
{
    let index = ConfigurationIndex::of(configurations);
    let mut found = Vec::new(alloc);
    for bundle in bundles {
        push_for_bundle(alloc, bundle, &index, &mut found)?;
    }
    Ok(found)
}

fn rows_of(
    alloc: Global,
    components: &[ComponentView<'_>],
) -> Result<Vec<ComponentRow>, OutOfMemory>
    ensures { IfOk result (λ rows. rows.items ≡ map component_row components.now) }
{
    let mut rows = Vec::new(alloc);
    for component in components {
        rows.push(component.row(alloc)?)?;
    }
    Ok(rows)
}

fn push_for_bundle<'d>(
    alloc: Global,
    bundle: &BundleView<'d>,
    configurations: &ConfigurationIndex<'d>,
    found: &mut Vec<ComponentView<'d>>,
) -> Result<(), OutOfMemory>
    ensures { OnOk result (found.new.items ≡ found.old.items ++ components_for_bundle configurations.now bundle.now) }
{
    if bundle.is_active_bundle() {
        push_enabled(alloc, bundle, configurations, found)
    } else {
        Ok(())
    }
}

fn push_enabled<'d>(
    alloc: Global,
    bundle: &BundleView<'d>,
    configurations: &ConfigurationIndex<'d>,
    found: &mut Vec<ComponentView<'d>>,
) -> Result<(), OutOfMemory>
    ensures { OnOk result (found.new.items ≡ found.old.items
        ++ components_for_descriptions bundle.now configurations.now 0 bundle.now.descriptions bundle.now.enabled) }
{
    let descriptions = bundle.descriptions();
    let enabled = bundle.enabled();
    let count = descriptions.len().min(enabled.len());
    for index in 0..count {
        let description = &descriptions[index];
        push_if(
            alloc,
            bundle,
            index,
            description,
            enabled[index],
            configurations,
            found,
        )?;
    }
    Ok(())
}

fn push_if<'d>(
    alloc: Global,
    bundle: &BundleView<'d>,
    index: usize,
    description: &'d Description,
    enabled: bool,
    configurations: &ConfigurationIndex<'d>,
    found: &mut Vec<ComponentView<'d>>,
) -> Result<(), OutOfMemory>
    ensures { OnOk result (found.new.items ≡ found.old.items
        ++ (if enabled then components_for_description bundle.now index description.entry.now configurations.now description.entry.now.configuration_policy else [])) }
{
    if enabled {
        push_for_description(alloc, bundle, index, description, configurations, found)
    } else {
        Ok(())
    }
}

fn push_for_description<'d>(
    alloc: Global,
    bundle: &BundleView<'d>,
    index: usize,
    description: &'d Description,
    configurations: &ConfigurationIndex<'d>,
    found: &mut Vec<ComponentView<'d>>,
) -> Result<(), OutOfMemory>
    ensures { OnOk result (found.new.items ≡ found.old.items
        ++ components_for_description bundle.now index description.entry.now configurations.now description.entry.now.configuration_policy) }
{
    match description.configuration_policy {
        ConfigurationPolicy::Ignore => {
            let component = component_for(alloc, bundle, index, description, None, &[])?;
            found.push(component)?;
            Ok(())
        }
        ConfigurationPolicy::Optional | ConfigurationPolicy::Require => {
            push_configured(alloc, bundle, index, description, configurations, found)
        }
    }
}

fn push_configured<'d>(
    alloc: Global,
    bundle: &BundleView<'d>,
    index: usize,
    description: &'d Description,
    configurations: &ConfigurationIndex<'d>,
    found: &mut Vec<ComponentView<'d>>,
) -> Result<(), OutOfMemory>
    ensures { OnOk result (found.new.items ≡ found.old.items
        ++ components_for bundle.now index description.entry.now configurations.now (factory_of configurations.now description.entry.now.configuration_pids)) }
{
    let pids = description.configuration_pids.as_slice();
    match factory_of(configurations, pids) {
        Some(factory) => {
            let factory = factory.as_str();
            push_for_factory(
                alloc,
                bundle,
                index,
                description,
                configurations,
                factory,
                found,
            )
        }
        None => {
            let these = counting(alloc, configurations, None, None, pids)?;
            let component = component_for(
                alloc,
                bundle,
                index,
                description,
                None,
                these.as_slice(),
            )?;
            found.push(component)?;
            Ok(())
        }
    }
}

fn push_for_factory<'d>(
    alloc: Global,
    bundle: &BundleView<'d>,
    index: usize,
    description: &'d Description,
    configurations: &ConfigurationIndex<'d>,
    factory: &str,
    found: &mut Vec<ComponentView<'d>>,
) -> Result<(), OutOfMemory>
    ensures { OnOk result (found.new.items ≡ found.old.items
        ++ components_for bundle.now index description.entry.now configurations.now (Some factory.now)) }
{
    let all = configurations.of_factory(alloc, factory)?;
    for named in all.as_slice() {
        let named: &'d Configuration = named;
        let component = component_for_factory(
            alloc,
            bundle,
            index,
            description,
            configurations,
            factory,
            named,
        )?;
        found.push(component)?;
    }
    Ok(())
}

fn component_for_factory<'d>(
    alloc: Global,
    bundle: &BundleView<'d>,
    index: usize,
    description: &'d Description,
    configurations: &ConfigurationIndex<'d>,
    factory: &str,
    named: &'d Configuration,
) -> Result<ComponentView<'d>, OutOfMemory>
    ensures { IfOk result (λ component. component ≡ component_for_factory bundle.now index description.entry.now configurations.now factory.now named.entry.now) }
{
    let pids = description.configuration_pids.as_slice();
    let these = counting(alloc, configurations, Some(factory), Some(named), pids)?;
    let pid = Some(&named.pid);
    component_for(alloc, bundle, index, description, pid, these.as_slice())
}

// A component configuration with the configurations that count for its PIDs.
fn component_for<'d>(
    alloc: Global,
    bundle: &BundleView<'d>,
    index: usize,
    description: &'d Description,
    pid: Option<&'d Str>,
    these: &[Option<&'d Configuration>],
) -> Result<ComponentView<'d>, OutOfMemory>
    ensures { IfOk result (λ component. component ≡ component_for bundle.now index description.entry.now (option_copied pid.entry) (map option_copied these.now)) }
{
    let counting = set_ones(alloc, these)?;
    let properties = component_properties(alloc, description, counting.as_slice())?;
    Ok(ComponentView::of(
        bundle.id(),
        index as u64,
        pid,
        description,
        are_set(these),
        properties,
    ))
}
