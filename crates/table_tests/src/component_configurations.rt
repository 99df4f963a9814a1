//! The component configurations that there are to be, and those after a command.

use crate::samples::{properties, text};
use component_dto::{ConfigurationPolicy, Description, Scope};
use component_state::{
    BundleRow, BundleView, Component, ComponentView, WorldRows, are_more_than, components_after,
    components_for_bundles, configurations_of,
};
use config_admin::Configuration;
use prop_map::{List, OutOfMemory, Properties, Str, Value};
use std::alloc::Global;

// A list of one item.
fn one<T: Drop>(alloc: Global, item: T) -> Result<List<T>, OutOfMemory> {
    let mut items = Vec::new(alloc);
    items.push(item)?;
    Ok(List::of(items))
}

/// How a component and its class are called, and the PIDs of its configurations.
#[derive(Drop)]
struct Names {
    name: Str,
    class: Str,
    pids: List<Str>,
}

// All of them are this name.
fn all_named(alloc: Global, name: &str) -> Result<Names, OutOfMemory> {
    let pids = one(alloc, text(alloc, name)?)?;
    let class = text(alloc, name)?;
    Ok(Names {
        name: text(alloc, name)?,
        class,
        pids,
    })
}

fn description(alloc: Global, names: Names, properties: Properties) -> Description {
    Description {
        name: names.name,
        scope: Scope::Singleton,
        implementation_class: names.class,
        default_enabled: true,
        immediate: true,
        service_interfaces: List::of(Vec::new(alloc)),
        properties,
        references: List::of(Vec::new(alloc)),
        modified: None,
        configuration_policy: ConfigurationPolicy::Optional,
        configuration_pids: names.pids,
        implicit: false,
    }
}

// A component whose configurations have its name as their PID.
fn described(alloc: Global, name: &str) -> Result<Description, OutOfMemory> {
    let properties = properties(alloc, 1)?;
    match all_named(alloc, name) {
        Ok(names) => Ok(description(alloc, names, properties)),
        Err(error) => Err(error),
    }
}

fn configuration(alloc: Global, pid: &str, value: i64) -> Result<Configuration, OutOfMemory> {
    let pid = text(alloc, pid)?;
    Ok(Configuration {
        pid,
        factory: None,
        properties: properties(alloc, value)?,
    })
}

fn of_factory(
    alloc: Global,
    factory: &str,
    pid: &str,
    value: i64,
) -> Result<Configuration, OutOfMemory> {
    let factory = text(alloc, factory)?;
    let pid = text(alloc, pid)?;
    Ok(Configuration {
        pid,
        factory: Some(factory),
        properties: properties(alloc, value)?,
    })
}

// A bundle in a state, with one description that is enabled.
fn bundle(alloc: Global, id: u64, state: u32, name: &str) -> Result<BundleRow, OutOfMemory> {
    let enabled = one(alloc, true)?;
    let description = described(alloc, name)?;
    match one(alloc, description) {
        Ok(descriptions) => Ok(BundleRow {
            id,
            state,
            descriptions,
            enabled,
        }),
        Err(error) => Err(error),
    }
}

fn view(row: &BundleRow) -> BundleView<'_> {
    BundleView::of(
        row.id,
        row.state,
        row.descriptions.as_slice(),
        row.enabled.as_slice(),
    )
}

// What the property `v` of properties is.
fn value_of(properties: &Properties) -> i64 {
    match properties.get("v") {
        Some(Value::Whole(value)) => *value,
        _ => 0,
    }
}

fn worlds_of(
    alloc: Global,
    bundles: List<BundleRow>,
    configurations: List<Configuration>,
) -> WorldRows {
    WorldRows {
        bundles,
        services: List::of(Vec::new(alloc)),
        configurations,
        levels: List::of(Vec::new(alloc)),
        next_service: 1,
    }
}

// The configuration `m~one` of the factory `m`.
fn configurations(alloc: Global) -> Result<List<Configuration>, OutOfMemory> {
    let configuration = of_factory(alloc, "m", "m~one", 3)?;
    one(alloc, configuration)
}

// An ACTIVE bundle with `m`.
fn bundles(alloc: Global) -> Result<List<BundleRow>, OutOfMemory> {
    let bundle = bundle(alloc, 1, 32, "m")?;
    one(alloc, bundle)
}

fn worlds(alloc: Global) -> Result<WorldRows, OutOfMemory> {
    let configurations = configurations(alloc)?;
    match bundles(alloc) {
        Ok(bundles) => Ok(worlds_of(alloc, bundles, configurations)),
        Err(error) => Err(error),
    }
}

// Whether bundle 1 has one component configuration, with 3 at `v`.
fn have_one(alloc: Global, worlds: &WorldRows) -> bool {
    match configurations_of(alloc, worlds) {
        Ok(rows) => match rows.as_slice() {
            [row] => row.bundle == 1 && value_of(&row.properties) == 3,
            _ => false,
        },
        Err(_) => false,
    }
}

fn factory_gives_one(alloc: Global) -> bool {
    match worlds(alloc) {
        Ok(worlds) => have_one(alloc, &worlds),
        Err(_) => false,
    }
}

#[test]
fn a_factory_gives_one_for_each_configuration(rt: HostRuntime) {
    assert!(rt; factory_gives_one(rt.alloc()));
}

fn after_these(
    alloc: Global,
    place: u64,
    these: &[ComponentView<'_>],
    before: &[Component],
) -> Result<List<Component>, OutOfMemory> {
    let known = before.iter().collect::<Vec<&Component>>(alloc)?;
    components_after(alloc, place, before.len() as u64, these, known.as_slice())
}

// The component configurations after a command at a place, where there were those.
fn after(
    alloc: Global,
    place: u64,
    row: &BundleRow,
    configurations: &[Configuration],
    before: &[Component],
) -> Result<List<Component>, OutOfMemory> {
    let these = components_for_bundles(alloc, &[view(row)], configurations)?;
    after_these(alloc, place, these.as_slice(), before)
}

// Whether there is one component, has the number 1, and its properties changed last at this place.
fn is_changed(components: &[Component], place: u64) -> bool {
    match components {
        [component] => component.number == 1 && component.changed == Some(place),
        _ => false,
    }
}

// With a configuration of its own.
fn keeps_its_number(
    alloc: Global,
    row: &BundleRow,
    own: &[Configuration],
    before: &[Component],
) -> bool {
    match after(alloc, 6, row, own, before) {
        Ok(second) => is_changed(second.as_slice(), 6),
        Err(_) => false,
    }
}

fn is_configured(alloc: Global, row: &BundleRow, own: &[Configuration]) -> bool {
    match after(alloc, 5, row, &[], &[]) {
        Ok(first) => keeps_its_number(alloc, row, own, first.as_slice()),
        Err(_) => false,
    }
}

fn has_its_number(alloc: Global, row: &BundleRow) -> bool {
    match configuration(alloc, "m", 2) {
        Ok(own) => is_configured(alloc, row, &[own]),
        Err(_) => false,
    }
}

// One of the factory is one too many where there may be none.
fn is_one_too_many(alloc: Global, row: &BundleRow) -> bool {
    match configurations(alloc) {
        Ok(own) => {
            are_more_than(0, &[view(row)], own.as_slice())
                && !are_more_than(1, &[view(row)], own.as_slice())
        }
        Err(_) => false,
    }
}

/// What is told of `m`.
#[derive(Clone, Copy)]
enum Story {
    Number,
    TooMany,
}

fn holds(alloc: Global, story: Story) -> bool {
    match bundle(alloc, 1, 32, "m") {
        Ok(row) => match story {
            Story::Number => has_its_number(alloc, &row),
            Story::TooMany => is_one_too_many(alloc, &row),
        },
        Err(_) => false,
    }
}

// `m` without a configuration, and then with one.
#[test]
fn a_number_is_kept_until_it_ceases(rt: HostRuntime) {
    assert!(rt; holds(rt.alloc(), Story::Number));
}

// A configuration of a factory makes one.
#[test]
fn more_than_there_may_be_are_told(rt: HostRuntime) {
    assert!(rt; holds(rt.alloc(), Story::TooMany));
}
