//! Values for tests.

use component_dto::{ConfigurationPolicy, Description, Reference, Scope};
use kind_trait::Site;
use prop_map::{Cardinality, List, OutOfMemory, Policy, PolicyOption, Properties, Str, Value};
use std::alloc::Global;

// A list of one item.
pub(crate) fn one<T: Drop>(alloc: Global, item: T) -> Result<List<T>, OutOfMemory> {
    let mut items = Vec::new(alloc);
    items.push(item)?;
    Ok(List::of(items))
}

fn text_property(alloc: Global, key: &str, value: &str) -> Result<Properties, OutOfMemory> {
    let value = Str::spell(alloc, value)?;
    let mut properties = Properties::new(alloc);
    properties.set(alloc, key, Value::Text(value))?;
    Ok(properties)
}

// What component code is told of an instance of a class with one text property.
pub(crate) fn site(
    alloc: Global,
    class: &str,
    key: &str,
    value: &str,
) -> Result<Site, OutOfMemory> {
    let class = Str::spell(alloc, class)?;
    match text_property(alloc, key, value) {
        Ok(properties) => Ok(Site { class, properties }),
        Err(error) => Err(error),
    }
}

// A static, reluctant reference to one service of the interface.
pub(crate) fn needs(alloc: Global, interface: &str) -> Result<Reference, OutOfMemory> {
    let name = Str::spell(alloc, interface)?;
    Ok(Reference {
        name,
        interface_name: Str::spell(alloc, interface)?,
        cardinality: Cardinality::One,
        policy: Policy::Static,
        policy_option: PolicyOption::Reluctant,
        target: None,
        updated: None,
    })
}

/// How a component and its class are called, and what it provides.
#[derive(Drop)]
struct Names {
    name: Str,
    class: Str,
    provided: List<Str>,
}

fn named(alloc: Global, name: &str, provided: &str) -> Result<Names, OutOfMemory> {
    let provided = one(alloc, Str::spell(alloc, provided)?)?;
    let class = Str::spell(alloc, name)?;
    Ok(Names {
        name: Str::spell(alloc, name)?,
        class,
        provided,
    })
}

fn of_names(alloc: Global, names: Names, references: List<Reference>) -> Description {
    Description {
        name: names.name,
        scope: Scope::Singleton,
        implementation_class: names.class,
        default_enabled: true,
        immediate: false,
        service_interfaces: names.provided,
        properties: Properties::new(alloc),
        references,
        modified: None,
        configuration_policy: ConfigurationPolicy::Optional,
        configuration_pids: List::of(Vec::new(alloc)),
        implicit: false,
    }
}

// A component that provides this interface, and has these references.
pub(crate) fn described(
    alloc: Global,
    name: &str,
    provided: &str,
    references: List<Reference>,
) -> Result<Description, OutOfMemory> {
    match named(alloc, name, provided) {
        Ok(names) => Ok(of_names(alloc, names, references)),
        Err(error) => Err(error),
    }
}
