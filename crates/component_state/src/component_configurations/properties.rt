//! The properties of component configurations (OSGi Compendium 8, chapter 112, "Component Properties").
ghost use Rattle.component_state.specs.ComponentConfigurations.{component_properties, target_properties, with_pids, with_target};
ghost use Rattle.config_admin.specs.declared.configuration.Configuration.{Configuration};
ghost use Rattle.prop_map.specs.Maps.{merge, put};
ghost use Rattle.prop_map.specs.declared.properties.Property.{Property};
ghost use Rattle.prop_map.specs.declared.value.Value.TheVariants.{Text};
ghost use Rattle.reference_match.specs.Needs.{target_key};
ghost use Rattle.std.specs.Prelude.{◌≡◌, [], IfOk, List, OnOk, codes, fold, map, string_bytes};

use super::property_draft::PropertyDraft;
use component_dto::{Description, Reference};
use config_admin::Configuration;
use prop_map::{Copies, List, OutOfMemory, Properties, Str, Value};
use std::alloc::Global;

/// The properties of a component configuration with these configurations, but for its number: the targets that its
/// references name, the description's own, those of the configurations, and its name, later ones over earlier ones.
///
/// # Errors
/// Only want of memory.
pub(crate) fn component_properties(
    alloc: Global,
    description: &Description,
    configurations: &[&Configuration],
) -> Result<Properties, OutOfMemory>
    ensures { IfOk result (λ properties. properties ≡ component_properties description.now (map (λ c. c.now) configurations.now)) }
{
    let mut properties = given_properties(alloc, description, configurations)?;
    put_pids(alloc, &mut properties, configurations)?;
    put_name(alloc, &mut properties, &description.name)?;
    properties.properties(alloc)
}

// But for what the platform adds.
fn given_properties(
    alloc: Global,
    description: &Description,
    configurations: &[&Configuration],
) -> Result<PropertyDraft, OutOfMemory>
    ensures { IfOk result (λ properties. properties ≡ fold (λ (ps : List Property) (c : Configuration). merge ps c.properties) (merge (target_properties description.now) description.now.properties) (map (λ c. c.now) configurations.now)) }
{
    let mut properties = target_properties(alloc, description)?;
    put_all(alloc, &mut properties, &description.properties)?;
    put_configured(alloc, &mut properties, configurations)?;
    Ok(properties)
}

fn put_name(alloc: Global, properties: &mut PropertyDraft, name: &Str) -> Result<(), OutOfMemory>
    ensures { OnOk result (properties.new ≡ put properties.old (codes "component.name") (Text name.now)) }
{
    let name = name.copy(alloc)?;
    properties.set(alloc, "component.name", Value::Text(name))
}

fn target_properties(alloc: Global, description: &Description) -> Result<PropertyDraft, OutOfMemory>
    ensures { IfOk result (λ properties. properties ≡ target_properties description.now) }
{
    let mut properties = named_targets(alloc, description.references.as_slice())?;
    if description.implicit {
        put_target(
            alloc,
            &mut properties,
            "osgi.ds.satisfying.condition",
            "(osgi.condition.id=true)",
        )?;
    }
    Ok(properties)
}

fn named_targets(alloc: Global, references: &[Reference]) -> Result<PropertyDraft, OutOfMemory>
    ensures { IfOk result (λ properties. properties ≡ fold with_target [] references.now) }
{
    let mut properties = PropertyDraft::new(alloc);
    for reference in references {
        put_named_target(alloc, &mut properties, reference)?;
    }
    Ok(properties)
}

fn put_named_target(
    alloc: Global,
    properties: &mut PropertyDraft,
    reference: &Reference,
) -> Result<(), OutOfMemory>
    ensures { OnOk result (properties.new ≡ with_target properties.old reference.now) }
{
    match &reference.target {
        Some(target) => put_target(alloc, properties, reference.name.as_str(), target.as_str()),
        None => Ok(()),
    }
}

fn put_target(
    alloc: Global,
    properties: &mut PropertyDraft,
    name: &str,
    target: &str,
) -> Result<(), OutOfMemory>
    ensures { OnOk result (properties.new ≡ put properties.old (target_key name.now) (Text target.now)) }
{
    let key = target_key(alloc, name)?;
    let target = Str::of(String::from_str(alloc, target)?);
    properties.set(alloc, key.as_str(), Value::Text(target))
}

fn target_key(alloc: Global, name: &str) -> Result<String, OutOfMemory>
    ensures { IfOk result (λ key. string_bytes key ≡ target_key name.now) }
{
    let mut key = String::from_str(alloc, name)?;
    key.push_str(".target")?;
    Ok(key)
}

fn put_all(
    alloc: Global,
    properties: &mut PropertyDraft,
    over: &Properties,
) -> Result<(), OutOfMemory>
    ensures { OnOk result (properties.new ≡ merge properties.old over.now) }
{
    for property in over.as_slice() {
        properties.set(alloc, property.key.as_str(), property.value.copy(alloc)?)?;
    }
    Ok(())
}

fn put_configured(
    alloc: Global,
    properties: &mut PropertyDraft,
    configurations: &[&Configuration],
) -> Result<(), OutOfMemory>
    ensures { OnOk result (properties.new ≡ fold (λ (ps : List Property) (c : Configuration). merge ps c.properties) properties.old (map (λ c. c.now) configurations.now)) }
{
    for configuration in configurations {
        put_all(alloc, properties, &configuration.properties)?;
    }
    Ok(())
}

// Where several configurations count, their PIDs are one property.
fn put_pids(
    alloc: Global,
    properties: &mut PropertyDraft,
    configurations: &[&Configuration],
) -> Result<(), OutOfMemory>
    ensures { OnOk result (properties.new ≡ with_pids (map (λ c. c.now) configurations.now) properties.old) }
{
    if configurations.len() < 2 {
        return Ok(());
    }
    let pids = pids_of(alloc, configurations)?;
    properties.set(alloc, "service.pid", Value::Texts(pids))
}

fn pids_of(alloc: Global, configurations: &[&Configuration]) -> Result<List<Str>, OutOfMemory>
    ensures { IfOk result (λ pids. pids ≡ map (λ (c : Configuration). c.pid) (map (λ c. c.now) configurations.now)) }
{
    let mut pids = Vec::new(alloc);
    for configuration in configurations {
        pids.push(configuration.pid.copy(alloc)?)?;
    }
    Ok(List::of(pids))
}
