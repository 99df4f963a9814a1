//! The fields of a description.
ghost use Rattle.std.specs.Prelude.{◌≡◌, IfOk};
ghost use Rattle.std.specs.Option.{unwrap_or};
ghost use Rattle.serde_json.specs.View.{view};
ghost use Rattle.component_dto.specs.Descriptions.{given_fields, life_fields, properties_at, properties_in};
ghost use Rattle.component_dto.specs.Faults.{Reads};

use crate::configuration_pids::pids_of;
use crate::fields::{flag_at, given, needed_text_at, text_at, texts_at, word_at};
use crate::references::{ReferenceFields, references_at};
use crate::text_lists::each_once;
use crate::{ConfigurationPolicy, DescriptionFault, Scope};
use prop_map::{Copies, List, OutOfMemory, PropFault, Properties, Str};
use serde_json::Value;
use std::alloc::Global;

/// The fields of a description, each of its type. What depends on several of them has no default yet.
#[derive(Drop)]
pub(crate) struct GivenFields {
    pub(crate) name: Str,
    pub(crate) factory: Option<Str>,
    pub(crate) scope: Scope,
    pub(crate) implementation_class: Str,
    pub(crate) default_enabled: bool,
    pub(crate) immediate: Option<bool>,
    pub(crate) service_interfaces: List<Str>,
    pub(crate) properties: Properties,
    pub(crate) references: List<ReferenceFields>,
    pub(crate) modified: Option<Str>,
    pub(crate) configuration_policy: ConfigurationPolicy,
    pub(crate) configuration_pids: List<Str>,
}

/// The fields of a description.
///
/// # Errors
/// The fault of the first field that has one, in the order of the fields.
pub(crate) fn given_fields(alloc: Global, json: &Value) -> Result<GivenFields, DescriptionFault>
    ensures { Reads result (given_fields (view json.now)) }
{
    let name = text_at(alloc, json, "name")?;
    let factory = text_at(alloc, json, "factory")?;
    let scope = word_at(alloc, json, "scope")?;
    let implementation_class = needed_text_at(alloc, json, "implementationClass")?;
    let default_enabled = flag_at(alloc, json, "defaultEnabled")?;
    let immediate = flag_at(alloc, json, "immediate")?;
    let service_interfaces = texts_at(alloc, json, "serviceInterfaces")?;
    let properties = properties_at(alloc, json, "properties")?;
    let references = references_at(alloc, json, "references")?;
    let life = life_fields(alloc, json)?;
    let name = text_or(alloc, name, &implementation_class)?;
    let configuration_pids = pids_of(alloc, &name, life.configuration_pids)?;
    Ok(GivenFields {
        name,
        factory,
        scope: scope.unwrap_or(Scope::Singleton),
        implementation_class,
        default_enabled: default_enabled.unwrap_or(true),
        immediate,
        service_interfaces: each_once(alloc, service_interfaces)?,
        properties,
        references,
        modified: life.modified,
        configuration_policy: life
            .configuration_policy
            .unwrap_or(ConfigurationPolicy::Optional),
        configuration_pids,
    })
}

/// The fields behind the references: callbacks of a component's life, and its configurations.
#[derive(Drop)]
struct LifeFields {
    modified: Option<Str>,
    configuration_policy: Option<ConfigurationPolicy>,
    configuration_pids: List<Str>,
}

// They are read together, so that fewer texts are at hand where one of them is at fault.
fn life_fields(alloc: Global, json: &Value) -> Result<LifeFields, DescriptionFault>
    ensures { Reads result (life_fields (view json.now)) }
{
    let _ = text_at(alloc, json, "activate")?;
    let _ = text_at(alloc, json, "deactivate")?;
    let modified = text_at(alloc, json, "modified")?;
    let configuration_policy = word_at(alloc, json, "configurationPolicy")?;
    let configuration_pids = texts_at(alloc, json, "configurationPid")?;
    Ok(LifeFields {
        modified,
        configuration_policy,
        configuration_pids,
    })
}

/// The text, or a copy of the default.
pub(crate) fn text_or(alloc: Global, text: Option<Str>, default: &Str) -> Result<Str, OutOfMemory>
    ensures { IfOk result (λ found. found ≡ unwrap_or text default.now) }
{
    match text {
        Some(text) => Ok(text),
        None => default.copy(alloc),
    }
}

fn properties_at(alloc: Global, json: &Value, field: &str) -> Result<Properties, DescriptionFault>
    ensures { Reads result (properties_at field.now (view json.now)) }
{
    match given(json, field) {
        None => Ok(Properties::new(alloc)),
        Some(value) => properties_in(alloc, value, field),
    }
}

fn properties_in(alloc: Global, value: &Value, field: &str) -> Result<Properties, DescriptionFault>
    ensures { Reads result (properties_in field.now (view value.now)) }
{
    match Properties::from_json(alloc, value) {
        Ok(properties) => Ok(properties),
        Err(PropFault::OutOfMemory) => Err(DescriptionFault::OutOfMemory),
        Err(PropFault::NotObject) => Err(DescriptionFault::WrongType {
            field: Str::spell(alloc, field)?,
        }),
        Err(fault) => Err(DescriptionFault::BadProperty { fault }),
    }
}
