//! All that is told of a component configuration, as JSON (OSGi Compendium 8, chapter 112, "ComponentConfigurationDTO",
//! "ComponentDescriptionDTO").
ghost use Rattle.component_state.specs.Rows.{scope_text};
ghost use Rattle.scr_report.specs.DetailData.{details_data};
ghost use Rattle.scr_report.specs.DetailMembers.{with_description, with_details, with_references, with_state};
ghost use Rattle.serde_json.specs.View.{members_view, view};
ghost use Rattle.serde_json.specs.Written.{compact_text};
ghost use Rattle.std.specs.Prelude.{◌≡◌, IfOk, OnOk, string_bytes};

use crate::lists::{number_or_null, put_text, text_or_null};
use crate::property_values::{properties_value, texts_value};
use crate::reference_details::{satisfied_details, unsatisfied_details};
use component_dto::{Description, Scope};
use prop_map::OutOfMemory;
use scr_readers::{ComponentDetails, ReferenceDetails};
use serde_json::{Map, Value, put};
use std::alloc::Global;

/// The text of the details of the component configuration of a number, without blanks.
///
/// # Errors
/// Only want of memory.
pub fn details_text_of(
    alloc: Global,
    id: u64,
    details: &ComponentDetails,
) -> Result<String, OutOfMemory>
    ensures { IfOk result (λ text. string_bytes text ≡ compact_text (details_data id details.now)) }
{
    let value = members_of(alloc, id, details)?;
    let text = value.to_string(alloc)?;
    Ok(text)
}

fn members_of(alloc: Global, id: u64, details: &ComponentDetails) -> Result<Value, OutOfMemory>
    ensures { IfOk result (λ value. view value ≡ details_data id details.now) }
{
    let mut members = Map::new(alloc);
    put_members(alloc, &mut members, id, details)?;
    Ok(Value::Object(members))
}

fn put_members(
    alloc: Global,
    members: &mut Map<String, Value>,
    id: u64,
    details: &ComponentDetails,
) -> Result<(), OutOfMemory>
    ensures { OnOk result (members_view members.new.entries ≡ with_details id details.now (members_view members.old.entries)) }
{
    put_description(alloc, members, details.description.get())?;
    put_state(alloc, members, id, details)?;
    put_references(alloc, members, details.references.as_slice())
}

// What the description says.
fn put_description(
    alloc: Global,
    members: &mut Map<String, Value>,
    description: &Description,
) -> Result<(), OutOfMemory>
    ensures { OnOk result (members_view members.new.entries ≡ with_description description.now (members_view members.old.entries)) }
{
    let pids = description.configuration_pids.as_slice();
    let interfaces = description.service_interfaces.as_slice();
    put(
        members,
        alloc,
        "configurationPids",
        texts_value(alloc, pids)?,
    )?;
    put(
        members,
        alloc,
        "immediate",
        Value::Bool(description.immediate),
    )?;
    put_text(
        alloc,
        members,
        "implementationClass",
        description.implementation_class.as_str(),
    )?;
    put_text(alloc, members, "name", description.name.as_str())?;
    put_text(alloc, members, "scope", scope_text(description.scope))?;
    put(
        members,
        alloc,
        "serviceInterfaces",
        texts_value(alloc, interfaces)?,
    )
}

// How it stands with the component configuration.
fn put_state(
    alloc: Global,
    members: &mut Map<String, Value>,
    id: u64,
    details: &ComponentDetails,
) -> Result<(), OutOfMemory>
    ensures { OnOk result (members_view members.new.entries ≡ with_state id details.now (members_view members.old.entries)) }
{
    let factory_configuration = details.factory_configuration.as_ref();
    put(members, alloc, "bundle", Value::from(details.bundle))?;
    put(
        members,
        alloc,
        "factoryConfiguration",
        text_or_null(alloc, factory_configuration)?,
    )?;
    put(members, alloc, "failure", number_or_null(details.failure))?;
    put(members, alloc, "id", Value::from(id))?;
    put(
        members,
        alloc,
        "properties",
        properties_value(alloc, &details.properties)?,
    )?;
    put(members, alloc, "service", number_or_null(details.service))?;
    put(members, alloc, "state", Value::from(details.state))
}

fn put_references(
    alloc: Global,
    members: &mut Map<String, Value>,
    references: &[ReferenceDetails],
) -> Result<(), OutOfMemory>
    ensures { OnOk result (members_view members.new.entries ≡ with_references references.now (members_view members.old.entries)) }
{
    put(
        members,
        alloc,
        "satisfiedReferences",
        satisfied_details(alloc, references)?,
    )?;
    put(
        members,
        alloc,
        "unsatisfiedReferences",
        unsatisfied_details(alloc, references)?,
    )
}

fn scope_text(scope: Scope) -> &'static str
    ensures { result.now ≡ scope_text scope }
{
    match scope {
        Scope::Singleton => "singleton",
        Scope::Bundle => "bundle",
        Scope::Prototype => "prototype",
    }
}
