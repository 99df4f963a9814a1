//! References read from JSON.
ghost use Rattle.std.specs.Prelude.{◌≡◌, option_map};
ghost use Rattle.serde_json.specs.View.{view, items_view};
ghost use Rattle.component_dto.specs.Faults.{Reads};
ghost use Rattle.component_dto.specs.Fields.{each_read, filled};
ghost use Rattle.component_dto.specs.References.{are_objects, reference_fields, references_at, references_in};

use crate::fields::{given, needed_text_at, text_at, word_at};
use crate::{DescriptionFault, Reference};
use prop_map::{Cardinality, Copies, List, Policy, PolicyOption, Str};
use serde_json::Value;
use std::alloc::Global;

/// Which instances of a service a reference takes.
#[derive(Clone, Copy, Debug, PartialEq, Eq)]
pub(crate) enum ReferenceScope {
    /// `bundle`: one for its bundle.
    Bundle,
    /// `prototype`: one for each use.
    Prototype,
    /// `prototype_required`: one for each use, of services that give it.
    PrototypeRequired,
}

/// The fields of a reference, with their defaults.
#[derive(Drop)]
pub(crate) struct ReferenceFields {
    pub(crate) reference: Reference,
    pub(crate) scope: ReferenceScope,
}

/// The references of a field, none where it is missing.
///
/// # Errors
/// `WrongType` exactly where it is there and no list of objects; else the first fault in the first reference with one.
pub(crate) fn references_at(
    alloc: Global,
    json: &Value,
    field: &str,
) -> Result<List<ReferenceFields>, DescriptionFault>
    ensures { Reads result (references_at field.now (view json.now)) }
{
    match given(json, field) {
        None => Ok(List::of(Vec::new(alloc))),
        Some(value) => references_in(alloc, value, field),
    }
}

fn references_in(
    alloc: Global,
    value: &Value,
    field: &str,
) -> Result<List<ReferenceFields>, DescriptionFault>
    ensures { Reads result (references_in field.now (view value.now)) }
{
    match value.as_array() {
        Some(items) if are_objects(items.as_slice()) => each_reference(alloc, items.as_slice()),
        _ => Err(DescriptionFault::WrongType {
            field: Str::spell(alloc, field)?,
        }),
    }
}

fn are_objects(items: &[Value]) -> bool
    ensures { result ≡ are_objects (items_view items.now) }
{
    for item in items {
        if !item.is_object() {
            return false;
        }
    }
    true
}

fn each_reference(alloc: Global, items: &[Value]) -> Result<List<ReferenceFields>, DescriptionFault>
    ensures { Reads result (each_read reference_fields (items_view items.now)) }
{
    let mut found = Vec::new(alloc);
    for item in items {
        found.push(reference_fields(alloc, item)?)?;
    }
    Ok(List::of(found))
}

fn reference_fields(alloc: Global, json: &Value) -> Result<ReferenceFields, DescriptionFault>
    ensures { Reads result (reference_fields (view json.now)) }
{
    let name = text_at(alloc, json, "name")?;
    let interface_name = needed_text_at(alloc, json, "interfaceName")?;
    let cardinality = word_at(alloc, json, "cardinality")?;
    let policy = word_at(alloc, json, "policy")?;
    let policy_option = word_at(alloc, json, "policyOption")?;
    let target = text_at(alloc, json, "target")?;
    let updated = text_at(alloc, json, "updated")?;
    let scope = word_at(alloc, json, "scope")?;
    let reference = Reference {
        name: match name {
            Some(name) => name,
            None => interface_name.copy(alloc)?,
        },
        interface_name,
        cardinality: cardinality.unwrap_or(Cardinality::One),
        policy: policy.unwrap_or(Policy::Static),
        policy_option: policy_option.unwrap_or(PolicyOption::Reluctant),
        target: filled(target),
        updated,
    };
    let scope = scope.unwrap_or(ReferenceScope::Bundle);
    Ok(ReferenceFields { reference, scope })
}

// A text that isn't empty.
fn filled(text: Option<Str>) -> Option<Str>
    ensures { result ≡ filled text }
{
    text.filter(|text| !text.as_str().is_empty())
}
