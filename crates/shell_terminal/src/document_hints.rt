//! Where a document is at fault, and what its fields take.

use crate::excerpt::text_before;
use crate::faulty_fields::{FieldFault, place_of};
use crate::fields::{DOCUMENT, field_of, taken};
use crate::hints::Hints;
use crate::places::{entry_place, reference_place};
use bundle_doc::DocFault;
use component_dto::DescriptionFault;
use prop_map::OutOfMemory;
use serde_json::Value;

/// Tells of a document's fault what the text of the document says of it.
pub(crate) fn tell_of_document(
    hints: &mut Hints,
    text: &str,
    fault: &DocFault,
) -> Result<(), OutOfMemory> {
    let Ok(document) = Value::from_str(hints.alloc(), text) else {
        return Ok(());
    };
    match fault {
        DocFault::MissingField { field } | DocFault::WrongType { field } => {
            tell_of_field(hints, field.as_str())
        }
        DocFault::InEntry { name, fault } => {
            tell_of_entry(hints, &document, name.as_str(), fault)
        }
        _ => Ok(()),
    }
}

// What a field of a document takes.
fn tell_of_field(hints: &mut Hints, name: &str) -> Result<(), OutOfMemory> {
    let hint = match field_of(DOCUMENT, name) {
        Some(field) => {
            let takes = taken(hints.alloc(), field.1)?;
            format!(in hints.alloc(); "`{name}` takes {}", takes.as_str())?
        }
        None => String::from_str(hints.alloc(), "a document is a JSON object")?,
    };
    hints.tell(hint)
}

fn tell_of_entry(
    hints: &mut Hints,
    document: &Value,
    entry: &str,
    fault: &DescriptionFault,
) -> Result<(), OutOfMemory> {
    let Some(description) = document.get("components").and_then(|all| all.get(entry)) else {
        return Ok(());
    };
    match fault {
        DescriptionFault::MissingField { field } => {
            tell_of_place(
                hints,
                entry,
                description,
                field.as_str(),
                FieldFault::Missing,
            )
        }
        DescriptionFault::WrongType { field } => {
            tell_of_place(
                hints,
                entry,
                description,
                field.as_str(),
                FieldFault::WrongType,
            )
        }
        DescriptionFault::BadWord { field } => {
            tell_of_place(
                hints,
                entry,
                description,
                field.as_str(),
                FieldFault::BadWord,
            )
        }
        DescriptionFault::BadTarget { name, at } => {
            tell_of_target(hints, description, name.as_str(), *at)
        }
        _ => Ok(()),
    }
}

// The description or the reference whose field is at fault, and what the field takes.
fn tell_of_place(
    hints: &mut Hints,
    entry: &str,
    description: &Value,
    name: &str,
    fault: FieldFault,
) -> Result<(), OutOfMemory> {
    let Some(found) = place_of(description, name, fault) else {
        let place = entry_place(hints.alloc(), entry)?;
        return hints.tell(format!(in hints.alloc();
            "{}a description is an object",
            place.as_str()
        )?);
    };
    let place = match found.reference {
        None => entry_place(hints.alloc(), entry)?,
        Some((number, reference)) => reference_place(hints.alloc(), entry, number, reference)?,
    };
    let takes = taken(hints.alloc(), found.field.1)?;
    hints.tell(format!(in hints.alloc(); "{}`{name}` takes {}", place.as_str(), takes.as_str())?)
}

// The text of the target up to where it breaks. The reference is the first of this name.
fn tell_of_target(
    hints: &mut Hints,
    description: &Value,
    name: &str,
    at: usize,
) -> Result<(), OutOfMemory> {
    let Some(references) = description.get("references").and_then(Value::as_array) else {
        return Ok(());
    };
    let target = references
        .as_slice()
        .iter()
        .find(|reference| is_named(reference, name))
        .and_then(|reference| reference.get("target"))
        .and_then(Value::as_str);
    match target {
        Some(target) => {
            let front = text_before(target, at);
            hints.tell(format!(in hints.alloc(); "the target of `{name}` breaks behind `{front}`")?)
        }
        None => Ok(()),
    }
}

// Whether a reference has this name, its own or else that of its interface.
fn is_named(reference: &Value, name: &str) -> bool {
    match reference.get("name").and_then(Value::as_str) {
        Some(own) => own == name,
        None => reference.get("interfaceName").and_then(Value::as_str) == Some(name),
    }
}
