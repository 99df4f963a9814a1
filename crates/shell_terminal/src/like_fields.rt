//! Fields of documents that are passed over and look like one that is read.

use crate::argument::argument;
use crate::fields::{DESCRIPTION, DOCUMENT, Field, REFERENCE, field_of};
use crate::hints::Hints;
use crate::near_words::Nearest;
use crate::places::{entry_place, reference_place};
use prop_map::OutOfMemory;
use serde_json::Value;

/// Tells of such fields in the document of an `install` or an `update`; of another line it tells nothing.
pub(crate) fn tell_like_fields(hints: &mut Hints, line: &str) -> Result<(), OutOfMemory> {
    let Some(text) = document_of(line) else {
        return Ok(());
    };
    match Value::from_str(hints.alloc(), text) {
        Ok(document) => tell_in_document(hints, &document),
        Err(_) => Ok(()),
    }
}

// The text of the document of a line.
fn document_of(line: &str) -> Option<&str> {
    if !line.starts_with("install ") && !line.starts_with("update ") {
        return None;
    }
    let (_, text) = argument(line)?;
    Some(text)
}

// Tells of those of a document, of its descriptions and of their references.
fn tell_in_document(hints: &mut Hints, document: &Value) -> Result<(), OutOfMemory> {
    tell_in(hints, "", document, DOCUMENT)?;
    let Some(entries) = document.get("components").and_then(Value::as_object) else {
        return Ok(());
    };
    for (name, description) in entries.iter() {
        if hints.are_many() {
            return Ok(());
        }
        tell_in_description(hints, name.as_str(), description)?;
    }
    Ok(())
}

fn tell_in_description(
    hints: &mut Hints,
    name: &str,
    description: &Value,
) -> Result<(), OutOfMemory> {
    let place = entry_place(hints.alloc(), name)?;
    tell_in(hints, place.as_str(), description, DESCRIPTION)?;
    let Some(references) = description.get("references").and_then(Value::as_array) else {
        return Ok(());
    };
    for (at, reference) in references.as_slice().iter().enumerate() {
        if hints.are_many() {
            return Ok(());
        }
        let place = reference_place(hints.alloc(), name, at.saturating_add(1), reference)?;
        tell_in(hints, place.as_str(), reference, REFERENCE)?;
    }
    Ok(())
}

// Tells of those of one object.
fn tell_in(
    hints: &mut Hints,
    place: &str,
    object: &Value,
    fields: &'static [Field],
) -> Result<(), OutOfMemory> {
    let Some(members) = object.as_object() else {
        return Ok(());
    };
    for key in members.keys() {
        if !hints.are_many() {
            tell_key(hints, place, key.as_str(), fields)?;
        }
    }
    Ok(())
}

// Tells of a key that is none of the fields and looks like one of them.
fn tell_key(
    hints: &mut Hints,
    place: &str,
    key: &str,
    fields: &'static [Field],
) -> Result<(), OutOfMemory> {
    let alloc = hints.alloc();
    if field_of(fields, key).is_some() {
        return Ok(());
    }
    let mut nearest = Nearest::none();
    for field in fields {
        nearest.look_at(alloc, key, field.0)?;
    }
    match nearest.known() {
        Some(like) => {
            hints.tell(format!(in alloc; "{place}`{key}` is passed over; `{like}` is read")?)
        }
        None => Ok(()),
    }
}
