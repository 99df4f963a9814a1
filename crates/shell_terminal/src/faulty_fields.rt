//! Which object of a description has the field that is at fault.

use crate::fields::{DESCRIPTION, Field, REFERENCE, Takes, field_of, is_of_type};
use serde_json::Value;

/// How a field is at fault.
#[derive(Clone, Copy)]
pub(crate) enum FieldFault {
    Missing,
    WrongType,
    BadWord,
}

/// A field at fault: where it stands, and what it is.
#[derive(Clone, Copy)]
pub(crate) struct Place<'v> {
    /// The reference that it is a field of, and its number, from 1 on; none where it is the description's.
    pub(crate) reference: Option<(usize, &'v Value)>,
    pub(crate) field: &'static Field,
}

/// The first field of this name, of a description or of one of its references, that is at fault so.
pub(crate) fn place_of<'v>(
    description: &'v Value,
    name: &str,
    fault: FieldFault,
) -> Option<Place<'v>> {
    match field_of(DESCRIPTION, name) {
        Some(field) if is_at_fault(description, field, fault) => Some(Place {
            reference: None,
            field,
        }),
        _ => place_in_references(description, field_of(REFERENCE, name)?, fault),
    }
}

fn place_in_references<'v>(
    description: &'v Value,
    field: &'static Field,
    fault: FieldFault,
) -> Option<Place<'v>> {
    let references = description.get("references")?.as_array()?;
    for (at, reference) in references.as_slice().iter().enumerate() {
        if is_at_fault(reference, field, fault) {
            return Some(Place {
                reference: Some((at.saturating_add(1), reference)),
                field,
            });
        }
    }
    None
}

// Whether a field of an object is at fault so. One that is null counts as missing.
fn is_at_fault(object: &Value, field: &Field, fault: FieldFault) -> bool {
    let given = match object.get(field.0) {
        Some(value) if !value.is_null() => Some(value),
        _ => None,
    };
    match (fault, given) {
        (FieldFault::Missing, None) => true,
        (FieldFault::Missing, Some(value)) => value.as_str() == Some(""),
        (FieldFault::WrongType, Some(value)) => !is_of_type(value, field.1),
        (FieldFault::BadWord, Some(value)) => is_no_word(value, field.1),
        (FieldFault::WrongType | FieldFault::BadWord, None) => false,
    }
}

fn is_no_word(value: &Value, takes: Takes) -> bool {
    match (takes, value.as_str()) {
        (Takes::Words(words), Some(text)) => !words.iter().any(|word| *word == text),
        _ => false,
    }
}
