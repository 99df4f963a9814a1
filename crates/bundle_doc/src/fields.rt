//! The fields of a document.
ghost use Rattle.std.specs.Prelude.{◌≡◌, option_map};
ghost use Rattle.serde_json.specs.View.{view};
ghost use Rattle.bundle_doc.specs.Documents.{needed_text_at, object_or_none, text_at};
ghost use Rattle.bundle_doc.specs.Faults.{Reads};

use crate::DocFault;
use component_dto::given;
use prop_map::Str;
use serde_json::Value;
use std::alloc::Global;

/// The text of a field that may be missing.
///
/// # Errors
/// `WrongType` exactly where it is there and no text.
pub(crate) fn text_at(alloc: Global, json: &Value, field: &str) -> Result<Option<Str>, DocFault>
    ensures { Reads result (text_at field.now (view json.now)) }
{
    match given(json, field) {
        None => Ok(None),
        Some(value) => match value.as_str() {
            Some(text) => Ok(Some(Str::spell(alloc, text)?)),
            None => Err(DocFault::WrongType {
                field: Str::spell(alloc, field)?,
            }),
        },
    }
}

/// The text of a field that has to be there.
///
/// # Errors
/// `WrongType` exactly where it is no text, `MissingField` exactly where it is missing or empty.
pub(crate) fn needed_text_at(alloc: Global, json: &Value, field: &str) -> Result<Str, DocFault>
    ensures { Reads result (needed_text_at field.now (view json.now)) }
{
    match text_at(alloc, json, field)? {
        Some(text) if !text.as_str().is_empty() => Ok(text),
        _ => Err(DocFault::MissingField {
            field: Str::spell(alloc, field)?,
        }),
    }
}

/// Tests that what is there is an object.
///
/// # Errors
/// `WrongType` exactly where something is there that is no object.
pub(crate) fn check_object(
    alloc: Global,
    value: Option<&Value>,
    field: &str,
) -> Result<(), DocFault>
    ensures { Reads result (object_or_none field.now (option_map (λ v. view v.now) value.entry)) }
{
    match value {
        Some(value) if !value.is_object() => Err(DocFault::WrongType {
            field: Str::spell(alloc, field)?,
        }),
        _ => Ok(()),
    }
}
