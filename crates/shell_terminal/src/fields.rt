//! The fields of documents, and what they take.

use prop_map::OutOfMemory;
use serde_json::Value;
use std::alloc::Global;

/// What a field takes.
#[derive(Clone, Copy)]
pub(crate) enum Takes {
    Text,
    FilledText,
    Flag,
    Texts,
    Object,
    Objects,
    Words(&'static [&'static str]),
}

/// A field: its name, and what it takes.
pub(crate) struct Field(pub(crate) &'static str, pub(crate) Takes);

/// The fields of a document.
pub(crate) const DOCUMENT: &[Field] = &[
    Field("location", Takes::FilledText),
    Field("manifest", Takes::Text),
    Field("components", Takes::Object),
];

/// Those of a description.
pub(crate) const DESCRIPTION: &[Field] = &[
    Field("name", Takes::Text),
    Field("factory", Takes::Text),
    Field("scope", Takes::Words(&["singleton", "bundle", "prototype"])),
    Field("implementationClass", Takes::FilledText),
    Field("defaultEnabled", Takes::Flag),
    Field("immediate", Takes::Flag),
    Field("serviceInterfaces", Takes::Texts),
    Field("properties", Takes::Object),
    Field("references", Takes::Objects),
    Field("activate", Takes::Text),
    Field("deactivate", Takes::Text),
    Field("modified", Takes::Text),
    Field(
        "configurationPolicy",
        Takes::Words(&["optional", "require", "ignore"]),
    ),
    Field("configurationPid", Takes::Texts),
];

/// Those of a reference.
pub(crate) const REFERENCE: &[Field] = &[
    Field("name", Takes::Text),
    Field("interfaceName", Takes::FilledText),
    Field(
        "cardinality",
        Takes::Words(&["0..1", "1..1", "0..n", "1..n"]),
    ),
    Field("policy", Takes::Words(&["static", "dynamic"])),
    Field("policyOption", Takes::Words(&["reluctant", "greedy"])),
    Field("target", Takes::Text),
    Field("updated", Takes::Text),
    Field(
        "scope",
        Takes::Words(&["bundle", "prototype", "prototype_required"]),
    ),
];

/// The field of this name.
pub(crate) fn field_of(fields: &'static [Field], name: &str) -> Option<&'static Field> {
    fields.iter().find(|field| field.0 == name)
}

/// What a field takes, in words.
pub(crate) fn taken(alloc: Global, takes: Takes) -> Result<String, OutOfMemory> {
    match takes {
        Takes::Text => String::from_str(alloc, "a text"),
        Takes::FilledText => String::from_str(alloc, "a text that isn't empty"),
        Takes::Flag => String::from_str(alloc, "`true` or `false`"),
        Takes::Texts => String::from_str(alloc, "a list of texts"),
        Takes::Object => String::from_str(alloc, "an object"),
        Takes::Objects => String::from_str(alloc, "a list of objects"),
        Takes::Words(words) => one_of(alloc, words),
    }
}

fn one_of(alloc: Global, words: &[&str]) -> Result<String, OutOfMemory> {
    let mut text = String::from_str(alloc, "one of")?;
    let mut between = " ";
    for word in words {
        text.push_str(format!(in alloc; "{between}`{word}`")?.as_str())?;
        between = ", ";
    }
    Ok(text)
}

/// Whether a value is of the type that a field takes.
pub(crate) fn is_of_type(value: &Value, takes: Takes) -> bool {
    match takes {
        Takes::Text | Takes::FilledText | Takes::Words(_) => value.is_string(),
        Takes::Flag => value.is_boolean(),
        Takes::Object => value.is_object(),
        Takes::Texts => match value.as_array() {
            Some(items) => items.as_slice().iter().all(|item| item.is_string()),
            None => false,
        },
        Takes::Objects => match value.as_array() {
            Some(items) => items.as_slice().iter().all(|item| item.is_object()),
            None => false,
        },
    }
}
