//! The fields of a JSON object, each read by its type.
ghost use Rattle.std.specs.Prelude.{◌≡◌, IfOk, option_map};
ghost use Rattle.serde_json.specs.Find.{as_str};
ghost use Rattle.serde_json.specs.View.{view, items_view};
ghost use Rattle.prop_map.specs.JsonProperties.{each};
ghost use Rattle.component_dto.specs.Faults.{Reads};
ghost use Rattle.component_dto.specs.Fields.{flag_at, given, needed_text_at, text_at, texts_at, texts_in, word_at, word_in};

use crate::DescriptionFault;
use crate::words::Word;
use prop_map::{List, OutOfMemory, Str};
use serde_json::Value;
use std::alloc::Global;

/// The value of a field, where it is there and isn't null: a field that is null counts as missing.
pub fn given<'v>(json: &'v Value, field: &str) -> Option<&'v Value>
    ensures { option_map (λ v. view v.now) result ≡ given field.now (view json.now) }
{
    match json.get(field) {
        Some(Value::Null) | None => None,
        Some(value) => Some(value),
    }
}

/// The text of a field that may be missing.
///
/// # Errors
/// `WrongType` exactly where it is there and no text.
pub(crate) fn text_at(
    alloc: Global,
    json: &Value,
    field: &str,
) -> Result<Option<Str>, DescriptionFault>
    ensures { Reads result (text_at field.now (view json.now)) }
{
    match given(json, field) {
        None => Ok(None),
        Some(value) => match value.as_str() {
            Some(text) => Ok(Some(Str::spell(alloc, text)?)),
            None => Err(DescriptionFault::WrongType {
                field: Str::spell(alloc, field)?,
            }),
        },
    }
}

/// The text of a field that has to be there.
///
/// # Errors
/// `WrongType` exactly where it is no text, `MissingField` exactly where it is missing or empty.
pub(crate) fn needed_text_at(
    alloc: Global,
    json: &Value,
    field: &str,
) -> Result<Str, DescriptionFault>
    ensures { Reads result (needed_text_at field.now (view json.now)) }
{
    match text_at(alloc, json, field)? {
        Some(text) if !text.as_str().is_empty() => Ok(text),
        _ => Err(DescriptionFault::MissingField {
            field: Str::spell(alloc, field)?,
        }),
    }
}

/// The flag of a field that may be missing.
///
/// # Errors
/// `WrongType` exactly where it is there and no flag.
pub(crate) fn flag_at(
    alloc: Global,
    json: &Value,
    field: &str,
) -> Result<Option<bool>, DescriptionFault>
    ensures { Reads result (flag_at field.now (view json.now)) }
{
    match given(json, field) {
        None => Ok(None),
        Some(value) => match value.as_bool() {
            Some(flag) => Ok(Some(flag)),
            None => Err(DescriptionFault::WrongType {
                field: Str::spell(alloc, field)?,
            }),
        },
    }
}

/// The texts of a field, none where it is missing.
///
/// # Errors
/// `WrongType` exactly where it is there and no list of texts.
pub(crate) fn texts_at(
    alloc: Global,
    json: &Value,
    field: &str,
) -> Result<List<Str>, DescriptionFault>
    ensures { Reads result (texts_at field.now (view json.now)) }
{
    match given(json, field) {
        None => Ok(List::of(Vec::new(alloc))),
        Some(value) => texts_in(alloc, value, field),
    }
}

fn texts_in(alloc: Global, value: &Value, field: &str) -> Result<List<Str>, DescriptionFault>
    ensures { Reads result (texts_in field.now (view value.now)) }
{
    if let Some(items) = value.as_array() {
        if let Some(texts) = each_text(alloc, items.as_slice())? {
            return Ok(texts);
        }
    }
    Err(DescriptionFault::WrongType {
        field: Str::spell(alloc, field)?,
    })
}

fn each_text(alloc: Global, items: &[Value]) -> Result<Option<List<Str>>, OutOfMemory>
    ensures { IfOk result (λ found. found ≡ each as_str (items_view items.now)) }
{
    let mut found = Vec::new(alloc);
    for item in items {
        match item.as_str() {
            Some(text) => found.push(Str::spell(alloc, text)?)?,
            None => return Ok(None),
        }
    }
    Ok(Some(List::of(found)))
}

/// The word of a field that may be missing.
///
/// # Errors
/// `WrongType` exactly where it is there and no text, `BadWord` exactly where it is a text that is none of the words.
pub(crate) fn word_at<W: Word>(
    alloc: Global,
    json: &Value,
    field: &str,
) -> Result<Option<W>, DescriptionFault>
    ensures { Reads result (word_at W.word field.now (view json.now)) }
{
    match given(json, field) {
        None => Ok(None),
        Some(value) => Ok(Some(word_in(alloc, value, field)?)),
    }
}

fn word_in<W: Word>(alloc: Global, value: &Value, field: &str) -> Result<W, DescriptionFault>
    ensures { Reads result (word_in W.word field.now (view value.now)) }
{
    match value.as_str() {
        Some(text) => match W::of_word(text) {
            Some(word) => Ok(word),
            None => Err(DescriptionFault::BadWord {
                field: Str::spell(alloc, field)?,
            }),
        },
        None => Err(DescriptionFault::WrongType {
            field: Str::spell(alloc, field)?,
        }),
    }
}
