//! Properties read from JSON.
ghost use Rattle.prop_map.specs.ByKey.{IsByKey};
ghost use Rattle.prop_map.specs.JsonProperties.{whole, each, sound_item, sound_items, sound_list, list_value, value_of, alone, given_value, put_given, with_members, properties_of};
ghost use Rattle.prop_map.specs.Keys.{folded};
ghost use Rattle.prop_map.specs.Maps.{IsInOrder, put};
ghost use Rattle.prop_map.specs.Readings.{Reads};
ghost use Rattle.prop_map.specs.Spellings.{AreOf};
ghost use Rattle.serde_json.specs.Find.{as_str, as_bool};
ghost use Rattle.serde_json.specs.View.{view, items_view, members_view};
ghost use Rattle.std.specs.BTreeMap.{values};
ghost use Rattle.std.specs.Prelude.{◌≡◌, ℕ, List, [], IfOk, OnOk, map, string_bytes};

use crate::properties::Property;
use crate::spellings::{Spelling, folded, has_another, spellings_of};
use crate::{List, OutOfMemory, PropFault, Properties, Str, Value};
use serde_json::{Map, Value as Json};
use std::alloc::{AllocError, Global};
use std::collections::BTreeMap;

fn texts(alloc: Global, items: &[Json]) -> Result<Option<List<Str>>, OutOfMemory>
    ensures { IfOk result (λ found. found ≡ each as_str (items_view items.now)) }
{
    let mut found = Vec::new(alloc);
    for item in items {
        match item.as_str() {
            Some(text) => found.push(Str::spell(alloc, text)?)?,
            None => return Ok(None),
        }
    }
    Ok(Some(List::of(found)))
}

fn wholes(alloc: Global, items: &[Json]) -> Result<Option<List<i64>>, OutOfMemory>
    ensures { IfOk result (λ found. found ≡ each whole (items_view items.now)) }
{
    let mut found = Vec::new(alloc);
    for item in items {
        match item.as_i64() {
            Some(number) => found.push(number)?,
            None => return Ok(None),
        }
    }
    Ok(Some(List::of(found)))
}

fn flags(alloc: Global, items: &[Json]) -> Result<Option<List<bool>>, OutOfMemory>
    ensures { IfOk result (λ found. found ≡ each as_bool (items_view items.now)) }
{
    let mut found = Vec::new(alloc);
    for item in items {
        match item.as_bool() {
            Some(flag) => found.push(flag)?,
            None => return Ok(None),
        }
    }
    Ok(Some(List::of(found)))
}

fn check_item(alloc: Global, key: &str, item: &Json) -> Result<(), PropFault>
    ensures { Reads result (sound_item key.now (view item.now)) }
{
    match item {
        Json::Bool(_) | Json::String(_) => Ok(()),
        Json::Number(_) => match item.as_i64() {
            Some(_) => Ok(()),
            None => Err(PropFault::FloatValue {
                key: Str::spell(alloc, key)?,
            }),
        },
        _ => Err(PropFault::NestedValue {
            key: Str::spell(alloc, key)?,
        }),
    }
}

fn check_items(alloc: Global, key: &str, items: &[Json]) -> Result<(), PropFault>
    ensures { Reads result (sound_items key.now (items_view items.now)) }
{
    for item in items {
        check_item(alloc, key, item)?;
    }
    Ok(())
}

fn sound_list(alloc: Global, key: &str, items: &[Json]) -> Result<Value, PropFault>
    ensures { Reads result (sound_list key.now (items_view items.now)) }
{
    if let Some(found) = texts(alloc, items)? {
        return Ok(Value::Texts(found));
    }
    if let Some(found) = wholes(alloc, items)? {
        return Ok(Value::Wholes(found));
    }
    match flags(alloc, items)? {
        Some(found) => Ok(Value::Flags(found)),
        None => Err(PropFault::MixedList {
            key: Str::spell(alloc, key)?,
        }),
    }
}

fn list_value(alloc: Global, key: &str, items: &[Json]) -> Result<Value, PropFault>
    ensures { Reads result (list_value key.now (items_view items.now)) }
{
    check_items(alloc, key, items)?;
    sound_list(alloc, key, items)
}

fn value_of(alloc: Global, key: &str, json: &Json) -> Result<Option<Value>, PropFault>
    ensures { Reads result (value_of key.now (view json.now)) }
{
    match json {
        Json::Null => Ok(None),
        Json::Bool(flag) => Ok(Some(Value::Flag(*flag))),
        Json::Number(_) => match json.as_i64() {
            Some(number) => Ok(Some(Value::Whole(number))),
            None => Err(PropFault::FloatValue {
                key: Str::spell(alloc, key)?,
            }),
        },
        Json::String(text) => Ok(Some(Value::Text(Str::spell(alloc, text.as_str())?))),
        Json::Array(items) => Ok(Some(list_value(alloc, key, items.as_slice())?)),
        Json::Object(_) => Err(PropFault::NestedValue {
            key: Str::spell(alloc, key)?,
        }),
    }
}

fn entries_of<'v>(
    alloc: Global,
    members: &'v Map<String, Json>,
) -> Result<Vec<(&'v String, &'v Json)>, OutOfMemory>
    ensures { IfOk result (λ v. map (λ e. (e.0.now, e.1.now)) v.items ≡ members.now.entries) }
{
    members.iter().collect(alloc)
}

// The value that a member gives, where no other spelling of its key gives one.
fn alone(
    alloc: Global,
    spellings: &BTreeMap<String, Spelling<'_>>,
    key: &str,
    value: Option<Value>,
) -> Result<Option<Value>, PropFault>
    ensures { (keys : List (List ℕ)) → AreOf keys spellings.now → Reads result (alone keys key.now value) }
{
    if value.is_some() && has_another(alloc, spellings, key)? {
        return Err(PropFault::SameKey {
            key: Str::spell(alloc, key)?,
        });
    }
    Ok(value)
}

fn given_value(
    alloc: Global,
    spellings: &BTreeMap<String, Spelling<'_>>,
    key: &str,
    json: &Json,
) -> Result<Option<Value>, PropFault>
    ensures { (keys : List (List ℕ)) → AreOf keys spellings.now → Reads result (given_value keys key.now (view json.now)) }
{
    let value = value_of(alloc, key, json)?;
    alone(alloc, spellings, key, value)
}

fn put_property(
    found: &mut BTreeMap<String, Property>,
    fold: String,
    property: Property,
) -> Result<(), OutOfMemory>
    requires by_key { IsByKey found.old.entries }
    requires fold { string_bytes fold ≡ folded property.key }
    ensures value { OnOk result (values found.new ≡ put (values found.old) property.key property.value) }
    ensures by_key { OnOk result (IsByKey found.new.entries) }
{
    match found.insert(fold, property) {
        Ok(_) => Ok(()),
        Err(_) => Err(AllocError),
    }
}

fn put_value(
    alloc: Global,
    found: &mut BTreeMap<String, Property>,
    key: &str,
    value: Value,
) -> Result<(), OutOfMemory>
    requires { IsByKey found.old.entries }
    ensures value { OnOk result (values found.new ≡ put (values found.old) key.now value) }
    ensures by_key { OnOk result (IsByKey found.new.entries) }
{
    let fold = folded(alloc, key)?;
    let key = Str::spell(alloc, key)?;
    put_property(found, fold, Property { key, value })
}

// Puts a value, if one is given, under its key among those so far.
fn put_given(
    alloc: Global,
    found: &mut BTreeMap<String, Property>,
    key: &str,
    value: Option<Value>,
) -> Result<(), OutOfMemory>
    requires { IsByKey found.old.entries }
    ensures value { OnOk result (values found.new ≡ put_given (values found.old) key.now value) }
    ensures by_key { OnOk result (IsByKey found.new.entries) }
{
    match value {
        Some(value) => put_value(alloc, found, key, value),
        None => Ok(()),
    }
}

fn with_members(
    alloc: Global,
    spellings: &BTreeMap<String, Spelling<'_>>,
    entries: &[(&String, &Json)],
) -> Result<Properties, PropFault>
    ensures { (keys : List (List ℕ)) → AreOf keys spellings.now →
        Reads result (with_members keys [] (members_view (map (λ e. (e.0.now, e.1.now)) entries.now))) }
{
    let mut found = BTreeMap::new(alloc);
    for (key, json) in entries {
        match given_value(alloc, spellings, key.as_str(), json) {
            Ok(value) => put_given(alloc, &mut found, key.as_str(), value)?,
            Err(fault) => return Err(fault),
        }
    }
    Ok(in_order(alloc, found)?)
}

fn in_order(alloc: Global, found: BTreeMap<String, Property>) -> Result<Properties, OutOfMemory>
    requires { IsInOrder (values found) }
    ensures { IfOk result (λ map. map ≡ values found) }
{
    let list = found.into_values().collect(alloc)?;
    Ok(Properties::in_order(list))
}

impl Properties {
    /// The properties that a JSON object gives. A text, a whole number in 64 bits with a sign, a flag, and a list of
    /// one of these kinds is a value; a list without items is one of texts, and a null is as if its key weren't there.
    ///
    /// # Errors
    /// NotObject exactly where the value is no object. Else the first key in byte order that is at fault tells how:
    /// FloatValue for any other number, NestedValue for an object and for a list with a list, an object or a null in
    /// it, MixedList for a list of sound items of two kinds, and then SameKey where another key of the object, with a
    /// value that is no null, differs in ASCII case alone. OutOfMemory may come at any place.
    pub fn from_json(alloc: Global, json: &Json) -> Result<Properties, PropFault>
        ensures { Reads result (properties_of (view json.now)) }
    {
        match json.as_object() {
            Some(members) => {
                let entries = entries_of(alloc, members)?;
                let spellings = spellings_of(alloc, entries.as_slice())?;
                with_members(alloc, &spellings, entries.as_slice())
            }
            None => Err(PropFault::NotObject),
        }
    }
}
