//! Properties as JSON (OSGi Core 8, section 5.2.5 "Service Properties").
ghost use Rattle.scr_report.specs.ReportData.{list_of, property_members, value_data};
ghost use Rattle.serde_json.specs.Data.{boolean, number, object, string};
ghost use Rattle.serde_json.specs.Find.{of_integer};
ghost use Rattle.serde_json.specs.View.{members_view, view};
ghost use Rattle.std.specs.Prelude.{◌≡◌, IfOk, map};

use crate::lists::list_of;
use prop_map::{OutOfMemory, Properties, Property, Str, Value};
use serde_json::{Map, Value as Json, put};
use std::alloc::Global;

/// Properties, each under its spelling.
pub(crate) fn properties_value(alloc: Global, properties: &Properties) -> Result<Json, OutOfMemory>
    ensures { IfOk result (λ value. view value ≡ object (property_members properties.now)) }
{
    Ok(Json::Object(members_of(alloc, properties.as_slice())?))
}

fn members_of(alloc: Global, properties: &[Property]) -> Result<Map<String, Json>, OutOfMemory>
    ensures { IfOk result (λ map. members_view map.entries ≡ property_members properties.now) }
{
    let mut members = Map::new(alloc);
    for property in properties {
        let value = value_of(alloc, &property.value)?;
        put(&mut members, alloc, property.key.as_str(), value)?;
    }
    Ok(members)
}

fn value_of(alloc: Global, value: &Value) -> Result<Json, OutOfMemory>
    ensures { IfOk result (λ json. view json ≡ value_data value.now) }
{
    match value {
        Value::Text(text) => Json::try_from_str(alloc, text.as_str()),
        Value::Whole(number) => Ok(Json::from(*number)),
        Value::Flag(flag) => Ok(Json::Bool(*flag)),
        Value::Texts(texts) => texts_value(alloc, texts.as_slice()),
        Value::Wholes(wholes) => wholes_value(alloc, wholes.as_slice()),
        Value::Flags(flags) => flags_value(alloc, flags.as_slice()),
    }
}

/// A list of texts.
pub(crate) fn texts_value(alloc: Global, texts: &[Str]) -> Result<Json, OutOfMemory>
    ensures { IfOk result (λ json. view json ≡ list_of (map string texts.now)) }
{
    let mut items = Vec::new(alloc);
    for text in texts {
        items.push(Json::try_from_str(alloc, text.as_str())?)?;
    }
    Ok(list_of(items))
}

fn wholes_value(alloc: Global, wholes: &[i64]) -> Result<Json, OutOfMemory>
    ensures { IfOk result (λ json. view json ≡ list_of (map (λ n. number (of_integer n)) wholes.now)) }
{
    let mut items = Vec::new(alloc);
    for &whole in wholes {
        items.push(Json::from(whole))?;
    }
    Ok(list_of(items))
}

fn flags_value(alloc: Global, flags: &[bool]) -> Result<Json, OutOfMemory>
    ensures { IfOk result (λ json. view json ≡ list_of (map boolean flags.now)) }
{
    let mut items = Vec::new(alloc);
    for &flag in flags {
        items.push(Json::Bool(flag))?;
    }
    Ok(list_of(items))
}
