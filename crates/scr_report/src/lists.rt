//! Numbers, texts and lists as JSON values.
ghost use Rattle.scr_report.specs.ReportData.{list_of, number_or_null, numbers, text_or_null};
ghost use Rattle.serde_json.specs.Data.{put as with_member, string};
ghost use Rattle.serde_json.specs.View.{members_view, view};
ghost use Rattle.std.specs.Option.{option_copied};
ghost use Rattle.std.specs.Prelude.{◌≡◌, IfOk, OnOk, map};

use prop_map::{OutOfMemory, Str};
use serde_json::{Map, Value, put};
use std::alloc::Global;

/// A list of values.
pub(crate) fn list_of(items: Vec<Value>) -> Value
    ensures { view result ≡ list_of (map view items.items) }
{
    Value::Array(items)
}

/// A list of numbers.
pub(crate) fn numbers(alloc: Global, these: &[u64]) -> Result<Value, OutOfMemory>
    ensures { IfOk result (λ value. view value ≡ numbers these.now) }
{
    let mut items = Vec::new(alloc);
    for &number in these {
        items.push(Value::from(number))?;
    }
    Ok(list_of(items))
}

/// A number, null where there is none.
pub(crate) fn number_or_null(number: Option<u64>) -> Value
    ensures { view result ≡ number_or_null number }
{
    match number {
        Some(number) => Value::from(number),
        None => Value::Null,
    }
}

/// A text, null where there is none.
pub(crate) fn text_or_null(alloc: Global, text: Option<&Str>) -> Result<Value, OutOfMemory>
    ensures { IfOk result (λ value. view value ≡ text_or_null (option_copied text.entry)) }
{
    match text {
        Some(text) => Value::try_from_str(alloc, text.as_str()),
        None => Ok(Value::Null),
    }
}

/// Puts a text under a key.
pub(crate) fn put_text(
    alloc: Global,
    members: &mut Map<String, Value>,
    key: &str,
    text: &str,
) -> Result<(), OutOfMemory>
    ensures { OnOk result (members_view members.new.entries ≡ with_member key.now (string text.now) (members_view members.old.entries)) }
{
    put(members, alloc, key, Value::try_from_str(alloc, text)?)
}
