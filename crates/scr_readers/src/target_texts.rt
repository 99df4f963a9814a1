//! The targets that properties give references (OSGi Compendium 8, chapter 112, "Target Property").
ghost use Rattle.prop_map.specs.Maps.{get};
ghost use Rattle.reference_match.specs.Needs.{target_key};
ghost use Rattle.scr_readers.specs.ComponentViews.{target_text, text_in};
ghost use Rattle.std.specs.Option.{option_copied};
ghost use Rattle.std.specs.Prelude.{◌≡◌, IfOk, string_bytes};

use prop_map::{Copies, OutOfMemory, Properties, Str, Value};
use std::alloc::Global;

/// The text of the target of the reference of a name, if it has one.
pub(crate) fn target_text(
    alloc: Global,
    properties: &Properties,
    name: &str,
) -> Result<Option<Str>, OutOfMemory>
    ensures { IfOk result (λ text. text ≡ target_text properties.now name.now) }
{
    let key = target_key(alloc, name)?;
    text_in(alloc, properties.get(key.as_str()))
}

fn target_key(alloc: Global, name: &str) -> Result<String, OutOfMemory>
    ensures { IfOk result (λ key. string_bytes key ≡ target_key name.now) }
{
    let mut key = String::from_str(alloc, name)?;
    key.push_str(".target")?;
    Ok(key)
}

fn text_in(alloc: Global, value: Option<&Value>) -> Result<Option<Str>, OutOfMemory>
    ensures { IfOk result (λ text. text ≡ text_in (option_copied value.entry)) }
{
    match value {
        Some(Value::Text(text)) => Ok(Some(text.copy(alloc)?)),
        _ => Ok(None),
    }
}
