//! The target of a reference, as it is in effect (OSGi Compendium 8, chapter 112, "Target Property").
ghost use Rattle.ldap_filter.specs.Texts.{filter_of};
ghost use Rattle.prop_map.specs.Maps.{get};
ghost use Rattle.reference_match.specs.Needs.{target_key};
ghost use Rattle.scr_causes.specs.DirectCauses.{target_in};
ghost use Rattle.std.specs.Option.{option_copied};
ghost use Rattle.std.specs.Prelude.{◌≡◌, IfOk, Some, is_some, string_bytes};
ghost use Rattle.prop_map.specs.declared.value.Value.TheVariants.{Text};

use component_causes::TargetInEffect;
use ldap_filter::{Filter, FilterFault};
use prop_map::{Copies, OutOfMemory, Properties, Str, Value};
use std::alloc::{AllocError, Global};

/// The target of the reference of a name.
///
/// # Errors
/// Only want of memory.
pub(crate) fn target_in_effect(
    alloc: Global,
    properties: &Properties,
    name: &str,
) -> Result<TargetInEffect, OutOfMemory>
    ensures { IfOk result (λ target. target ≡ target_in (get properties.now (target_key name.now))) }
{
    let key = target_key(alloc, name)?;
    target_in(alloc, properties.get(key.as_str()))
}

fn target_key(alloc: Global, name: &str) -> Result<String, OutOfMemory>
    ensures { IfOk result (λ key. string_bytes key ≡ target_key name.now) }
{
    let mut key = String::from_str(alloc, name)?;
    key.push_str(".target")?;
    Ok(key)
}

fn target_in(alloc: Global, value: Option<&Value>) -> Result<TargetInEffect, OutOfMemory>
    ensures { IfOk result (λ target. target ≡ target_in (option_copied value.entry)) }
{
    match value {
        None => Ok(TargetInEffect::Unset),
        Some(Value::Text(text)) => spelled_target(alloc, text),
        Some(_) => Ok(TargetInEffect::NoText),
    }
}

fn spelled_target(alloc: Global, spelled: &Str) -> Result<TargetInEffect, OutOfMemory>
    ensures { IfOk result (λ target. target ≡ target_in (Some (Text spelled.now))) }
{
    let is_filter = is_filter(alloc, spelled.as_str())?;
    let text = spelled.copy(alloc)?;
    Ok(if is_filter {
        TargetInEffect::Filter { text }
    } else {
        TargetInEffect::NoFilter { text }
    })
}

fn is_filter(alloc: Global, text: &str) -> Result<bool, OutOfMemory>
    ensures { IfOk result (λ is. is ≡ is_some (filter_of text.now)) }
{
    let filter = spelled_filter(alloc, text)?;
    Ok(filter.is_some())
}

// The filter that a text spells, if it is one.
fn spelled_filter(alloc: Global, text: &str) -> Result<Option<Filter>, OutOfMemory>
    ensures { IfOk result (λ filter. filter ≡ filter_of text.now) }
{
    match Filter::parse(alloc, text) {
        Ok(filter) => Ok(Some(filter)),
        Err(FilterFault::BadFilter { .. }) => Ok(None),
        Err(FilterFault::TooDeep { .. }) => Ok(None),
        Err(FilterFault::OutOfMemory) => Err(AllocError),
    }
}
