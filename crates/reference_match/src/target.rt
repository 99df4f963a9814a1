//! The target of a reference: the filter that its services match (OSGi Compendium 8, chapter 112, target properties).
ghost use Rattle.ldap_filter.specs.Texts.{filter_of};
ghost use Rattle.prop_map.specs.Maps.{get};
ghost use Rattle.reference_match.specs.Needs.{filter_in, is_no_filter, target_key};
ghost use Rattle.std.specs.Option.{option_copied};
ghost use Rattle.std.specs.Prelude.{◌≡◌, ◌++◌, IfOk, is_none, string_bytes};

use ldap_filter::{Filter, FilterFault};
use prop_map::{OutOfMemory, Properties, Value};
use std::alloc::{AllocError, Global};

/// What a target is.
#[derive(Drop)]
pub(crate) struct Target {
    /// The filter, if there is one.
    pub filter: Option<Filter>,
    /// It is a target that is no filter.
    pub none: bool,
}

/// The target of a reference of a name.
pub(crate) fn target_of(
    alloc: Global,
    properties: &Properties,
    name: &str,
) -> Result<Target, OutOfMemory>
    ensures filter { IfOk result (λ target. target.filter ≡ filter_in (get properties.now (target_key name.now))) }
    ensures none { IfOk result (λ target. target.none ≡ is_no_filter (get properties.now (target_key name.now))) }
{
    let key = property_key(alloc, name, ".target")?;
    target_in(alloc, properties.get(key.as_str()))
}

/// The key of a property of a reference: its name, and what is asked for.
pub(crate) fn property_key(alloc: Global, name: &str, asked: &str) -> Result<String, OutOfMemory>
    ensures { IfOk result (λ key. string_bytes key ≡ name.now ++ asked.now) }
{
    let mut key = String::from_str(alloc, name)?;
    key.push_str(asked)?;
    Ok(key)
}

fn target_in(alloc: Global, value: Option<&Value>) -> Result<Target, OutOfMemory>
    ensures filter { IfOk result (λ target. target.filter ≡ filter_in (option_copied value.entry)) }
    ensures none { IfOk result (λ target. target.none ≡ is_no_filter (option_copied value.entry)) }
{
    match value {
        None => Ok(Target {
            filter: None,
            none: false,
        }),
        Some(Value::Text(text)) => spelled_target(alloc, text.as_str()),
        Some(_) => Ok(Target {
            filter: None,
            none: true,
        }),
    }
}

// The target that a text spells.
fn spelled_target(alloc: Global, text: &str) -> Result<Target, OutOfMemory>
    ensures filter { IfOk result (λ target. target.filter ≡ filter_of text.now) }
    ensures none { IfOk result (λ target. target.none ≡ is_none (filter_of text.now)) }
{
    let filter = spelled_filter(alloc, text)?;
    let none = filter.is_none();
    Ok(Target { filter, none })
}

// The filter that a text spells, if it is one.
fn spelled_filter(alloc: Global, text: &str) -> Result<Option<Filter>, OutOfMemory>
    ensures { IfOk result (λ filter. filter ≡ filter_of text.now) }
{
    match Filter::parse(alloc, text) {
        Ok(filter) => Ok(Some(filter)),
        Err(FilterFault::BadFilter { .. }) => Ok(None),
        Err(FilterFault::TooDeep { .. }) => Ok(None),
        Err(FilterFault::OutOfMemory) => Err(AllocError),
    }
}
