//! The properties that every service has (OSGi Core 8, section 5.2.5).
ghost use Rattle.service_registry.specs.Services.{scope_in, scope_of, with_service_properties};
ghost use Rattle.std.specs.Option.{option_copied};
ghost use Rattle.std.specs.Prelude.{◌≡◌, IfOk, pos};

use prop_map::{Copies, List, OutOfMemory, Properties, Str, Value};
use std::alloc::{AllocError, Global};

/// The properties of a service: `objectClass`, `service.id`, `service.bundleid` and `service.scope` over those that were
/// given, in whatever case these spell them.
///
/// # Errors
/// Only want of memory. That a number is none of 64 bits with a sign counts as such.
pub fn with_service_properties(
    alloc: Global,
    service: u64,
    bundle: u64,
    interfaces: &[Str],
    scope: &str,
    given: Properties,
) -> Result<Properties, OutOfMemory>
    ensures { IfOk result (λ properties. properties ≡ with_service_properties service bundle interfaces.now scope.now given) }
{
    let mut properties = given;
    properties.set(
        alloc,
        "objectClass",
        Value::Texts(copied(alloc, interfaces)?),
    )?;
    properties.set(alloc, "service.id", whole(service)?)?;
    properties.set(alloc, "service.bundleid", whole(bundle)?)?;
    properties.set(alloc, "service.scope", Value::Text(text(alloc, scope)?))?;
    Ok(properties)
}

// The scope that properties tell.
pub(crate) fn scope_of(properties: &Properties) -> &str
    ensures { result.now ≡ scope_of properties.now }
{
    match properties.get("service.scope") {
        Some(Value::Text(scope)) => scope.as_str(),
        _ => "singleton",
    }
}

pub(crate) fn copied(alloc: Global, texts: &[Str]) -> Result<List<Str>, OutOfMemory>
    ensures { IfOk result (λ list. list ≡ texts.now) }
{
    let mut list = Vec::new(alloc);
    for text in texts {
        list.push(text.copy(alloc)?)?;
    }
    Ok(List::of(list))
}

fn text(alloc: Global, text: &str) -> Result<Str, OutOfMemory>
    ensures { IfOk result (λ copy. copy ≡ text.now) }
{
    Ok(Str::of(String::from_str(alloc, text)?))
}

fn whole(number: u64) -> Result<Value, OutOfMemory>
    ensures { IfOk result (λ value. value ≡ Value.Whole (pos number)) }
{
    match i64::try_from(number) {
        Ok(whole) => Ok(Value::Whole(whole)),
        Err(_) => Err(AllocError),
    }
}
