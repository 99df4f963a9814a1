//! How many services a reference needs at least (OSGi Compendium 8, chapter 112, minimum cardinality properties).
ghost use Rattle.prop_map.specs.Maps.{get};
ghost use Rattle.reference_match.specs.Needs.{least, minimum_in, minimum_key, raised};
ghost use Rattle.std.specs.Option.{option_copied};
ghost use Rattle.std.specs.Prelude.{◌≡◌, IfOk};

use crate::target::property_key;
use prop_map::{Cardinality, OutOfMemory, Properties, Value};
use std::alloc::Global;

/// The minimum of a reference of a name and a cardinality.
pub(crate) fn minimum_of(
    alloc: Global,
    properties: &Properties,
    name: &str,
    cardinality: Cardinality,
) -> Result<u64, OutOfMemory>
    ensures { IfOk result (λ n. n ≡ minimum_in cardinality (get properties.now (minimum_key name.now))) }
{
    let key = property_key(alloc, name, ".cardinality.minimum")?;
    Ok(minimum_in(cardinality, properties.get(key.as_str())))
}

fn minimum_in(cardinality: Cardinality, value: Option<&Value>) -> u64
    ensures { result ≡ minimum_in cardinality (option_copied value.entry) }
{
    match value {
        Some(Value::Whole(whole)) => match u64::try_from(*whole) {
            Ok(asked) => raised(cardinality, asked),
            Err(_) => least(cardinality),
        },
        _ => least(cardinality),
    }
}

// How many a cardinality asks for at least.
fn least(cardinality: Cardinality) -> u64
    ensures { result ≡ least cardinality }
{
    match cardinality {
        Cardinality::ZeroOrOne | Cardinality::ZeroOrMore => 0,
        Cardinality::One | Cardinality::OneOrMore => 1,
    }
}

// How many it is where a property asks for this many.
fn raised(cardinality: Cardinality, asked: u64) -> u64
    ensures { result ≡ raised cardinality asked }
{
    match cardinality {
        Cardinality::ZeroOrOne => { if asked == 1 { 1 } else { 0 } }
        Cardinality::One => 1,
        Cardinality::ZeroOrMore => asked,
        Cardinality::OneOrMore => { if 1 < asked { asked } else { 1 } }
    }
}
