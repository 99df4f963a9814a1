//! Property maps of many properties, put one over the other.
ghost use Rattle.prop_map.specs.ByKey.{IsByKey};
ghost use Rattle.prop_map.specs.Keys.{folded};
ghost use Rattle.prop_map.specs.Maps.{IsInOrder, merge, put};
ghost use Rattle.std.specs.BTreeMap.{values};
ghost use Rattle.std.specs.Prelude.{◌≡◌, [], IfOk, OnErr, OnOk, string_bytes};

use prop_map::{Copies, OutOfMemory, Properties, Property, Str, Value};
use std::alloc::{AllocError, Global};
use std::collections::BTreeMap;
use std::marker::Model;

/// A property map that many properties are put into: each takes the time of a search, and none moves those behind it.
/// Contracts see the map.
#[derive(Drop)]
pub(crate) struct PropertyDraft {
    by_key: BTreeMap<String, Property>,
}

impl Model for PropertyDraft {
    ghost use Rattle.prop_map.specs.ByKey.{IsByKey};
    ghost use Rattle.prop_map.specs.declared.properties.Property.{Property};
    ghost use Rattle.std.specs.BTreeMap.{values};
    ghost use Rattle.std.specs.Prelude.{List};

    ghost Value = { List Property };

    ghost view = { λ d. values d.by_key };

    ghost invariant = { λ d. IsByKey d.by_key.entries };
}

impl PropertyDraft {
    /// No properties.
    pub(crate) fn new(alloc: Global) -> PropertyDraft
        ensures { result ≡ [] }
    {
        PropertyDraft {
            by_key: BTreeMap::new(alloc),
        }
    }

    /// Sets the value of a key, which is spelled so from now on.
    ///
    /// # Errors
    /// Only want of memory.
    pub(crate) fn set(&mut self, alloc: Global, key: &str, value: Value) -> Result<(), OutOfMemory>
        ensures { OnOk result (self.new ≡ put self.old key.now value) }
    {
        let fold = key.to_ascii_lowercase(alloc)?;
        let key = Str::of(String::from_str(alloc, key)?);
        put_under(&mut self.by_key, fold, Property { key, value })
    }

    /// The map.
    ///
    /// # Errors
    /// Only want of memory.
    pub(crate) fn properties(self, alloc: Global) -> Result<Properties, OutOfMemory>
        ensures { IfOk result (λ properties. properties ≡ self) }
    {
        let PropertyDraft { by_key } = self;
        let list = by_key.into_values().collect::<Vec<Property>>(alloc)?;
        in_order(alloc, list.as_slice())
    }
}

fn put_under(
    by_key: &mut BTreeMap<String, Property>,
    fold: String,
    property: Property,
) -> Result<(), OutOfMemory>
    requires by_key { IsByKey by_key.old.entries }
    requires fold { string_bytes fold ≡ folded property.key }
    ensures value { OnOk result (values by_key.new ≡ put (values by_key.old) property.key property.value) }
    ensures by_key { IsByKey by_key.new.entries }
{
    match by_key.insert(fold, property) {
        Ok(_) => Ok(()),
        Err(_) => Err(AllocError),
    }
}

// Each comes behind those before it, so none of these moves.
fn in_order(alloc: Global, list: &[Property]) -> Result<Properties, OutOfMemory>
    requires { IsInOrder list.now }
    ensures { IfOk result (λ properties. properties ≡ list.now) }
{
    let mut properties = Properties::new(alloc);
    for property in list {
        properties.set(alloc, property.key.as_str(), property.value.copy(alloc)?)?;
    }
    Ok(properties)
}
