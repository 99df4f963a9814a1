//! Property maps (OSGi Core 8, section 5.2.5 "Service Properties").
ghost use Rattle.prop_map.specs.Keys.{same_key};
ghost use Rattle.prop_map.specs.Maps.{get, put, merge, IsInOrder};
ghost use Rattle.prop_map.specs.Places.{place_of, has_key_at, value_at};
ghost use Rattle.prop_map.specs.Sameness.{same_property, same_properties, property_equiv, properties_equiv};
ghost use Rattle.std.specs.Cmp.{partial_equiv_from_equiv};
ghost use Rattle.std.specs.Prelude.{◌≡◌, ◌↔◌, ◌≤◌, ℕ, List, [], length, slice_get, if◌then◌else◌, IfOk, IsTrue, OnOk, OnErr};
ghost use Rattle.std.specs.Option.{option_copied};

use crate::key::{is_same_key, key_order};
use crate::{Copies, OutOfMemory, Str, Value};
use std::alloc::Global;
use std::fmt;
use std::marker::Model;

/// A key as it is spelled, and its value.
#[derive(Debug, Drop)]
pub struct Property {
    /// The key's spelling.
    pub key: Str,
    /// The value.
    pub value: Value,
}

/// A map from keys to values. Keys that differ only in ASCII case are one key, and the spelling that was set last stays.
///
/// Contracts see its properties in the order of their keys without case, so two maps are equal exactly where they have
/// the same keys, spellings and values, in whatever order these came.
#[derive(Drop)]
pub struct Properties {
    list: Vec<Property>,
}

impl Model for Properties {
    ghost use Rattle.std.specs.Prelude.{List};
    ghost use Rattle.prop_map.specs.declared.properties.Property.{Property};
    ghost use Rattle.prop_map.specs.Maps.{IsInOrder};

    ghost Value = { List Property };

    ghost view = { λ p. p.list.items };

    ghost invariant = { λ p. IsInOrder p.list.items };
}

impl Properties {
    /// A map without properties. It takes no memory.
    pub fn new(alloc: Global) -> Properties
        ensures { result ≡ [] }
    {
        Properties {
            list: Vec::new(alloc),
        }
    }

    /// A map of properties that stand in the order of their keys without ASCII case.
    pub(crate) fn in_order(list: Vec<Property>) -> Properties
        requires { IsInOrder list.items }
        ensures { result ≡ list.items }
    {
        Properties { list }
    }

    /// The properties, in the order of their keys without ASCII case.
    pub fn as_slice(&self) -> &[Property]
        ensures all { result.now ≡ self.now }
        ensures order { IsInOrder self.now }
    {
        self.list.as_slice()
    }

    /// For contracts alone: a key that was set has its value, and every other key keeps its own.
    #[tactic(auto, using(crate::proofs::Laws::get_put))]
    pub fn note_set()
        ensures { (map : List Property) (key : List ℕ) (value : Value) (other : List ℕ) →
            get (put map key value) other ≡ (if same_key other key then Some value else get map other) }
    {}

    /// The value at a key, in whatever case that is spelled. It takes no memory.
    pub fn get(&self, key: &str) -> Option<&Value>
        ensures { option_copied result ≡ get self.now key.now }
    {
        find(self.list.as_slice(), key)
    }

    /// Sets the value of a key, which is spelled so from now on.
    ///
    /// # Errors
    /// Only want of memory. The map is then as it was.
    pub fn set(&mut self, alloc: Global, key: &str, value: Value) -> Result<(), OutOfMemory>
        ensures ok { OnOk result (self.new ≡ put self.old key.now value) }
        ensures err { OnErr result (self.new ≡ self.old) }
    {
        let key = Str::of(String::from_str(alloc, key)?);
        put(&mut self.list, Property { key, value })
    }

    /// This map under another one, whose values and spellings win.
    ///
    /// # Errors
    /// Only want of memory.
    pub fn merge(&self, alloc: Global, over: &Properties) -> Result<Properties, OutOfMemory>
        ensures { IfOk result (λ both. both ≡ merge self.now over.now) }
    {
        let mut both = self.copy(alloc)?;
        for property in over.list.as_slice() {
            both.set(alloc, property.key.as_str(), property.value.copy(alloc)?)?;
        }
        Ok(both)
    }

    /// Whether two maps have the same keys, in the same spelling, with the same values. It takes no memory.
    #[tactic(auto, using(crate::specs::Sameness::properties_decide))]
    pub fn is_same(&self, other: &Properties) -> bool
        ensures { IsTrue result ↔ (self.now ≡ other.now) }
    {
        self == other
    }
}

impl PartialEq for Property {
    ghost eq = { same_property };

    ghost laws = { partial_equiv_from_equiv property_equiv };

    fn eq(&self, other: &Property) -> bool {
        self.key == other.key && self.value == other.value
    }
}

impl Eq for Property {
    ghost laws = { property_equiv };
}

impl PartialEq for Properties {
    ghost eq = { same_properties };

    ghost laws = { partial_equiv_from_equiv properties_equiv };

    fn eq(&self, other: &Properties) -> bool {
        self.list.as_slice() == other.list.as_slice()
    }
}

impl Eq for Properties {
    ghost laws = { properties_equiv };
}

impl fmt::Debug for Properties {
    fn fmt<W: fmt::Write>(&self, f: &mut fmt::Formatter<W>) -> fmt::Result {
        f.debug_list().entries(self.list.iter()).finish()
    }
}

impl Copies for Property {
    fn copy(&self, alloc: Global) -> Result<Property, OutOfMemory> {
        Ok(Property {
            key: self.key.copy(alloc)?,
            value: self.value.copy(alloc)?,
        })
    }
}

impl Copies for Properties {
    fn copy(&self, alloc: Global) -> Result<Properties, OutOfMemory> {
        let mut list = Vec::new(alloc);
        for property in self.list.as_slice() {
            list.push(property.copy(alloc)?)?;
        }
        Ok(Properties { list })
    }
}

// How many properties come before the key: where it stands, or would stand.
fn place(list: &[Property], key: &str) -> usize
    requires { IsInOrder list.now }
    ensures at { result ≡ place_of key.now list.now }
    ensures within { result ≤ length list.now }
{
    list.partition_point(|property| key_order(key, property.key.as_str()).is_gt())
}

fn has_key_at(list: &[Property], place: usize, key: &str) -> bool
    ensures { result ≡ has_key_at key.now place list.now }
{
    match list.get(place) {
        Some(property) => is_same_key(key, property.key.as_str()),
        None => false,
    }
}

// The value of the property at a place, where it has the key.
fn value_at<'p>(list: &'p [Property], place: usize, key: &str) -> Option<&'p Value>
    ensures { option_copied result ≡ value_at key.now (slice_get list.now place) }
{
    match list.get(place) {
        Some(property) => {
            if is_same_key(key, property.key.as_str()) {
                Some(&property.value)
            } else {
                None
            }
        }
        None => None,
    }
}

fn find<'p>(list: &'p [Property], key: &str) -> Option<&'p Value>
    requires { IsInOrder list.now }
    ensures { option_copied result ≡ get list.now key.now }
{
    value_at(list, place(list, key), key)
}

fn put(list: &mut Vec<Property>, property: Property) -> Result<(), OutOfMemory>
    requires { IsInOrder list.old.items }
    ensures ok { OnOk result (list.new.items ≡ put list.old.items property.key property.value) }
    ensures err { OnErr result (list.new.items ≡ list.old.items) }
    ensures order { IsInOrder list.new.items }
{
    let place = place(list.as_slice(), property.key.as_str());
    if has_key_at(list.as_slice(), place, property.key.as_str()) {
        list[place] = property;
    } else {
        list.insert(place, property)?;
    }
    Ok(())
}
