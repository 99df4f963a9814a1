//! Values by text, in parts that copies share.
ghost use Rattle.shared_map.specs.Rows.{value_of};
ghost use Rattle.std.specs.Option.{option_copied};
ghost use Rattle.std.specs.Prelude.{◌≡◌, ℕ, List, Some, OnErr, OnOk, [], if◌then◌else◌};
ghost use Rattle.std.specs.Str.{bytes_eq};

use crate::parts;
use crate::parts::Part;
use crate::rows::Row;
use prop_map::{Copies, OutOfMemory, Str};
use std::alloc::Global;
use std::marker::Model;

/// Values by text. A copy shares what is held, and takes memory by the logarithm of how many keys there are. Contracts
/// see rows, of which the first of a key has its value.
#[derive(Drop)]
pub struct SharedMap<V> {
    parts: Vec<Part<V>>,
}

impl<V> Model for SharedMap<V> {
    ghost use Rattle.std.specs.Prelude.{List};
    ghost use Rattle.shared_map.specs.declared.rows.Row.{Row};

    ghost Value = { List (Row V) };

    ghost use Rattle.shared_map.specs.Parts.{AreParts, rows_of};

    ghost view = { λ m. rows_of m.parts.items };

    ghost invariant = { λ m. AreParts m.parts.items };
}

impl<V: Copies> Copies for SharedMap<V> {
    fn copy(&self, alloc: Global) -> Result<SharedMap<V>, OutOfMemory> {
        Ok(SharedMap {
            parts: parts::copied(alloc, self.parts.as_slice())?,
        })
    }
}

impl<V: Copies> SharedMap<V> {
    /// A map without keys. It takes no memory.
    pub fn new(alloc: Global) -> SharedMap<V>
        ensures { result ≡ [] }
    {
        SharedMap {
            parts: Vec::new(alloc),
        }
    }

    /// The value under a key, if it has one.
    pub fn value(&self, key: &str) -> Option<&V>
        ensures { option_copied result ≡ value_of key.now self.now }
    {
        parts::value_of(self.parts.as_slice(), key)
    }

    /// Sets the value under a key.
    ///
    /// # Errors
    /// Only want of memory. The map is then as it was.
    pub fn set(&mut self, alloc: Global, key: Str, value: V) -> Result<(), OutOfMemory>
        ensures ok { OnOk result ((other : List ℕ) → value_of other self.new ≡ (if bytes_eq key other then Some value else value_of other self.old)) }
        ensures err { OnErr result (self.new ≡ self.old) }
    {
        let kept = parts::kept(self.parts.as_slice());
        let (_, newer) = self.parts.as_slice().split_at(kept);
        let rows = parts::merged_with(alloc, newer, Row { key, value })?;
        let part = parts::shared(alloc, rows)?;
        parts::replace_from(&mut self.parts, kept, part)
    }
}
