//! Rows of a key and a value, by key in byte order.
ghost use Rattle.row_places.specs.RowPlaces.{IsOnlyPlace};
ghost use Rattle.shared_map.specs.Rows.{AreByKey, is_of, value_of};
ghost use Rattle.std.specs.Option.{option_copied};
ghost use Rattle.std.specs.Prelude.{◌≡◌, ◌<◌, IfSome, length};

use prop_map::{Copies, OutOfMemory, Str};
use std::alloc::Global;

/// A value under a key.
#[derive(Drop)]
pub struct Row<V> {
    /// The key.
    pub key: Str,
    /// The value.
    pub value: V,
}

impl<V: Copies> Copies for Row<V> {
    fn copy(&self, alloc: Global) -> Result<Row<V>, OutOfMemory> {
        Ok(Row {
            key: self.key.copy(alloc)?,
            value: self.value.copy(alloc)?,
        })
    }
}

/// The value under a key, found by halving.
pub(crate) fn value_in<'a, V>(rows: &'a [Row<V>], key: &str) -> Option<&'a V>
    requires { AreByKey rows.now }
    ensures { option_copied result ≡ value_of key.now rows.now }
{
    match place_of(rows, key) {
        Some(place) => Some(&rows[place].value),
        None => None,
    }
}

fn place_of<V>(rows: &[Row<V>], key: &str) -> Option<usize>
    requires { AreByKey rows.now }
    ensures place { IsOnlyPlace (is_of key.now) result rows.now }
    ensures within { IfSome result (λ place. place < length rows.now) }
{
    rows.binary_search_by(|row| row.key.as_str().cmp(key)).ok()
}
