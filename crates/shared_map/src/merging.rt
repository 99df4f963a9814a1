//! Two lists of rows by key, made one.
ghost use Rattle.shared_map.specs.Merging.{next_row};
ghost use Rattle.shared_map.specs.Rows.{AreByKey, HaveSameRows};
ghost use Rattle.std.specs.Option.{option_map};
ghost use Rattle.std.specs.Prelude.{◌≡◌, ◌++◌, IfOk};

use crate::rows::Row;
use prop_map::{Copies, OutOfMemory};
use std::alloc::Global;
use std::cmp::Ordering;

/// The rows of two lists by key, by key again: of a key that both have, the newer row.
///
/// # Errors
/// Only want of memory.
pub(crate) fn merged<V: Copies>(
    alloc: Global,
    older: &[Row<V>],
    newer: &[Row<V>],
) -> Result<Vec<Row<V>>, OutOfMemory>
    requires older { AreByKey older.now }
    requires newer { AreByKey newer.now }
    ensures order { IfOk result (λ rows. AreByKey rows.items) }
    ensures rows { IfOk result (λ rows. HaveSameRows rows.items (newer.now ++ older.now)) }
{
    let mut rows = Vec::with_capacity(alloc, older.len().saturating_add(newer.len()))?;
    let (mut old, mut new) = (older, newer);
    while let Some((row, old_left, new_left)) = next_row(old, new) {
        rows.push(row.copy(alloc)?)?;
        old = old_left;
        new = new_left;
    }
    Ok(rows)
}

// A row, and what is left of two lists of rows.
type Next<'a, V> = (&'a Row<V>, &'a [Row<V>], &'a [Row<V>]);

// The first row by key, and what is left of the lists. Where both have its key it is the newer row, and the older one
// is left out.
fn next_row<'a, V>(older: &'a [Row<V>], newer: &'a [Row<V>]) -> Option<Next<'a, V>>
    ensures { option_map (λ next. (next.0.now, next.1.now, next.2.now)) result ≡ next_row older.now newer.now }
{
    match (older, newer) {
        ([], []) => None,
        ([], [new, new_left @ ..]) => Some((new, older, new_left)),
        ([old, old_left @ ..], []) => Some((old, old_left, newer)),
        ([old, old_left @ ..], [new, new_left @ ..]) => {
            match old.key.as_str().cmp(new.key.as_str()) {
                Ordering::Less => Some((old, old_left, newer)),
                Ordering::Equal => Some((new, old_left, new_left)),
                Ordering::Greater => Some((new, older, new_left)),
            }
        }
    }
}
