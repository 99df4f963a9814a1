//! The parts of a map, each by key, the oldest first.
ghost use Rattle.shared_map.specs.Parts.{AreParts, rows_of};
ghost use Rattle.shared_map.specs.Rows.{AreByKey, HaveSameRows, value_of};
ghost use Rattle.std.specs.Option.{option_copied};
ghost use Rattle.std.specs.Prelude.{◌≡◌, ◌≤◌, ◌++◌, ◌∷◌, [], IfOk, OnErr, OnOk, length, take};

use crate::merging::merged;
use crate::rows::{Row, value_in};
use prop_map::{Copies, List, OutOfMemory, Shared};
use std::alloc::Global;

pub(crate) type Part<V> = Shared<List<Row<V>>>;

/// The value under a key, in the newest part that has the key.
pub(crate) fn value_of<'a, V: Drop>(parts: &'a [Part<V>], key: &str) -> Option<&'a V>
    requires { AreParts parts.now }
    ensures { option_copied result ≡ value_of key.now (rows_of parts.now) }
{
    let mut left = parts;
    while let [older @ .., part] = left {
        let value = value_in(part.get().as_slice(), key);
        if value.is_some() {
            return value;
        }
        left = older;
    }
    None
}

/// How many parts stay as they are when a row comes, the oldest ones: the newer ones are to be made one with it. A part
/// stays that is more than twice as long as all that is newer. So each part is more than twice as long as the next one,
/// and a row that is copied comes into a part half as long again, or many rows of the same keys go.
pub(crate) fn kept<V: Drop>(parts: &[Part<V>]) -> usize
    ensures { result ≤ length parts.now }
{
    let mut kept = parts;
    let mut newer: usize = 1;
    while let [older @ .., part] = kept {
        let rows = part.get().as_slice().len();
        if rows / 2 > newer {
            break;
        }
        newer = newer.saturating_add(rows);
        kept = older;
    }
    kept.len()
}

/// The rows of parts and a newer one, by key.
///
/// # Errors
/// Only want of memory.
pub(crate) fn merged_with<V: Copies>(
    alloc: Global,
    parts: &[Part<V>],
    row: Row<V>,
) -> Result<Vec<Row<V>>, OutOfMemory>
    requires { AreParts parts.now }
    ensures order { IfOk result (λ rows. AreByKey rows.items) }
    ensures rows { IfOk result (λ rows. HaveSameRows rows.items (row ∷ rows_of parts.now)) }
{
    let mut rows = one(alloc, row)?;
    let mut unmerged = parts;
    while let [older @ .., part] = unmerged {
        rows = merged(alloc, part.get().as_slice(), rows.as_slice())?;
        unmerged = older;
    }
    Ok(rows)
}

/// Rows by key as a part.
///
/// # Errors
/// Only want of memory.
pub(crate) fn shared<V: Drop>(alloc: Global, rows: Vec<Row<V>>) -> Result<Part<V>, OutOfMemory>
    ensures { IfOk result (λ part. part ≡ rows.items) }
{
    Shared::of(alloc, List::of(rows))
}

fn one<T: Drop>(alloc: Global, item: T) -> Result<Vec<T>, OutOfMemory>
    ensures { IfOk result (λ items. items.items ≡ item ∷ []) }
{
    let mut items = Vec::new(alloc);
    items.push(item)?;
    Ok(items)
}

/// One part in the place of all from a place on.
///
/// # Errors
/// Only want of memory. The parts are then as they were.
pub(crate) fn replace_from<T: Drop>(
    parts: &mut Vec<T>,
    kept: usize,
    part: T,
) -> Result<(), OutOfMemory>
    ensures ok { OnOk result (parts.new.items ≡ take kept parts.old.items ++ part ∷ []) }
    ensures err { OnErr result (parts.new.items ≡ parts.old.items) }
{
    parts.reserve(1)?;
    parts.truncate(kept);
    parts.push_reserved(part);
    Ok(())
}

/// The same parts, shared.
///
/// # Errors
/// Only want of memory.
pub(crate) fn copied<T: Copies>(alloc: Global, parts: &[T]) -> Result<Vec<T>, OutOfMemory>
    ensures { IfOk result (λ v. v.items ≡ parts.now) }
{
    let mut copies = Vec::new(alloc);
    for part in parts {
        copies.push(part.copy(alloc)?)?;
    }
    Ok(copies)
}
