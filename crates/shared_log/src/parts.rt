//! The parts of a list, and what becomes of them as the list grows.
ghost use Rattle.shared_log.specs.Parts.{joined};
ghost use Rattle.std.specs.Prelude.{◌≡◌, ◌≤◌, ◌++◌, ◌∷◌, [], length, IfOk, OnOk};

use prop_map::{Copies, List, OutOfMemory, Shared};
use std::alloc::Global;

/// How many parts stay as they are when an item comes. Those behind them are merged with it, each since it is no longer
/// than what is merged so far. So the parts that stay are ever longer towards the front, as the digits of a binary
/// number.
pub(crate) fn staying<T: Drop>(parts: &[Shared<List<T>>]) -> usize
    ensures { result ≤ length parts.now }
{
    let mut merged = 1;
    for (place, part) in parts.iter().enumerate().rev() {
        let len = part.get().as_slice().len();
        if len > merged {
            return place + 1;
        }
        merged = len.saturating_add(merged);
    }
    0
}

/// One part with equal items to those of these parts, and behind them an item more.
///
/// # Errors
/// Only want of memory.
pub(crate) fn merged<T: Copies>(
    alloc: Global,
    parts: &[Shared<List<T>>],
    item: T,
) -> Result<Shared<List<T>>, OutOfMemory>
    ensures { IfOk result (λ part. part ≡ joined parts.now ++ item ∷ []) }
{
    let mut items = Vec::new(alloc);
    for part in parts {
        add_copies(alloc, &mut items, part.get().as_slice())?;
    }
    items.push(item)?;
    Shared::of(alloc, List::of(items))
}

fn add_copies<T: Copies>(alloc: Global, items: &mut Vec<T>, part: &[T]) -> Result<(), OutOfMemory>
    ensures { OnOk result (items.new.items ≡ items.old.items ++ part.now) }
{
    for item in part {
        items.push(item.copy(alloc)?)?;
    }
    Ok(())
}

/// The same parts, shared.
///
/// # Errors
/// Only want of memory.
pub(crate) fn shared<T: Drop>(
    alloc: Global,
    parts: &[Shared<List<T>>],
) -> Result<Vec<Shared<List<T>>>, OutOfMemory>
    ensures { IfOk result (λ v. v.items ≡ parts.now) }
{
    let mut shares = Vec::new(alloc);
    for part in parts {
        shares.push(part.share()?)?;
    }
    Ok(shares)
}
