//! Lists of numbers, turned round: for each number the places of the lists that have it.
ghost use Rattle.std.specs.Prelude.{◌≡◌, ◌+◌, ◌<◌, ◌&&◌, ◌||◌, ◌==◌, ℕ, [], IfOk, OnOk, get_or, length};
ghost use Rattle.level_order.specs.Ways.{has};

use prop_map::{List, OutOfMemory};
use std::alloc::{AllocError, Global};

/// For each of so many numbers from the first one on, the places of the lists that have it, in rising order.
pub(crate) fn turned(
    alloc: Global,
    lists: &[List<usize>],
    first: usize,
    count: usize,
) -> Result<Vec<List<usize>>, OutOfMemory>
    ensures long { IfOk result (λ v. length v.items ≡ count) }
    ensures turned { IfOk result (λ v. (k place : ℕ) → k < count → has (get_or v.items k []) place ≡ has (get_or lists.now place []) (first + k)) }
{
    let mut turned = empty_lists(alloc, count)?;
    for (place, numbers) in lists.iter().enumerate() {
        add_place(&mut turned, first, place, numbers.as_slice())?;
    }
    Ok(turned)
}

fn empty_lists(alloc: Global, count: usize) -> Result<Vec<List<usize>>, OutOfMemory>
    ensures long { IfOk result (λ v. length v.items ≡ count) }
    ensures empty { IfOk result (λ v. (k : ℕ) → get_or v.items k [] ≡ []) }
{
    let mut lists = Vec::new(alloc);
    for _at in 0..count {
        lists.push(List::of(Vec::new(alloc)))?;
    }
    Ok(lists)
}

fn add_place(
    turned: &mut Vec<List<usize>>,
    first: usize,
    place: usize,
    numbers: &[usize],
) -> Result<(), OutOfMemory>
    ensures long { OnOk result (length turned.new.items ≡ length turned.old.items) }
    ensures added { OnOk result ((k other : ℕ) → k < length turned.old.items → has (get_or turned.new.items k []) other ≡ (has (get_or turned.old.items k []) other || ((place == other) && has numbers.now (first + k)))) }
{
    for &number in numbers {
        if number >= first && number - first < turned.len() {
            push_at(turned, number - first, place)?;
        }
    }
    Ok(())
}

fn push_at(lists: &mut Vec<List<usize>>, at: usize, place: usize) -> Result<(), OutOfMemory>
    requires { at < length lists.old.items }
    ensures long { OnOk result (length lists.new.items ≡ length lists.old.items) }
    ensures there { OnOk result ((other : ℕ) → has (get_or lists.new.items at []) other ≡ (has (get_or lists.old.items at []) other || (place == other))) }
    ensures elsewhere { OnOk result ((k : ℕ) → (k ≡ at → ⊥) → get_or lists.new.items k [] ≡ get_or lists.old.items k []) }
{
    let list = &mut lists[at];
    match list.push(place) {
        Ok(()) => Ok(()),
        Err(_) => Err(AllocError),
    }
}
