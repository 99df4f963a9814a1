//! Which places can't lie on a cycle.
ghost use Rattle.std.specs.Prelude.{◌≡◌, ◌<◌, ◌≤◌, ℕ, [], None, Some, IfOk, true, get_or, length};
ghost use Rattle.std.specs.Bool.{OnTrue};
ghost use Rattle.level_order.specs.Ranks.{NeverFall, RiseAt, rank_at};
ghost use Rattle.level_order.specs.Ways.{has};

use crate::order::order_of;
use prop_map::{List, OutOfMemory};
use std::alloc::Global;

/// For each place a number that no link makes less: a number for all places that lead to one another, and a greater one
/// for those that they lead to, but that don't lead back.
pub(crate) fn ranks_of(
    alloc: Global,
    onward: &[List<usize>],
    back: &[List<usize>],
) -> Result<Vec<usize>, OutOfMemory> {
    let order = order_of(alloc, onward)?;
    let mut ranks = vec![in alloc; 0; back.len()]?;
    for (number, &place) in order.iter().rev().enumerate() {
        rank_all(alloc, back, place, number.saturating_add(1), &mut ranks)?;
    }
    Ok(ranks)
}

// Gives the rank to a place and to all that lead to it and have none.
fn rank_all(
    alloc: Global,
    back: &[List<usize>],
    place: usize,
    rank: usize,
    ranks: &mut [usize],
) -> Result<(), OutOfMemory> {
    let mut left = Vec::new(alloc);
    rank_one(place, rank, ranks, &mut left)?;
    for _ in 0..back.len() {
        match left.pop() {
            Some(place) if place < back.len() => {
                for &before in back[place].as_slice() {
                    rank_one(before, rank, ranks, &mut left)?;
                }
            }
            _ => return Ok(()),
        }
    }
    Ok(())
}

fn rank_one(
    place: usize,
    rank: usize,
    ranks: &mut [usize],
    left: &mut Vec<usize>,
) -> Result<(), OutOfMemory> {
    if place < ranks.len() && ranks[place] == 0 {
        ranks[place] = rank;
        left.push(place)?;
    }
    Ok(())
}

/// Whether no link leads to a lower rank.
pub(crate) fn never_fall(links: &[List<usize>], ranks: &[usize]) -> bool
    ensures { OnTrue result (NeverFall links.now ranks.now) }
{
    for (place, list) in links.iter().enumerate() {
        if !are_at_least(rank_at(ranks, place), list.as_slice(), ranks) {
            return false;
        }
    }
    true
}

/// Whether each link of a place leads to a higher rank. No such place lies on a cycle where ranks never fall.
pub(crate) fn rise_at(links: &[List<usize>], ranks: &[usize], place: usize) -> bool
    ensures { OnTrue result (RiseAt links.now ranks.now place) }
{
    match (links.get(place), rank_at(ranks, place).checked_add(1)) {
        (Some(list), Some(higher)) => are_at_least(higher, list.as_slice(), ranks),
        _ => false,
    }
}

fn are_at_least(rank: usize, places: &[usize], ranks: &[usize]) -> bool
    ensures { OnTrue result ((place : ℕ) → has places.now place ≡ true → rank ≤ rank_at ranks.now place) }
{
    for &place in places {
        if rank_at(ranks, place) < rank {
            return false;
        }
    }
    true
}

fn rank_at(ranks: &[usize], place: usize) -> usize
    ensures { result ≡ rank_at ranks.now place }
{
    match ranks.get(place) {
        Some(rank) => *rank,
        None => 0,
    }
}
