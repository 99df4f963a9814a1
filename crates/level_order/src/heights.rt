//! How high places stand above those that they lead to.
ghost use Rattle.std.specs.Prelude.{◌≡◌, ◌+◌, ◌<◌, ℕ, [], None, IfOk, OnOk, MatchOption, get_or, length};
ghost use Rattle.level_order.specs.Heights.{AreHeights, AreSound, IsOpen, IsRaised, height_over, rise_at};
ghost use Rattle.level_order.specs.Ways.{known_count};

use crate::order::order_of;
use prop_map::{List, OutOfMemory};
use std::alloc::{AllocError, Global};

/// For each place how high it stands: as high as the highest of those that it leads to, an interface one higher, 0 where
/// there are none; none where no height will do. The places before the first interface are those of descriptions.
pub(crate) fn heights_of(
    alloc: Global,
    links: &[List<usize>],
    first: usize,
) -> Result<Vec<Option<u32>>, OutOfMemory>
    ensures { IfOk result (λ v. AreHeights first links.now v.items) }
{
    let mut heights = vec![in alloc; None; links.len()]?;
    let order = order_of(alloc, links)?;
    for _round in 0..links.len() {
        raise_all(links, first, &order, &mut heights)?;
        match first_open(links, first, &heights)? {
            None => return Ok(heights),
            Some(place) => raise(links, first, place, &mut heights)?,
        }
    }
    Ok(heights)
}

// In a good order one round is enough.
fn raise_all(
    links: &[List<usize>],
    first: usize,
    order: &[usize],
    heights: &mut Vec<Option<u32>>,
) -> Result<(), OutOfMemory>
    requires { AreSound first links.now heights.old.items }
    ensures { OnOk result (IsRaised first links.now heights.old.items heights.new.items) }
{
    for &place in order {
        raise(links, first, place, heights)?;
    }
    Ok(())
}

// Gives a place its height, if it has none and all that it leads to have theirs.
fn raise(
    links: &[List<usize>],
    first: usize,
    place: usize,
    heights: &mut Vec<Option<u32>>,
) -> Result<(), OutOfMemory>
    requires { AreSound first links.now heights.old.items }
    ensures raised { OnOk result (IsRaised first links.now heights.old.items heights.new.items) }
    ensures more { OnOk result (place < length links.now → IsOpen first links.now heights.old.items place → known_count heights.old.items < known_count heights.new.items) }
{
    if place < links.len() && place < heights.len() && height_at(heights, place).is_none() {
        let height = height_over(links[place].as_slice(), rise_at(first, place), heights)?;
        heights[place] = height;
    }
    Ok(())
}

// The first place that has no height while all that it leads to have theirs.
fn first_open(
    links: &[List<usize>],
    first: usize,
    heights: &[Option<u32>],
) -> Result<Option<usize>, OutOfMemory>
    ensures { IfOk result (λ found. MatchOption found ((place : ℕ) → place < length links.now → ¬ IsOpen first links.now heights.now place) (λ place. (place < length links.now) × IsOpen first links.now heights.now place)) }
{
    for (place, list) in links.iter().enumerate() {
        if height_at(heights, place).is_none()
            && height_over(list.as_slice(), rise_at(first, place), heights)?.is_some()
        {
            return Ok(Some(place));
        }
    }
    Ok(None)
}

fn rise_at(first: usize, place: usize) -> u32
    ensures { result ≡ rise_at first place }
{
    if place < first { 0 } else { 1 }
}

fn height_over(
    places: &[usize],
    rise: u32,
    heights: &[Option<u32>],
) -> Result<Option<u32>, OutOfMemory>
    ensures { IfOk result (λ height. height ≡ height_over rise places.now heights.now) }
{
    let mut highest = 0u32;
    for &place in places {
        match height_at(heights, place) {
            Some(height) => highest = highest.max(raised(height, rise)?),
            None => return Ok(None),
        }
    }
    Ok(Some(highest))
}

// No height comes near the most that there can be, since there is no memory for so many places.
fn raised(height: u32, rise: u32) -> Result<u32, OutOfMemory>
    ensures { IfOk result (λ sum. sum ≡ height + rise) }
{
    height.checked_add(rise).ok_or(AllocError)
}

/// The height of a place, where it has one.
pub(crate) fn height_at(heights: &[Option<u32>], place: usize) -> Option<u32>
    ensures { result ≡ get_or heights.now place None }
{
    match heights.get(place) {
        Some(height) => *height,
        None => None,
    }
}
