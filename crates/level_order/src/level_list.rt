//! The levels of a list of descriptions.
ghost use Rattle.std.specs.Prelude.{◌≡◌, ◌<◌, ◌≤◌, ℕ, Some, None, IfOk, MatchOption, get_or, length};
ghost use Rattle.level_order.specs.Answers.{HasLevels};
ghost use Rattle.level_order.specs.Heights.{AreKnown};

use crate::LevelFault;
use crate::heights::{height_at, heights_of};
use crate::links::links_of;
use crate::told_cycle::told_names;
use component_dto::Description;
use prop_map::{List, OutOfMemory};
use std::alloc::Global;

// So that a level, which is less than their number, fits in 32 bits.
const MOST_DESCRIPTIONS: usize = 0xffff_fff0;

/// The level of each description, in their order: 0 where it consumes none of them, else 1 more than the highest level
/// of those that it consumes. The work grows with the number of descriptions, interfaces and references alone, but for the
/// logarithm in which their names are sorted.
///
/// # Errors
/// `Cycle`, with the told path, exactly where no list of levels is one; `OutOfMemory`, which is also the answer to more descriptions than
/// levels in 32 bits can tell apart.
pub fn levels(alloc: Global, descriptions: &[Description]) -> Result<List<u32>, LevelFault>
    ensures { HasLevels descriptions.now result }
{
    if descriptions.len() > MOST_DESCRIPTIONS {
        return Err(LevelFault::OutOfMemory);
    }
    let links = links_of(alloc, descriptions)?;
    let heights = heights_of(alloc, &links.onward, descriptions.len())?;
    match level_known_for(alloc, &heights, descriptions.len())? {
        Some(levels) => Ok(List::of(levels)),
        None => Err(LevelFault::Cycle {
            path: told_names(alloc, descriptions, &links)?,
        }),
    }
}

// The first heights, where all of them are known.
fn level_known_for(
    alloc: Global,
    heights: &[Option<u32>],
    count: usize,
) -> Result<Option<Vec<u32>>, OutOfMemory>
    ensures { IfOk result (λ found. MatchOption found ((place : ℕ) × (place < count) × (get_or heights.now place None ≡ None)) (λ v. AreKnown count heights.now v.items)) }
{
    let mut known = Vec::new(alloc);
    for place in 0..count {
        match height_at(heights, place) {
            Some(height) => known.push(height)?,
            None => return Ok(None),
        }
    }
    Ok(Some(known))
}
