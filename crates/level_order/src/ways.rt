//! How many places the shortest ways to a place pass, each description leading to those that it consumes.
ghost use Rattle.std.specs.Prelude.{◌≡◌, ◌<◌, ℕ, None, false, IfOk, get_or, length};
ghost use Rattle.level_order.specs.Links.{AreLinks};
ghost use Rattle.level_order.specs.Uses.{all_uses};
ghost use Rattle.level_order.specs.Ways.{Measures};

use crate::links::Links;
use crate::spread::Search;
use component_dto::Description;
use prop_map::OutOfMemory;
use std::alloc::Global;
use std::mem;

// For each place how many places a shortest way to this one passes, where there is a way. Each round goes on from the
// places that the last one found, until one finds none.
pub(crate) fn all_steps(
    alloc: Global,
    descriptions: &[Description],
    links: &Links,
    to: usize,
) -> Result<Vec<Option<usize>>, OutOfMemory>
    requires linked { AreLinks descriptions.now links.now.onward.items links.now.back.items }
    requires within { to < length descriptions.now }
    ensures { IfOk result (λ v. Measures (all_uses descriptions.now) to v.items) }
{
    let mut search = Search {
        steps: nothing(alloc, descriptions.len())?,
        seen: unseen(alloc, links.back.len())?,
        found: Vec::new(alloc),
    };
    search.spread(&links.back, &[to], 0)?;
    for count in 1..descriptions.len() + 2 {
        let from = mem::replace(&mut search.found, Vec::new(alloc));
        search.spread(&links.back, &from, count)?;
        if search.found.is_empty() {
            return Ok(search.steps);
        }
    }
    Ok(search.steps)
}

fn nothing(alloc: Global, count: usize) -> Result<Vec<Option<usize>>, OutOfMemory>
    ensures long { IfOk result (λ v. length v.items ≡ count) }
    ensures unknown { IfOk result (λ v. (k : ℕ) → get_or v.items k None ≡ None) }
{
    let mut steps = Vec::new(alloc);
    for _at in 0..count {
        steps.push(None)?;
    }
    Ok(steps)
}

fn unseen(alloc: Global, count: usize) -> Result<Vec<bool>, OutOfMemory>
    ensures long { IfOk result (λ v. length v.items ≡ count) }
    ensures unseen { IfOk result (λ v. (k : ℕ) → get_or v.items k false ≡ false) }
{
    let mut seen = Vec::new(alloc);
    for _at in 0..count {
        seen.push(false)?;
    }
    Ok(seen)
}

// How many places a shortest way from there passes.
pub(crate) fn steps_at(steps: &[Option<usize>], place: usize) -> Option<usize>
    ensures { result ≡ get_or steps.now place None }
{
    match steps.get(place) {
        Some(count) => *count,
        None => None,
    }
}
