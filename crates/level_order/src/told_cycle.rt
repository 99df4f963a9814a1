//! The cycle that is told where some description has no level.
ghost use Rattle.std.specs.Prelude.{◌≡◌, ◌<◌, ℕ, IfOk, MatchOption, length};
ghost use Rattle.level_order.specs.Cycles.{TellsCycle, names_at};
ghost use Rattle.level_order.specs.Levels.{IsAcyclic};
ghost use Rattle.level_order.specs.Links.{AreLinks};
ghost use Rattle.level_order.specs.Uses.{all_uses};
ghost use Rattle.level_order.specs.Ways.{IsCycleFrom, IsFoundCycle, OnNone};

use crate::least_path::push_least_path;
use crate::links::Links;
use crate::ranks::{never_fall, ranks_of, rise_at};
use crate::ways::{all_steps, steps_at};
use component_dto::Description;
use prop_map::{Copies, List, OutOfMemory, Str};
use std::alloc::Global;

// The names on the told cycle, the first one again at the end.
pub(crate) fn told_names(
    alloc: Global,
    descriptions: &[Description],
    links: &Links,
) -> Result<List<Str>, OutOfMemory>
    requires linked { AreLinks descriptions.now links.now.onward.items links.now.back.items }
    requires cyclic { ¬ IsAcyclic descriptions.now }
    ensures { IfOk result (λ names. TellsCycle descriptions.now names) }
{
    match found_cycle(alloc, descriptions, links)? {
        Some(places) => names_at(alloc, descriptions, &places),
        None => Ok(List::of(Vec::new(alloc))),
    }
}

// Most places are passed by for their ranks, so that one search is made where ranks are as good as they can be.
fn found_cycle(
    alloc: Global,
    descriptions: &[Description],
    links: &Links,
) -> Result<Option<Vec<usize>>, OutOfMemory>
    requires { AreLinks descriptions.now links.now.onward.items links.now.back.items }
    ensures { IfOk result (λ found. MatchOption found ((place : ℕ) → place < length descriptions.now → OnNone (all_uses descriptions.now) place) (λ v. IsFoundCycle (all_uses descriptions.now) v.items)) }
{
    let ranks = ranks_of(alloc, &links.onward, &links.back)?;
    let are_good = never_fall(&links.onward, &ranks);
    for place in 0..descriptions.len() {
        if are_good && rise_at(&links.onward, &ranks, place) {
            continue;
        }
        if let Some(places) = cycle_from(alloc, descriptions, links, place)? {
            return Ok(Some(places));
        }
    }
    Ok(None)
}

// The way from a place back to itself, where there is one.
fn cycle_from(
    alloc: Global,
    descriptions: &[Description],
    links: &Links,
    first: usize,
) -> Result<Option<Vec<usize>>, OutOfMemory>
    requires linked { AreLinks descriptions.now links.now.onward.items links.now.back.items }
    requires within { first < length descriptions.now }
    ensures { IfOk result (λ found. MatchOption found (OnNone (all_uses descriptions.now) first) (λ v. IsCycleFrom (all_uses descriptions.now) first v.items)) }
{
    let steps = all_steps(alloc, descriptions, links, first)?;
    match steps_at(&steps, first) {
        Some(count) => {
            let mut places = Vec::new(alloc);
            places.push(first)?;
            push_least_path(&mut places, descriptions, links, &steps, first, count)?;
            places.push(first)?;
            Ok(Some(places))
        }
        None => Ok(None),
    }
}

fn names_at(
    alloc: Global,
    descriptions: &[Description],
    places: &[usize],
) -> Result<List<Str>, OutOfMemory>
    ensures { IfOk result (λ names. names ≡ names_at descriptions.now places.now) }
{
    let mut names = Vec::new(alloc);
    for &place in places {
        if let Some(description) = descriptions.get(place) {
            names.push(description.name.copy(alloc)?)?;
        }
    }
    Ok(List::of(names))
}
