//! The least of the shortest ways to a place.
ghost use Rattle.std.specs.Prelude.{◌≡◌, ◌++◌, [], Some, None, OnOk, get_or};
ghost use Rattle.level_order.specs.Links.{AreLinks};
ghost use Rattle.level_order.specs.Lowest.{lower, lowest_in, lowest_over};
ghost use Rattle.level_order.specs.Uses.{all_uses};
ghost use Rattle.level_order.specs.Ways.{first_at, is_at, least_path};

use crate::links::{Links, places_at};
use crate::ways::steps_at;
use component_dto::Description;
use prop_map::{List, OutOfMemory};

// Always on to the first place that is nearer.
pub(crate) fn push_least_path(
    path: &mut Vec<usize>,
    descriptions: &[Description],
    links: &Links,
    steps: &[Option<usize>],
    from: usize,
    count: usize,
) -> Result<(), OutOfMemory>
    requires { AreLinks descriptions.now links.now.onward.items links.now.back.items }
    ensures { OnOk result (path.new.items ≡ path.old.items ++ least_path (all_uses descriptions.now) steps.now from count) }
{
    let mut at = from;
    let mut left = count;
    while left > 0 {
        left -= 1;
        match first_at(descriptions, links, steps, left, at) {
            Some(place) => {
                path.push(place)?;
                at = place;
            }
            None => return Ok(()),
        }
    }
    Ok(())
}

// The first of the places that a place consumes from which a shortest way passes so many.
fn first_at(
    descriptions: &[Description],
    links: &Links,
    steps: &[Option<usize>],
    left: usize,
    at: usize,
) -> Option<usize>
    requires { AreLinks descriptions.now links.now.onward.items links.now.back.items }
    ensures { result ≡ first_at steps.now left (get_or (all_uses descriptions.now) at []) }
{
    if at < descriptions.len() {
        lowest_over(&links.onward, steps, left, places_at(&links.onward, at))
    } else {
        None
    }
}

fn lowest_over(
    onward: &[List<usize>],
    steps: &[Option<usize>],
    left: usize,
    interfaces: &[usize],
) -> Option<usize>
    ensures { result ≡ lowest_over onward.now steps.now left interfaces.now }
{
    let mut lowest = None;
    for &interface in interfaces {
        lowest = lower(lowest, lowest_in(steps, left, places_at(onward, interface)));
    }
    lowest
}

fn lowest_in(steps: &[Option<usize>], left: usize, places: &[usize]) -> Option<usize>
    ensures { result ≡ lowest_in steps.now left places.now }
{
    let mut lowest = None;
    for &place in places {
        if is_at(steps_at(steps, place), left) {
            lowest = lower(lowest, Some(place));
        }
    }
    lowest
}

fn lower(one: Option<usize>, other: Option<usize>) -> Option<usize>
    ensures { result ≡ lower one other }
{
    match (one, other) {
        (Some(one), Some(other)) => Some(one.min(other)),
        (Some(one), None) => Some(one),
        (None, other) => other,
    }
}

fn is_at(steps: Option<usize>, left: usize) -> bool
    ensures { result ≡ is_at steps left }
{
    match steps {
        Some(count) => count == left,
        None => false,
    }
}
