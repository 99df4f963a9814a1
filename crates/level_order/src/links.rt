//! How descriptions are joined by the interfaces that they name.
ghost use Rattle.std.specs.Prelude.{◌≡◌, ◌+◌, ◌++◌, ◌<◌, ◌^◌, [], IfOk, get_or, length, map};
ghost use Rattle.std.specs.Cmp.Lexicographic.{slice_cmp};
ghost use Rattle.std.specs.List.Sorted.{IsSorted};
ghost use Rattle.std.specs.Ordering.{nat_cmp};
ghost use Rattle.level_order.specs.Links.{AreLinks, needs_of, gives_of};

use crate::interface_names::{names_in, number_of};
use crate::turned::turned;
use component_dto::Description;
use prop_map::{List, OutOfMemory};
use std::alloc::{AllocError, Global};

/// Places that lead to others: the first ones are those of descriptions, the others stand for interfaces. A description
/// leads to the interfaces that it references, an interface to the descriptions that provide it.
#[derive(Drop)]
pub(crate) struct Links {
    /// Where each place leads to.
    pub(crate) onward: Vec<List<usize>>,
    /// From where one comes to each place.
    pub(crate) back: Vec<List<usize>>,
}

/// The links of these descriptions.
pub(crate) fn links_of(alloc: Global, descriptions: &[Description]) -> Result<Links, OutOfMemory>
    ensures { IfOk result (λ l. AreLinks descriptions.now l.onward.items l.back.items) }
{
    let names = names_in(alloc, descriptions)?;
    let first = descriptions.len();
    if usize::MAX - first < names.len() {
        return Err(AllocError);
    }
    let needs = all_needs(alloc, &names, first, descriptions)?;
    let gives = all_gives(alloc, &names, first, descriptions)?;
    let needers = turned(alloc, &needs, first, names.len())?;
    let givers = turned(alloc, &gives, first, names.len())?;
    Ok(Links {
        onward: joined(needs, givers)?,
        back: joined(gives, needers)?,
    })
}

fn all_needs(
    alloc: Global,
    names: &[&str],
    first: usize,
    descriptions: &[Description],
) -> Result<Vec<List<usize>>, OutOfMemory>
    requires sorted { IsSorted (λ a b. slice_cmp nat_cmp a.now b.now) names.now }
    requires fits { first + length names.now < 2 ^ 64 }
    ensures { IfOk result (λ v. v.items ≡ map (needs_of (map (λ t. t.now) names.now) first) descriptions.now) }
{
    let mut needs = Vec::new(alloc);
    for description in descriptions {
        needs.push(needs_of(alloc, names, first, description)?)?;
    }
    Ok(needs)
}

fn needs_of(
    alloc: Global,
    names: &[&str],
    first: usize,
    description: &Description,
) -> Result<List<usize>, OutOfMemory>
    requires sorted { IsSorted (λ a b. slice_cmp nat_cmp a.now b.now) names.now }
    requires fits { first + length names.now < 2 ^ 64 }
    ensures { IfOk result (λ numbers. numbers ≡ needs_of (map (λ t. t.now) names.now) first description.now) }
{
    let mut numbers = Vec::new(alloc);
    for reference in description.references.as_slice() {
        numbers.push(first + number_of(names, reference.interface_name.as_str()))?;
    }
    Ok(List::of(numbers))
}

fn all_gives(
    alloc: Global,
    names: &[&str],
    first: usize,
    descriptions: &[Description],
) -> Result<Vec<List<usize>>, OutOfMemory>
    requires sorted { IsSorted (λ a b. slice_cmp nat_cmp a.now b.now) names.now }
    requires fits { first + length names.now < 2 ^ 64 }
    ensures { IfOk result (λ v. v.items ≡ map (gives_of (map (λ t. t.now) names.now) first) descriptions.now) }
{
    let mut gives = Vec::new(alloc);
    for description in descriptions {
        gives.push(gives_of(alloc, names, first, description)?)?;
    }
    Ok(gives)
}

fn gives_of(
    alloc: Global,
    names: &[&str],
    first: usize,
    description: &Description,
) -> Result<List<usize>, OutOfMemory>
    requires sorted { IsSorted (λ a b. slice_cmp nat_cmp a.now b.now) names.now }
    requires fits { first + length names.now < 2 ^ 64 }
    ensures { IfOk result (λ numbers. numbers ≡ gives_of (map (λ t. t.now) names.now) first description.now) }
{
    let mut numbers = Vec::new(alloc);
    for interface in description.service_interfaces.as_slice() {
        numbers.push(first + number_of(names, interface.as_str()))?;
    }
    Ok(List::of(numbers))
}

fn joined(
    mut front: Vec<List<usize>>,
    mut back: Vec<List<usize>>,
) -> Result<Vec<List<usize>>, OutOfMemory>
    ensures { IfOk result (λ v. v.items ≡ front.items ++ back.items) }
{
    front.append(&mut back)?;
    Ok(front)
}

/// Where a place leads to by these lists.
pub(crate) fn places_at(lists: &[List<usize>], at: usize) -> &[usize]
    ensures { result.now ≡ get_or lists.now at [] }
{
    match lists.get(at) {
        Some(places) => places.as_slice(),
        None => &[],
    }
}
