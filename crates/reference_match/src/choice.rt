//! The services that a reference chooses and desires (OSGi Compendium 8, chapter 112, reference cardinality, reference
//! policy and reference policy option).
ghost use Rattle.prop_map.specs.Words.{has};
ghost use Rattle.reference_match.specs.Targets.{best_held_or_best, chosen, desired, is_multiple};
ghost use Rattle.std.specs.Prelude.{◌≡◌, IfOk, filter, take};

use crate::Need;
use prop_map::{Cardinality, OutOfMemory, Policy, PolicyOption};
use std::alloc::Global;

/// Of its targets, the best first, those that a reference chooses: all where its cardinality is multiple, else the best
/// one.
///
/// # Errors
/// Only want of memory.
pub fn chosen(alloc: Global, need: &Need, targets: &[u64]) -> Result<Vec<u64>, OutOfMemory>
    ensures { IfOk result (λ v. v.items ≡ chosen need.now targets.now) }
{
    if is_multiple(need.cardinality) {
        Vec::from_slice(alloc, targets)
    } else {
        best(alloc, targets)
    }
}

/// The services that a reference desires, the best first, where it chose and holds these and has these targets: the
/// choice where it is static; else all targets where its cardinality is multiple, the best one where it is greedy, and
/// the best held one where it is reluctant, or the best one where it holds none of them.
///
/// # Errors
/// Only want of memory.
pub fn desired(
    alloc: Global,
    need: &Need,
    choice: &[u64],
    held: &[u64],
    targets: &[u64],
) -> Result<Vec<u64>, OutOfMemory>
    ensures { IfOk result (λ v. v.items ≡ desired need.now choice.now held.now targets.now) }
{
    match (need.policy, is_multiple(need.cardinality), need.option) {
        (Policy::Static, _, _) => Vec::from_slice(alloc, choice),
        (Policy::Dynamic, true, _) => Vec::from_slice(alloc, targets),
        (Policy::Dynamic, false, PolicyOption::Greedy) => best(alloc, targets),
        (Policy::Dynamic, false, PolicyOption::Reluctant) => best_held_or_best(
            alloc, held, targets,
        ),
    }
}

fn best_held_or_best(alloc: Global, held: &[u64], targets: &[u64]) -> Result<Vec<u64>, OutOfMemory>
    ensures { IfOk result (λ v. v.items ≡ best_held_or_best held.now targets.now) }
{
    let among = held_among(alloc, held, targets)?;
    if among.is_empty() {
        best(alloc, targets)
    } else {
        best(alloc, &among)
    }
}

// The targets that are held.
fn held_among(alloc: Global, held: &[u64], targets: &[u64]) -> Result<Vec<u64>, OutOfMemory>
    ensures { IfOk result (λ v. v.items ≡ filter (has held.now) targets.now) }
{
    let mut found = Vec::new(alloc);
    for &service in targets {
        if held.contains(&service) {
            found.push(service)?;
        }
    }
    Ok(found)
}

// The first one.
fn best(alloc: Global, services: &[u64]) -> Result<Vec<u64>, OutOfMemory>
    ensures { IfOk result (λ v. v.items ≡ take 1 services.now) }
{
    let mut found = Vec::new(alloc);
    match services.first() {
        Some(service) => found.push(*service)?,
        None => {}
    }
    Ok(found)
}

fn is_multiple(cardinality: Cardinality) -> bool
    ensures { result ≡ is_multiple cardinality }
{
    matches!(
        cardinality,
        Cardinality::ZeroOrMore | Cardinality::OneOrMore
    )
}
