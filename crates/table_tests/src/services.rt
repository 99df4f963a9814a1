//! Services: their table, what references need of them, and which of them they take.

use crate::samples::text;
use component_dto::Reference;
use prop_map::{Cardinality, OutOfMemory, Policy, PolicyOption, Properties, Str, Value};
use reference_match::{
    Need, chosen, desired, is_met, is_met_standing, meets, need_of, needs_with, standing_targets,
    targets,
};
use service_registry::{Registry, RegistryFault};
use std::alloc::Global;

// Whether the numbers are these.
fn are(found: Result<Vec<u64>, OutOfMemory>, wanted: &[u64]) -> bool {
    match found {
        Ok(found) => found.as_slice() == wanted,
        Err(_) => false,
    }
}

// Properties with a number at a key.
fn whole(alloc: Global, key: &str, value: i64) -> Result<Properties, OutOfMemory> {
    let mut properties = Properties::new(alloc);
    properties.set(alloc, key, Value::Whole(value))?;
    Ok(properties)
}

fn ranked(alloc: Global, ranking: i64) -> Result<Properties, OutOfMemory> {
    whole(alloc, "service.ranking", ranking)
}

fn registers(alloc: Global, registry: &mut Registry, interfaces: &[Str], ranking: i64) -> bool {
    match ranked(alloc, ranking) {
        Ok(properties) => registry
            .register(alloc, 1, interfaces, "singleton", properties, true)
            .is_ok(),
        Err(_) => false,
    }
}

fn registers_all(
    alloc: Global,
    registry: &mut Registry,
    interfaces: &[Str],
    rankings: &[i64],
) -> bool {
    for ranking in rankings {
        if !registers(alloc, registry, interfaces, *ranking) {
            return false;
        }
    }
    true
}

// Registers services with the interface X and these rankings, in the order of their numbers.
fn fill(alloc: Global, registry: &mut Registry, rankings: &[i64]) -> bool {
    match text(alloc, "X") {
        Ok(name) => registers_all(alloc, registry, &[name], rankings),
        Err(_) => false,
    }
}

fn best_comes_first(alloc: Global, registry: &Registry) -> bool {
    let is_best = match registry.best("X") {
        Some(best) => best.id == 2,
        None => false,
    };
    is_best && are(registry.find(alloc, "X"), &[2, 1])
}

fn has_revision(registry: &Registry, service: u64, revision: u64) -> bool {
    match registry.row(service) {
        Some(row) => row.revision == revision,
        None => false,
    }
}

fn is_changed(alloc: Global, registry: &mut Registry) -> bool {
    match ranked(alloc, 3) {
        Ok(properties) => registry.set_properties(alloc, 1, 1, properties).is_ok(),
        Err(_) => false,
    }
}

fn changes_and_leaves(alloc: Global, registry: &mut Registry) -> bool {
    is_changed(alloc, registry) && has_revision(registry, 1, 1) && registry.unregister(1, 1).is_ok()
}

fn comes_back(alloc: Global, registry: &mut Registry) -> bool {
    let saved = match registry.save(alloc) {
        Ok(saved) => saved,
        Err(_) => return false,
    };
    let has_left = registry.unregister(1, 1).is_ok();
    registry.go_back(saved);
    has_left && registry.rows().len() == 1
}

// Takes a service out and puts it back.
fn restored(alloc: Global, registry: &mut Registry, service: u64) -> Result<bool, RegistryFault> {
    let room = registry.room(alloc)?;
    let row = registry.unregister(1, service)?;
    registry.put_back(row, room);
    Ok(registry.row(service).is_some())
}

// Gives a service other properties and its former ones again.
fn exchanged(alloc: Global, registry: &mut Registry, service: u64) -> Result<bool, RegistryFault> {
    let row = registry.changed_row(alloc, 1, service, ranked(alloc, 9)?)?;
    match registry.exchange(row) {
        Some(before) => Ok(registry.exchange(before).is_some()),
        None => Ok(false),
    }
}

// Whether a number is given, which is this, and given back.
fn gives(registry: &mut Registry, count: u64, number: u64, back: u64, numbered: u64) -> bool {
    if registry.give(count) != Ok(number) {
        return false;
    }
    registry.give_back(back);
    registry.numbered() == numbered
}

fn changes_are_undone(alloc: Global, registry: &mut Registry) -> bool {
    restored(alloc, registry, 1) == Ok(true)
        && exchanged(alloc, registry, 1) == Ok(true)
        && registry.undo_register().is_some()
        && gives(registry, 4, 1, 4, 1)
}

// A dynamic reference x to services X.
fn reference(
    alloc: Global,
    cardinality: Cardinality,
    policy_option: PolicyOption,
) -> Result<Reference, OutOfMemory> {
    let name = text(alloc, "x")?;
    let interface_name = text(alloc, "X")?;
    Ok(Reference {
        name,
        interface_name,
        cardinality,
        policy: Policy::Dynamic,
        policy_option,
        target: None,
        updated: None,
    })
}

// What a reference x needs by these properties of its component.
fn need(
    alloc: Global,
    properties: &Properties,
    cardinality: Cardinality,
    policy_option: PolicyOption,
) -> Result<Need, OutOfMemory> {
    let reference = reference(alloc, cardinality, policy_option)?;
    need_of(alloc, properties, &reference)
}

fn aims(alloc: Global, target: &str) -> Result<Properties, OutOfMemory> {
    let target = text(alloc, target)?;
    let mut properties = Properties::new(alloc);
    properties.set(alloc, "x.target", Value::Text(target))?;
    Ok(properties)
}

// What a reference x needs where its target is this text.
fn aimed(alloc: Global, target: &str) -> Result<Need, OutOfMemory> {
    let properties = aims(alloc, target)?;
    need(
        alloc,
        &properties,
        Cardinality::ZeroOrMore,
        PolicyOption::Greedy,
    )
}

// What a reference x needs where its minimum is this.
fn counted(alloc: Global, minimum: i64) -> Result<Need, OutOfMemory> {
    let properties = whole(alloc, "x.cardinality.minimum", minimum)?;
    need(
        alloc,
        &properties,
        Cardinality::ZeroOrMore,
        PolicyOption::Greedy,
    )
}

// Whether the first service alone is a target, once among those of the table and once among the others.
fn first_is_target(alloc: Global, registry: &Registry, need: &Need) -> bool {
    are(targets(alloc, need, registry.rows()), &[1])
        && are(
            standing_targets(alloc, need, registry.rows(), registry.rows()),
            &[1, 1],
        )
}

fn has_first_as_target(alloc: Global, registry: &Registry) -> bool {
    match aimed(alloc, "(service.ranking>=5)") {
        Ok(need) => first_is_target(alloc, registry, &need),
        Err(_) => false,
    }
}

fn is_met_by_none(alloc: Global, registry: &Registry) -> bool {
    match aimed(alloc, "(service.ranking>=5") {
        Ok(need) => registry.rows().iter().all(|row| !meets(&need, row)),
        Err(_) => false,
    }
}

fn wants_three(alloc: Global, registry: &Registry) -> bool {
    match counted(alloc, 3) {
        Ok(need) => {
            !is_met(&need, registry.rows())
                && is_met_standing(&need, registry.rows(), registry.rows())
        }
        Err(_) => false,
    }
}

/// What is done with a table of services.
#[derive(Clone, Copy)]
enum Story {
    Best,
    Changed,
    Saved,
    Undone,
    Given,
    Targeted,
    NoFilter,
    Minimum,
}

fn comes_true(alloc: Global, registry: &mut Registry, story: Story) -> bool {
    match story {
        Story::Best => best_comes_first(alloc, registry),
        Story::Changed => changes_and_leaves(alloc, registry),
        Story::Saved => comes_back(alloc, registry),
        Story::Undone => changes_are_undone(alloc, registry),
        Story::Given => gives(registry, 4, 2, 9, 2),
        Story::Targeted => has_first_as_target(alloc, registry),
        Story::NoFilter => is_met_by_none(alloc, registry),
        Story::Minimum => wants_three(alloc, registry),
    }
}

// The same in a table whose services have these rankings. No other function owns one.
fn holds(alloc: Global, rankings: &[i64], story: Story) -> bool {
    match Registry::new(alloc) {
        Ok(mut registry) => {
            fill(alloc, &mut registry, rankings) && comes_true(alloc, &mut registry, story)
        }
        Err(_) => false,
    }
}

#[test]
fn the_best_service_is_found_first(rt: HostRuntime) {
    assert!(rt; holds(rt.alloc(), &[5, 7], Story::Best));
}

#[test]
fn its_bundle_changes_a_service(rt: HostRuntime) {
    assert!(rt; holds(rt.alloc(), &[1], Story::Changed));
}

#[test]
fn a_saved_table_comes_back(rt: HostRuntime) {
    assert!(rt; holds(rt.alloc(), &[1], Story::Saved));
}

#[test]
fn each_change_is_undone(rt: HostRuntime) {
    assert!(rt; holds(rt.alloc(), &[1, 2], Story::Undone));
}

#[test]
fn the_number_of_a_standing_row_stays_given(rt: HostRuntime) {
    assert!(rt; holds(rt.alloc(), &[1, 2], Story::Given));
}

#[test]
fn targets_match_the_filter(rt: HostRuntime) {
    assert!(rt; holds(rt.alloc(), &[5, 0], Story::Targeted));
}

#[test]
fn nothing_meets_a_target_that_is_no_filter(rt: HostRuntime) {
    assert!(rt; holds(rt.alloc(), &[5], Story::NoFilter));
}

#[test]
fn a_minimum_is_met_by_so_many(rt: HostRuntime) {
    assert!(rt; holds(rt.alloc(), &[5, 5], Story::Minimum));
}

fn keeps_its_choice(alloc: Global) -> bool {
    let properties = Properties::new(alloc);
    match need(
        alloc,
        &properties,
        Cardinality::One,
        PolicyOption::Reluctant,
    ) {
        Ok(need) => {
            are(chosen(alloc, &need, &[4, 1, 2]), &[4])
                && are(desired(alloc, &need, &[], &[2], &[4, 1, 2]), &[2])
        }
        Err(_) => false,
    }
}

#[test]
fn a_reluctant_reference_keeps_its_service(rt: HostRuntime) {
    assert!(rt; keeps_its_choice(rt.alloc()));
}

// Whether the second of two needs takes services of its own table alone.
fn second_is_direct(needs: &[Need]) -> bool {
    match needs {
        [_, second] => second.direct_only,
        _ => false,
    }
}

fn adds_the_implicit(alloc: Global, references: &[Reference]) -> bool {
    match needs_with(alloc, true, references, &Properties::new(alloc)) {
        Ok(needs) => second_is_direct(needs.as_slice()),
        Err(_) => false,
    }
}

fn implicit_comes_last(alloc: Global) -> bool {
    match reference(alloc, Cardinality::One, PolicyOption::Greedy) {
        Ok(reference) => adds_the_implicit(alloc, &[reference]),
        Err(_) => false,
    }
}

#[test]
fn the_implicit_reference_comes_last(rt: HostRuntime) {
    assert!(rt; implicit_comes_last(rt.alloc()));
}
