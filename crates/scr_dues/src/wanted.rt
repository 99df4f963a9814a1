//! Wanted keys: the instances that are to be there (OSGi Compendium 8, chapter 112, "Immediate Component", "Delayed Component";
//! scopes: OSGi Core 8, chapter 5, "Service Scope"; keys are our own).
ghost use Rattle.component_state.specs.Components.{has_singleton_scope, provides_no_service};
ghost use Rattle.component_state.specs.declared.component.Component.{Component};
ghost use Rattle.component_state.specs.declared.open_period.OpenPeriod.{OpenPeriod};
ghost use Rattle.bundle_life.specs.declared.bundle.BundleLife.{BundleLife};
ghost use Rattle.scr_dues.specs.Desires.{are_desiring};
ghost use Rattle.scr_dues.specs.FirstDues.{missing_keys};
ghost use Rattle.scr_dues.specs.Wanting.{is_missing, is_used_where, is_wanted_where, keys_of_where, keys_where, missing_for_where};
ghost use Rattle.scr_world.specs.Wanted.{has_instance, is_got_by, is_immediate, missing};
ghost use Rattle.std.specs.List.{list_any};
ghost use Rattle.std.specs.Option.{option_copied};
ghost use Rattle.std.specs.Prelude.{◌≡◌, ◌==◌, ◌∷◌, ◌++◌, [], IfOk, OnOk, filter, find, flat_map, map};

use crate::desiring::{Desiring, all_desiring, are_desiring};
use crate::own_rows::OwnRows;
use crate::readiness::consumer_for;
use bundle_life::BundleLife;
use callback_orders::Key;
use component_dto::Scope;
use component_state::{Component, OpenPeriod};
use prop_map::OutOfMemory;
use scr_world::{Instance, World};
use std::alloc::Global;
use use_counts::UseRow;

fn is_immediate(component: &Component) -> bool
    ensures { result ≡ is_immediate component.now }
{
    let description = component.description.get();
    description.immediate || description.service_interfaces.as_slice().is_empty()
}

fn has_singleton_scope(component: &Component) -> bool
    ensures { result ≡ has_singleton_scope component.now.description.scope }
{
    matches!(component.description.get().scope, Scope::Singleton)
}

// Whether a bundle that an instance is for has got a service.
fn is_got(uses: &[UseRow], component: &Component, service: u64, consumer: u64) -> bool
    ensures { result ≡ list_any (is_got_by component.now service consumer) uses.now }
{
    uses.iter().any(|row| row.service == service && consumer_for(component, row.bundle) == consumer)
}

fn is_used(
    world: &World,
    desiring: &[Desiring],
    component: &Component,
    service: u64,
    consumer: u64,
) -> bool
    ensures { result ≡ is_used_where world.now (are_desiring desiring.now) component.now service consumer }
{
    service != 0
        && (are_desiring(desiring, component, service, consumer)
            || is_got(world.uses.rows(), component, service, consumer))
}

fn is_wanted(
    world: &World,
    desiring: &[Desiring],
    component: &Component,
    period: &OpenPeriod,
    consumer: u64,
) -> bool
    ensures { result ≡ is_wanted_where world.now (are_desiring desiring.now) component.now period.now consumer }
{
    (is_immediate(component) && consumer == 0)
        || is_used(world, desiring, component, period.row.id, consumer)
}

// A living instance is of this key.
fn has_instance(instances: &[Instance], key: Key) -> bool
    ensures { result ≡ has_instance instances.now key }
{
    instances.iter().any(|instance| {
        instance.origin.get().configuration == key.configuration
            && instance.consumer == key.consumer
    })
}

// Adds the key for a consumer, where it is wanted and has no instance.
fn add_key(
    found: &mut Vec<Key>,
    world: &World,
    desiring: &[Desiring],
    component: &Component,
    period: &OpenPeriod,
    consumer: u64,
) -> Result<(), OutOfMemory>
    ensures { OnOk result (found.new.items ≡ found.old.items
        ++ filter (is_missing world.now) (keys_where world.now (are_desiring desiring.now) component.now period.now (consumer ∷ []))) }
{
    let key = Key {
        configuration: component.number,
        consumer,
    };
    if !has_instance(world.instances.as_slice(), key)
        && is_wanted(world, desiring, component, period, consumer)
    {
        found.push(key)?;
    }
    Ok(())
}

fn add_bundle_keys(
    found: &mut Vec<Key>,
    world: &World,
    desiring: &[Desiring],
    component: &Component,
    period: &OpenPeriod,
    bundles: &[BundleLife],
) -> Result<(), OutOfMemory>
    ensures { OnOk result (found.new.items ≡ found.old.items
        ++ filter (is_missing world.now)
        (keys_where world.now (are_desiring desiring.now) component.now period.now (map (λ (b : BundleLife). b.number) bundles.now))) }
{
    for bundle in bundles {
        add_key(found, world, desiring, component, period, bundle.number)?;
    }
    Ok(())
}

fn add_keys_of(
    found: &mut Vec<Key>,
    world: &World,
    desiring: &[Desiring],
    component: &Component,
    period: &OpenPeriod,
) -> Result<(), OutOfMemory>
    ensures { OnOk result (found.new.items ≡ found.old.items
        ++ filter (is_missing world.now) (keys_of_where world.now (are_desiring desiring.now) component.now period.now)) }
{
    add_key(found, world, desiring, component, period, 0)?;
    if !has_singleton_scope(component) {
        add_bundle_keys(
            found,
            world,
            desiring,
            component,
            period,
            world.bundles.rows(),
        )?;
    }
    Ok(())
}

fn period_of(periods: &[OpenPeriod], configuration: u64) -> Option<&OpenPeriod>
    ensures { option_copied result ≡ find (λ (p : OpenPeriod). p.configuration == configuration) periods.now }
{
    periods
        .iter()
        .find(|period| period.configuration == configuration)
}

fn add_keys_for(
    found: &mut Vec<Key>,
    world: &World,
    desiring: &[Desiring],
    component: &Component,
) -> Result<(), OutOfMemory>
    ensures { OnOk result (found.new.items ≡ found.old.items ++ missing_for_where world.now (are_desiring desiring.now) component.now) }
{
    match period_of(world.open_periods.as_slice(), component.number) {
        Some(period) => add_keys_of(found, world, desiring, component, period),
        None => Ok(()),
    }
}

fn keys_for_all(
    alloc: Global,
    world: &World,
    desiring: &[Desiring],
    components: &[Component],
) -> Result<Vec<Key>, OutOfMemory>
    ensures { IfOk result (λ v. v.items ≡ flat_map (missing_for_where world.now (are_desiring desiring.now)) components.now) }
{
    let mut found = Vec::new(alloc);
    for component in components {
        add_keys_for(&mut found, world, desiring, component)?;
    }
    Ok(found)
}

pub(crate) fn missing_keys(
    alloc: Global,
    own: &OwnRows,
    world: &World,
) -> Result<Vec<Key>, OutOfMemory>
    ensures { IfOk result (λ v. v.items ≡ missing_keys world.now) }
{
    let desiring = all_desiring(alloc, own, world)?;
    let keys = keys_for_all(alloc, world, &desiring, world.components.as_slice())?;
    Ok(keys)
}

/// The wanted keys without an instance, by component configuration, then by consumer.
///
/// # Errors
/// Only want of memory.
pub fn missing(alloc: Global, own: &OwnRows, world: &World) -> Result<Vec<Key>, OutOfMemory>
    ensures { IfOk result (λ v. v.items ≡ missing world.now) }
{
    missing_keys(alloc, own, world)
}
