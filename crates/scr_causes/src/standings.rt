//! Why a component configuration that is satisfied isn't active (OSGi Compendium 8, chapter 112, "Delayed Component",
//! "Component Life Cycle"; turns and keys are our own).
ghost use Rattle.callback_orders.specs.Sequences.{is_outstanding};
ghost use Rattle.component_state.specs.Rows.{service_in};
ghost use Rattle.component_state.specs.declared.open_period.OpenPeriod.{OpenPeriod};
ghost use Rattle.scr_causes.specs.Standings.{asked_standing, has_left, is_present, leaving_standing, or_asked, satisfied_standing, turn_of, turn_standing};
ghost use Rattle.scr_world.specs.declared.instance.Instance.{Instance};
ghost use Rattle.std.specs.Option.{option_copied};
ghost use Rattle.std.specs.Prelude.{◌≡◌, ◌==◌, ◌&&◌, IfOk, find};

use crate::wanted::has_wanted;
use component_causes::Standing;
use component_state::{Component, OpenPeriod, is_current, is_open};
use prop_map::{Copies, OutOfMemory};
use scr_dues::OwnRows;
use scr_world::{Instance, World, last_callback};
use std::alloc::Global;

/// Where it isn't open, the instance that is leaving. Else the turn of an instance that is being told; else that it is
/// wanted; else its service, which nobody asks for.
///
/// # Errors
/// Only want of memory.
pub(crate) fn satisfied_standing(
    alloc: Global,
    own: &OwnRows,
    world: &World,
    component: &Component,
) -> Result<Option<Standing>, OutOfMemory>
    ensures { IfOk result (λ standing. standing ≡ satisfied_standing world.now component.now) }
{
    if is_open(world.open_periods.as_slice(), component.number) {
        Ok(Some(open_standing(alloc, own, world, component)?))
    } else {
        Ok(leaving_standing(world, component))
    }
}

fn leaving_standing(world: &World, component: &Component) -> Option<Standing>
    ensures { result ≡ leaving_standing world.now component.now }
{
    match left_one(world, component, world.instances.as_slice()) {
        Some(instance) => Some(Standing::Leaving {
            instance: instance.number,
        }),
        None => None,
    }
}

fn left_one<'w>(
    world: &World,
    component: &Component,
    instances: &'w [Instance],
) -> Option<&'w Instance>
    ensures { option_copied result ≡ find (has_left world.now component.now) instances.now }
{
    instances
        .iter()
        .find(|instance| has_left(world, component, instance))
}

fn has_left(world: &World, component: &Component, instance: &Instance) -> bool
    ensures { result ≡ has_left world.now component.now instance.now }
{
    let origin = instance.origin.get();
    origin.configuration == component.number && !is_current(world.open_periods.as_slice(), origin)
}

fn open_standing(
    alloc: Global,
    own: &OwnRows,
    world: &World,
    component: &Component,
) -> Result<Standing, OutOfMemory>
    ensures { IfOk result (λ standing. standing ≡ or_asked world.now component.now (turn_standing world.now component.now)) }
{
    let turn = turn_standing(alloc, world, component)?;
    match turn {
        Some(standing) => Ok(standing),
        None => asked_standing(alloc, own, world, component),
    }
}

fn turn_standing(
    alloc: Global,
    world: &World,
    component: &Component,
) -> Result<Option<Standing>, OutOfMemory>
    ensures { IfOk result (λ standing. standing ≡ turn_standing world.now component.now) }
{
    match told_one(world, component, world.instances.as_slice()) {
        Some(instance) => turn_of(alloc, instance),
        None => Ok(None),
    }
}

fn told_one<'w>(
    world: &World,
    component: &Component,
    instances: &'w [Instance],
) -> Option<&'w Instance>
    ensures { option_copied result ≡ find (λ (i : Instance). is_present world.now component.now i && is_outstanding i.callbacks) instances.now }
{
    instances.iter().find(|instance| {
        is_present(world, component, instance) && instance.callbacks.is_outstanding()
    })
}

fn is_present(world: &World, component: &Component, instance: &Instance) -> bool
    ensures { result ≡ is_present world.now component.now instance.now }
{
    let origin = instance.origin.get();
    origin.configuration == component.number && is_current(world.open_periods.as_slice(), origin)
}

fn turn_of(alloc: Global, instance: &Instance) -> Result<Option<Standing>, OutOfMemory>
    ensures { IfOk result (λ standing. standing ≡ turn_of instance.now) }
{
    match last_callback(&instance.callbacks) {
        Some(callback) => Ok(Some(Standing::Turn {
            turn: instance.turn,
            callback: callback.copy(alloc)?,
            instance: instance.number,
        })),
        None => Ok(None),
    }
}

fn asked_standing(
    alloc: Global,
    own: &OwnRows,
    world: &World,
    component: &Component,
) -> Result<Standing, OutOfMemory>
    ensures { IfOk result (λ standing. standing ≡ asked_standing world.now component.now) }
{
    let is_wanted = has_wanted(alloc, own, world, component)?;
    Ok(if is_wanted {
        Standing::Wanted
    } else {
        Standing::Unasked {
            service: service_in(world.open_periods.as_slice(), component.number),
        }
    })
}

// The service of an open component configuration, 0 where it isn't open or has none.
fn service_in(periods: &[OpenPeriod], configuration: u64) -> u64
    ensures { result ≡ service_in periods.now configuration }
{
    match period_of(periods, configuration) {
        Some(period) => period.row.id,
        None => 0,
    }
}

pub(crate) fn period_of(periods: &[OpenPeriod], configuration: u64) -> Option<&OpenPeriod>
    ensures { option_copied result ≡ find (λ (p : OpenPeriod). p.configuration == configuration) periods.now }
{
    periods
        .iter()
        .find(|period| period.configuration == configuration)
}
