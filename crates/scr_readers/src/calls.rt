//! Whom a call reaches (our own).
ghost use Rattle.scr_readers.specs.Inside.{first_one};
ghost use Rattle.scr_readers.specs.Reaching.{active_for, held_best_first, inward, inward_by, inward_to, is_direct, live_of, outer, server_of};
ghost use Rattle.scr_world.specs.Views.{bundle_of_instance};
ghost use Rattle.service_registry.specs.declared.row.ServiceRow.{ServiceRow};
ghost use Rattle.std.specs.Option.{option_copied, option_map_or};
ghost use Rattle.std.specs.Prelude.{◌≡◌, ◌==◌, ℕ, List, false, IfOk, if◌then◌else◌};

use crate::best_held::best_held;
use crate::instances::{active_server, server_of};
use crate::{Inward, Live, Outer};
use prop_map::{Copies, OutOfMemory, Str};
use scr_dues::{OwnRows, bundle_of_instance, class_in, instance_of, row_known};
use scr_world::{Instance, Token, World, ends, has_token};
use service_registry::ServiceRow;
use std::alloc::Global;
use turn_work::Site;

/// The active instance that a bundle uses of a service, and `None` exactly where there is none. Each slot has to be a number
/// of 32 bits, as it is in each legal journal.
///
/// # Errors
/// Only want of memory.
pub fn active(
    alloc: Global,
    own: &OwnRows,
    world: &World,
    service: u64,
    bundle: u64,
) -> Result<Option<Live>, OutOfMemory>
    ensures { IfOk result (λ live. live ≡ active_for world.now bundle service) }
{
    match active_server(world, bundle, service) {
        Some(instance) => Ok(Some(live_of(alloc, own, world, instance)?)),
        None => Ok(None),
    }
}

/// Whom a call by a get reaches. Each slot has to be a number of 32 bits.
///
/// # Errors
/// Only want of memory.
pub fn outer(alloc: Global, own: &OwnRows, world: &World, get: &Token) -> Result<Outer, OutOfMemory>
    ensures { IfOk result (λ reached. reached ≡ outer world.now get.now) }
{
    if !has_token(world, get) {
        return Ok(Outer::Gone);
    }
    if is_direct(own, world, get.service) {
        return Ok(Outer::NoObject);
    }
    match active(alloc, own, world, get.service, get.bundle)? {
        Some(live) => Ok(Outer::Live(live)),
        None => Ok(Outer::Pending),
    }
}

/// Whom a nested call of an instance reaches: the instance of the best service that it holds for the reference of a name. Each
/// slot has to be a number of 32 bits.
///
/// # Errors
/// Only want of memory.
pub fn nested(
    alloc: Global,
    own: &OwnRows,
    world: &World,
    instance: u64,
    reference: &Str,
) -> Result<Inward, OutOfMemory>
    ensures { IfOk result (λ reached. reached ≡ inward world.now instance reference.now) }
{
    match instance_of(world, instance) {
        Some(instance) => nested_of(alloc, own, world, instance, reference),
        None => Ok(Inward::NoService),
    }
}

fn nested_of(
    alloc: Global,
    own: &OwnRows,
    world: &World,
    instance: &Instance,
    reference: &Str,
) -> Result<Inward, OutOfMemory>
    ensures { IfOk result (λ reached. reached
        ≡ inward_to world.now (bundle_of_instance world.now instance.now) (held_best_first world.now reference.now instance.now)) }
{
    let best = best_held(own, world, instance.callbacks.held(reference));
    let bundle = bundle_of_instance(world, instance);
    let reached = inward_by_best(alloc, own, world, bundle, best)?;
    Ok(reached)
}

// By the first of what is held.
fn inward_by_best(
    alloc: Global,
    own: &OwnRows,
    world: &World,
    bundle: u64,
    best: Option<u64>,
) -> Result<Inward, OutOfMemory>
    ensures { IfOk result (λ reached. (held : List ℕ) → best ≡ first_one held → reached ≡ inward_to world.now bundle held) }
{
    match best {
        Some(service) => inward_to(alloc, own, world, bundle, service),
        None => Ok(Inward::NoService),
    }
}

// By the service that is the best one.
fn inward_to(
    alloc: Global,
    own: &OwnRows,
    world: &World,
    bundle: u64,
    service: u64,
) -> Result<Inward, OutOfMemory>
    ensures { IfOk result (λ reached. reached ≡ (if is_direct world.now service then Inward.NoObject service
        else inward_by world.now service (server_of world.now bundle service))) }
{
    if is_direct(own, world, service) {
        return Ok(Inward::NoObject { service });
    }
    match server_of(world, bundle, service) {
        Some(instance) if !ends(world, instance) => {
            let live = live_of(alloc, own, world, instance)?;
            Ok(Inward::Live { service, live })
        }
        _ => Ok(Inward::Gone { service }),
    }
}

/// Whether there is no object behind a service, as it is or as it left.
pub(crate) fn is_direct(own: &OwnRows, world: &World, service: u64) -> bool
    ensures { result ≡ is_direct world.now service }
{
    is_direct_row(row_known(own, world, service))
}

fn is_direct_row(row: Option<&ServiceRow>) -> bool
    ensures { result ≡ option_map_or (λ (r : ServiceRow). r.direct) (option_copied row.entry) false }
{
    match row {
        Some(row) => row.direct,
        None => false,
    }
}

fn live_of(
    alloc: Global,
    own: &OwnRows,
    world: &World,
    instance: &Instance,
) -> Result<Live, OutOfMemory>
    ensures { IfOk result (λ live. live ≡ live_of world.now instance.now) }
{
    Ok(Live {
        key: instance.gate(),
        instance: instance.number,
        site: Site {
            class: class_in(alloc, own, world, instance.origin.get().configuration)?,
            properties: instance.properties.get().copy(alloc)?,
        },
    })
}
