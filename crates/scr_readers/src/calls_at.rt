//! Whom a call reaches, by number and gate alone and without memory (our own).
ghost use Rattle.scr_readers.specs.declared.live.Inward.TheVariants.{NoObject};
ghost use Rattle.scr_readers.specs.Inside.{first_one};
ghost use Rattle.scr_readers.specs.Reaching.{active_for, held_best_first, inward, inward_at, inward_by, inward_to, is_direct, live_at, outer, outer_at, server_of};
ghost use Rattle.scr_world.specs.Consequences.{gate_of};
ghost use Rattle.scr_world.specs.Views.{bundle_of_instance};
ghost use Rattle.std.specs.Prelude.{◌≡◌, ℕ, List, option_map, if◌then◌else◌};

use crate::best_held::best_held;
use crate::calls::is_direct;
use crate::instances::{active_server, server_of};
use crate::{InwardAt, LiveAt, OuterAt};
use prop_map::Str;
use scr_dues::{OwnRows, bundle_of_instance, instance_of};
use scr_world::{Instance, Token, World, ends, has_token};

/// The active instance that a bundle uses of a service, and `None` exactly where there is none. Each slot has to be a number
/// of 32 bits, as it is in each legal journal. It takes no memory.
pub fn active_at(world: &World, service: u64, bundle: u64) -> Option<LiveAt>
    ensures { result ≡ option_map live_at (active_for world.now bundle service) }
{
    match active_server(world, bundle, service) {
        Some(instance) => Some(live_at(instance)),
        None => None,
    }
}

/// Whom a call by a get reaches. Each slot has to be a number of 32 bits. It takes no memory.
pub fn outer_at(own: &OwnRows, world: &World, get: &Token) -> OuterAt
    ensures { result ≡ outer_at (outer world.now get.now) }
{
    if !has_token(world, get) {
        return OuterAt::Gone;
    }
    if is_direct(own, world, get.service) {
        return OuterAt::NoObject;
    }
    match active_at(world, get.service, get.bundle) {
        Some(live) => OuterAt::Live(live),
        None => OuterAt::Pending,
    }
}

/// Whom a nested call of an instance reaches: the instance of the best service that it holds for the reference of a name. Each
/// slot has to be a number of 32 bits. It takes no memory.
pub fn nested_at(own: &OwnRows, world: &World, instance: u64, reference: &Str) -> InwardAt
    ensures { result ≡ inward_at (inward world.now instance reference.now) }
{
    match instance_of(world, instance) {
        Some(instance) => nested_of(own, world, instance, reference),
        None => InwardAt::NoService,
    }
}

fn nested_of(own: &OwnRows, world: &World, instance: &Instance, reference: &Str) -> InwardAt
    ensures { result ≡ inward_at (inward_to world.now (bundle_of_instance world.now instance.now) (held_best_first world.now reference.now instance.now)) }
{
    let best = best_held(own, world, instance.callbacks.held(reference));
    let bundle = bundle_of_instance(world, instance);
    inward_by_best(own, world, bundle, best)
}

// By the first of what is held.
fn inward_by_best(own: &OwnRows, world: &World, bundle: u64, best: Option<u64>) -> InwardAt
    ensures { (held : List ℕ) → best ≡ first_one held → result ≡ inward_at (inward_to world.now bundle held) }
{
    match best {
        Some(service) => inward_to(own, world, bundle, service),
        None => InwardAt::NoService,
    }
}

// By the service that is the best one.
fn inward_to(own: &OwnRows, world: &World, bundle: u64, service: u64) -> InwardAt
    ensures { result ≡ inward_at (if is_direct world.now service then NoObject service
        else inward_by world.now service (server_of world.now bundle service)) }
{
    if is_direct(own, world, service) {
        return InwardAt::NoObject { service };
    }
    match server_of(world, bundle, service) {
        Some(instance) if !ends(world, instance) => InwardAt::Live {
            service,
            live: live_at(instance),
        },
        _ => InwardAt::Gone { service },
    }
}

fn live_at(instance: &Instance) -> LiveAt
    ensures { result ≡ record { key = gate_of instance.now; instance = instance.now.number } }
{
    LiveAt {
        key: instance.gate(),
        instance: instance.number,
    }
}
