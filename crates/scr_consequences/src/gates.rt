//! The gates of instances that begin to be drained. Our own.
ghost use Rattle.scr_consequences.specs.Ends.{begins_draining_from, draining_in};
ghost use Rattle.scr_world.specs.Consequences.{gate_of, is_draining, shut_between};
ghost use Rattle.scr_world.specs.declared.instance.Instance.{Instance};
ghost use Rattle.scr_world.specs.declared.world.World.{World};
ghost use Rattle.std.specs.Prelude.{◌≡◌, IfOk, filter, map};

use crate::sorted_numbers::SortedNumbers;
use journal_core::GateKey;
use prop_map::{List, OutOfMemory};
use scr_world::{Instance, World, ends};
use std::alloc::Global;

// Active, and ending.
fn is_draining(world: &World, instance: &Instance) -> bool
    ensures { result ≡ is_draining world.now instance.now }
{
    instance.is_active() && ends(world, instance)
}

// The numbers of those of these instances.
fn draining_among(
    alloc: Global,
    world: &World,
    instances: &[Instance],
) -> Result<List<u64>, OutOfMemory>
    ensures { IfOk result (λ numbers. numbers ≡ map (λ (i : Instance). i.number) (filter (is_draining world.now) instances.now)) }
{
    let mut found = Vec::new(alloc);
    for instance in instances {
        if is_draining(world, instance) {
            found.push(instance.number)?;
        }
    }
    Ok(List::of(found))
}

/// The numbers of the instances whose gates are to be drained: active ones that are ending.
///
/// # Errors
/// Only want of memory.
#[tactic(auto, unfolding(crate::specs::Ends::draining_in))]
pub fn draining_in(alloc: Global, world: &World) -> Result<List<u64>, OutOfMemory>
    ensures { IfOk result (λ numbers. numbers ≡ draining_in world.now) }
{
    draining_among(alloc, world, world.instances.as_slice())
}

fn begins_draining(draining: &SortedNumbers, now: &World, instance: &Instance) -> bool
    ensures { result ≡ begins_draining_from draining.now now.now instance.now }
{
    is_draining(now, instance) && !draining.has(instance.number)
}

// The gates of those of these instances that begin to be drained.
fn shut_among(
    alloc: Global,
    draining: &SortedNumbers,
    now: &World,
    instances: &[Instance],
) -> Result<List<GateKey>, OutOfMemory>
    ensures { IfOk result (λ keys. keys ≡ map gate_of (filter (begins_draining_from draining.now now.now) instances.now)) }
{
    let mut keys = Vec::new(alloc);
    for instance in instances {
        if begins_draining(draining, now, instance) {
            keys.push(instance.gate())?;
        }
    }
    Ok(List::of(keys))
}

/// The gates that are shut from a world before to this one, by instance: those of the instances that are to be drained now, and
/// weren't in the world before, whose numbers are given.
///
/// # Errors
/// Only want of memory. That a slot is none of 32 bits counts as such.
pub fn shut_since(
    alloc: Global,
    now: &World,
    draining: &[u64],
) -> Result<List<GateKey>, OutOfMemory>
    ensures { IfOk result (λ keys. (was : World) → draining.now ≡ draining_in was → keys ≡ shut_between was now.now) }
{
    let draining = SortedNumbers::of(Vec::from_slice(alloc, draining)?);
    shut_among(alloc, &draining, now, now.instances.as_slice())
}
