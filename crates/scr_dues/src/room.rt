//! Room in the journal: the entries that are reserved for what has begun (our own).
ghost use Rattle.scr_world.specs.Room.{has_room, needed_by, reserved, reserved_for};
ghost use Rattle.std.specs.Prelude.{◌≡◌, ◌≤◌, ◌<◌, ◌+◌, ◌^◌, map, sum};

use scr_world::{Instance, Step, World};

// The entries that are reserved for an instance.
fn reserved_for(instance: &Instance) -> u64
    ensures value { result ≡ reserved_for instance.now }
    ensures small { result ≤ 2 }
{
    u64::from(instance.callbacks.is_outstanding())
        + u64::from(instance.callbacks.is_activated() && !instance.drained)
}

fn reserved_for_all(instances: &[Instance]) -> u128
    ensures value { result ≡ sum (map reserved_for instances.now) }
    ensures small { result < 2 ^ 66 }
{
    let mut sum = 0u128;
    for instance in instances {
        sum += u128::from(reserved_for(instance));
    }
    sum
}

/// How many entries are reserved: the end of each turn that is under way, the drain of each instance from the beginning of its
/// Activate on, and the release of each get by token. It takes no memory.
pub fn reserved(world: &World) -> u128
    ensures value { result ≡ reserved world.now }
    ensures small { result < 2 ^ 67 }
{
    let whiteboard = u128::from(reserved_for(&world.whiteboard));
    let instances = reserved_for_all(world.instances.as_slice());
    whiteboard + instances + world.tokens.as_slice().len() as u128
}

/// How many entries a step needs that isn't itself reserved.
pub fn needed_by(step: &Step) -> u64
    ensures value { result ≡ needed_by step.now }
    ensures small { result ≤ 3 }
{
    match step {
        Step::Command(_) => 1,
        Step::Begin { callback, .. } => { if callback.is_activate() { 3 } else { 2 } }
        Step::Got { .. } => 2,
        Step::End { .. } | Step::Drained { .. } | Step::Released { .. } => 0,
    }
}

/// Whether the journal has room for so many entries beside those that are reserved. It takes no memory.
#[tactic(auto, unfolding(scr_world::specs::Room::has_room))]
pub fn has_room(limit: u64, world: &World, entries: u64) -> bool
    ensures { result ≡ has_room limit world.now entries }
{
    u128::from(world.entries) + reserved(world) + u128::from(entries) <= u128::from(limit)
}
