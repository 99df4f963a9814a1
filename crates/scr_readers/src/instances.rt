//! Living instances by what they are asked for (OSGi Core 8, chapter 5, "Service Scope"; numbers are our own).
ghost use Rattle.scr_readers.specs.Reaching.{is_ending_at, server_of};
ghost use Rattle.scr_world.specs.Instances.{is_active_instance};
ghost use Rattle.scr_world.specs.Views.{serves};
ghost use Rattle.scr_world.specs.declared.instance.Instance.{Instance};
ghost use Rattle.std.specs.Option.{option_copied};
ghost use Rattle.std.specs.Prelude.{◌≡◌, ◌&&◌, find};

use scr_dues::{instance_of, serves};
use scr_world::{Instance, World, ends};

/// Whether an instance is ending, or isn't there any more. That of the whiteboard, which has the number 0, never is. It takes
/// no memory.
pub fn ending(world: &World, instance: u64) -> bool
    ensures { result ≡ is_ending_at world.now instance }
{
    if instance == 0 {
        return false;
    }
    match instance_of(world, instance) {
        Some(instance) => ends(world, instance),
        None => true,
    }
}

/// The instance that a bundle uses of a service.
pub(crate) fn server_of(world: &World, bundle: u64, service: u64) -> Option<&Instance>
    ensures { option_copied result ≡ server_of world.now bundle service }
{
    server_among(world, world.instances.as_slice(), bundle, service)
}

fn server_among<'w>(
    world: &World,
    instances: &'w [Instance],
    bundle: u64,
    service: u64,
) -> Option<&'w Instance>
    ensures { option_copied result ≡ find (serves world.now bundle service) instances.now }
{
    instances
        .iter()
        .find(|instance| serves(world, bundle, service, instance))
}

/// The active one among those.
pub(crate) fn active_server(world: &World, bundle: u64, service: u64) -> Option<&Instance>
    ensures { option_copied result ≡ find (λ (i : Instance). serves world.now bundle service i && is_active_instance i) world.now.instances }
{
    active_among(world, world.instances.as_slice(), bundle, service)
}

fn active_among<'w>(
    world: &World,
    instances: &'w [Instance],
    bundle: u64,
    service: u64,
) -> Option<&'w Instance>
    ensures { option_copied result ≡ find (λ (i : Instance). serves world.now bundle service i && is_active_instance i) instances.now }
{
    instances.iter().find(|instance| {
        serves(world, bundle, service, instance) && instance.is_active()
    })
}
