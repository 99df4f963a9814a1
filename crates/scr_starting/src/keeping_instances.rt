//! The instances that keep a bundle from having stopped (OSGi Core 8, chapter 4, "Stopping Bundles").
ghost use Rattle.scr_world.specs.Consequences.{keeps_bundle};
ghost use Rattle.scr_world.specs.Refusals.{lowest_keeping};
ghost use Rattle.std.specs.Option.{option_copied};
ghost use Rattle.std.specs.Prelude.{◌≡◌, find};

use component_state::Component;
use scr_consequences::keeps_bundle;
use scr_world::{Instance, World};

/// The number of the lowest instance that keeps a bundle from having stopped, 0 where none does. It takes no memory.
pub(crate) fn lowest_keeping(world: &World, bundle: u64) -> u64
    ensures { result ≡ lowest_keeping world.now bundle }
{
    let instances = world.instances.as_slice();
    match first_keeping(world.components.as_slice(), instances, bundle) {
        Some(instance) => instance.number,
        None => 0,
    }
}

fn first_keeping<'w>(
    components: &[Component],
    instances: &'w [Instance],
    bundle: u64,
) -> Option<&'w Instance>
    ensures { option_copied result ≡ find (keeps_bundle components.now bundle) instances.now }
{
    instances
        .iter()
        .find(|instance| keeps_bundle(components, bundle, instance))
}
