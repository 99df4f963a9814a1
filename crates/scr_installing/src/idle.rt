//! Whether a bundle is there and neither ACTIVE nor STOPPING (OSGi Core 8, chapter 4, "Bundle State"). That an update and an
//! uninstall are refused else is our own.
ghost use Rattle.scr_installing.specs.Idle.{IsRefusedBy, idle_refusal};
ghost use Rattle.scr_world.specs.Consequences.{keeps_bundle};
ghost use Rattle.scr_world.specs.Refusals.{lowest_keeping};
ghost use Rattle.std.specs.Option.{option_copied};
ghost use Rattle.std.specs.Prelude.{◌≡◌, find};

use bundle_life::BundleState;
use component_state::Component;
use scr_consequences::keeps_bundle;
use scr_world::{CoreFault, Instance, World};

/// That a bundle is there and rests.
///
/// # Errors
/// `NoBundle` where it isn't there, `WrongState` where it is ACTIVE, `Stopping` where it is STOPPING.
pub(crate) fn check_idle(world: &World, bundle: u64) -> Result<(), CoreFault>
    ensures { IsRefusedBy (idle_refusal world.now bundle) result }
{
    match world.bundles.state_of(bundle) {
        None => Err(CoreFault::NoBundle { bundle }),
        Some(BundleState::Active) => Err(CoreFault::WrongState {
            state: BundleState::Active.number(),
        }),
        Some(BundleState::Stopping) => Err(CoreFault::Stopping {
            instance: lowest_keeping(world, bundle),
        }),
        Some(BundleState::Installed | BundleState::Resolved) => Ok(()),
    }
}

// The lowest instance that keeps a bundle from having stopped, 0 where there is none.
fn lowest_keeping(world: &World, bundle: u64) -> u64
    ensures { result ≡ lowest_keeping world.now bundle }
{
    let components = world.components.as_slice();
    match first_keeping(components, world.instances.as_slice(), bundle) {
        Some(instance) => instance.number,
        None => 0,
    }
}

fn first_keeping<'i>(
    components: &[Component],
    instances: &'i [Instance],
    bundle: u64,
) -> Option<&'i Instance>
    ensures { option_copied result ≡ find (keeps_bundle components.now bundle) instances.now }
{
    instances
        .iter()
        .find(|instance| keeps_bundle(components, bundle, instance))
}
