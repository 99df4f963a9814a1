//! The failure of a component configuration (OSGi Compendium 8, chapter 112, "ComponentConfigurationDTO").
ghost use Rattle.scr_readers.specs.ComponentViews.{failed_instance, failure_in};
ghost use Rattle.std.specs.Prelude.{◌≡◌};

use scr_world::{Failure, World};

/// The instance that failed, where the state says so.
pub(crate) fn failure_in(world: &World, state: u8, configuration: u64) -> Option<u64>
    ensures { result ≡ failure_in world.now state configuration }
{
    if state == 16 {
        failed_instance(world.failures.as_slice(), configuration)
    } else {
        None
    }
}

// The instance of the last failure.
fn failed_instance(failures: &[Failure], configuration: u64) -> Option<u64>
    ensures { result ≡ failed_instance failures.now configuration }
{
    match failures
        .iter()
        .rev()
        .find(|failure| failure.configuration == configuration)
    {
        Some(failure) => Some(failure.instance),
        None => None,
    }
}
