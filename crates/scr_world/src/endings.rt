//! Which instances are ending (OSGi Compendium 8, chapter 112, "Deactivation").
ghost use Rattle.bundle_life.specs.Lives.{is_active, state_is};
ghost use Rattle.scr_world.specs.Views.{ends, is_ending};
ghost use Rattle.std.specs.Prelude.{◌≡◌};

use crate::{Instance, World};
use bundle_life::{BundleState, Bundles};
use component_state::{OpenPeriod, is_current};

/// Whether a bundle is ACTIVE. It takes no memory.
pub fn is_active_bundle(bundles: &Bundles, bundle: u64) -> bool
    ensures { result ≡ state_is is_active bundles.now.rows bundle }
{
    match bundles.state_of(bundle) {
        Some(state) => state == BundleState::Active,
        None => false,
    }
}

/// Whether an instance is ending where these are the bundles and the open periods: its period has ended, it was made for a bundle
/// that isn't ACTIVE, or its activation failed. It takes no memory.
pub fn is_ending(bundles: &Bundles, open_now: &[OpenPeriod], instance: &Instance) -> bool
    ensures { result ≡ is_ending bundles.now.rows open_now.now instance.now }
{
    !is_current(open_now, instance.origin.get())
        || (instance.consumer != 0 && !is_active_bundle(bundles, instance.consumer))
        || instance.has_failed()
}

/// Whether an instance is ending in a world. It takes no memory.
pub fn ends(world: &World, instance: &Instance) -> bool
    ensures { result ≡ ends world.now instance.now }
{
    is_ending(&world.bundles, world.open_periods.as_slice(), instance)
}
