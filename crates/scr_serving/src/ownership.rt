//! A command for a service of a bundle: it is refused where the service isn't that bundle's (our own).
ghost use Rattle.prop_map.specs.Words.{first_some};
ghost use Rattle.scr_world.specs.Refusals.{no_direct, not_owner};
ghost use Rattle.std.specs.Prelude.{◌≡◌, ◌∷◌, []};

use scr_world::{CoreFault, World};

/// Why it is refused for a service that no command registered, or that another bundle registered.
pub(crate) fn refusal_of_foreign(world: &World, bundle: u64, service: u64) -> Option<CoreFault>
    ensures { result ≡ first_some (no_direct world.now service ∷ not_owner world.now bundle service ∷ []) }
{
    match world.registry.row(service) {
        Some(row) if row.bundle == bundle => None,
        Some(row) => Some(CoreFault::NotOwner { owner: row.bundle }),
        None => Some(CoreFault::NoService { service }),
    }
}
